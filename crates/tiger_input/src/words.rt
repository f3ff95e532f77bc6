//! The words of the command line.
ghost use Rattle.std.specs.Prelude.{◌≡◌, ◌<◌, ◌↔◌, MatchOption, IsTrue, codes, length};
ghost use Rattle.std.specs.Fmt.{decimal};
ghost use Rattle.tiger_input.specs.Words.{IsPlainWord, IsNoNumber, AreWorkers, AreNoWorkers};
ghost use Rattle.tiger_input.specs.Words.{IsMake, IsNoRun, IsNoMake, IsNoCommand, Asks, texts_of};

/// What the words ask for.
#[derive(Clone, Copy, Debug)]
pub enum Command<'a> {
    /// To run the scenario of the file `name`, with 1 to 64 workers.
    Run { name: &'a str, workers: u32 },
    /// To make the scenario of a number, and to run it.
    Make { number: u64 },
}

/// Whether no sign and no leading zero stands first.
fn is_plain(word: &[u8]) -> bool
    requires { 0 < length word.now }
    ensures { IsTrue result ↔ IsPlainWord word.now }
{
    if word[0] == b'+' {
        false
    } else {
        word[0] != b'0' || word.len() == 1
    }
}

/// The number that the word is in decimal, without a sign or a leading zero.
fn number_of(word: &str) -> Option<u64>
    ensures { MatchOption result (IsNoNumber word.now) (λ n. word.now ≡ decimal n) }
{
    match word.parse::<u64>() {
        Ok(number) => {
            if is_plain(word.as_bytes()) {
                Some(number)
            } else {
                None
            }
        }
        Err(_) => None,
    }
}

/// The number of workers that the word is in decimal, from 1 to 64.
pub fn workers_of(word: &str) -> Option<u32>
    ensures { MatchOption result (AreNoWorkers word.now) (AreWorkers word.now) }
{
    let number = number_of(word)?;
    if 1 <= number && number <= 64 {
        Some(number as u32)
    } else {
        None
    }
}

/// The words as the command `run NAME W`; `None` exactly if they are not in its form.
fn run_in(words: &[String]) -> Option<Command<'_>>
    ensures { MatchOption result (IsNoRun (texts_of words.now)) (Asks (texts_of words.now)) }
{
    match words {
        [command, name, workers] => {
            if !is_run(command.as_str()) {
                return None;
            }
            match workers_of(workers.as_str()) {
                Some(workers) => Some(Command::Run {
                    name: name.as_str(),
                    workers,
                }),
                None => None,
            }
        }
        _ => None,
    }
}

/// The words as the command `make NUMBER`; `None` exactly if they are not in its form.
fn make_in(words: &[String]) -> Option<u64>
    ensures { MatchOption result (IsNoMake (texts_of words.now)) (IsMake (texts_of words.now)) }
{
    match words {
        [command, number] => {
            if !is_make(command.as_str()) {
                return None;
            }
            number_of(number.as_str())
        }
        _ => None,
    }
}

fn is_run(word: &str) -> bool
    ensures { IsTrue result ↔ (word.now ≡ codes "run") }
{
    word == "run"
}

fn is_make(word: &str) -> bool
    ensures { IsTrue result ↔ (word.now ≡ codes "make") }
{
    word == "make"
}

/// The command that the words are; `None` exactly if they are none.
pub fn command_in(words: &[String]) -> Option<Command<'_>>
    ensures { MatchOption result (IsNoCommand (texts_of words.now)) (Asks (texts_of words.now)) }
{
    match run_in(words) {
        Some(run) => Some(run),
        None => match make_in(words) {
            Some(number) => Some(Command::Make { number }),
            None => None,
        },
    }
}
