//! The words `disks NAME IMAGE`, and `--force` behind them.
ghost use Rattle.std.specs.Prelude.{◌≡◌, ◌↔◌, MatchOption, IsTrue, true, false, codes};
ghost use Rattle.tiger_input.specs.Words.{texts_of};
ghost use Rattle.tiger_disks.specs.Words.{AsksDisks, AsksNone, IsNoDisks};

/// What the words ask for: the scenario's name, the image's, and whether one that exists is written over.
#[derive(Clone, Copy, Debug)]
pub struct DisksWords<'a> {
    pub name: &'a str,
    pub image: &'a str,
    pub over: bool,
}

fn is_disks(word: &str) -> bool
    ensures { IsTrue result ↔ (word.now ≡ codes "disks") }
{
    word == "disks"
}

fn is_force(word: &str) -> bool
    ensures { IsTrue result ↔ (word.now ≡ codes "--force") }
{
    word == "--force"
}

/// The names, if the words are `disks NAME IMAGE`.
fn plain_in(words: &[String]) -> Option<(&str, &str)>
    ensures { let texts = texts_of words.now in
        MatchOption result (AsksNone texts false) (λ w. AsksDisks texts w.0.now w.1.now false) }
{
    match words {
        [command, name, image] => {
            if !is_disks(command.as_str()) {
                return None;
            }
            Some((name.as_str(), image.as_str()))
        }
        _ => None,
    }
}

/// The names, if the words are `disks NAME IMAGE --force`.
fn forced_in(words: &[String]) -> Option<(&str, &str)>
    ensures { let texts = texts_of words.now in
        MatchOption result (AsksNone texts true) (λ w. AsksDisks texts w.0.now w.1.now true) }
{
    match words {
        [command, name, image, force] => {
            if !is_disks(command.as_str()) || !is_force(force.as_str()) {
                return None;
            }
            Some((name.as_str(), image.as_str()))
        }
        _ => None,
    }
}

/// What the words ask for, if they are this command.
pub fn disks_in(words: &[String]) -> Option<DisksWords<'_>>
    ensures { let texts = texts_of words.now in
        MatchOption result (IsNoDisks texts) (λ w. AsksDisks texts w.name.now w.image.now w.over) }
{
    match plain_in(words) {
        Some((name, image)) => Some(DisksWords {
            name,
            image,
            over: false,
        }),
        None => match forced_in(words) {
            Some((name, image)) => Some(DisksWords {
                name,
                image,
                over: true,
            }),
            None => None,
        },
    }
}
