//! The words `check NAME`.
ghost use Rattle.std.specs.Prelude.{◌≡◌, ◌↔◌, MatchOption, IsTrue, codes};
ghost use Rattle.tiger_input.specs.Words.{texts_of};
ghost use Rattle.tiger_check.specs.Words.{AsksCheck, IsNoCheck};

fn is_check(word: &str) -> bool
    ensures { IsTrue result ↔ (word.now ≡ codes "check") }
{
    word == "check"
}

/// The name of the scenario, if the words are `check NAME`.
pub fn check_in(words: &[String]) -> Option<&str>
    ensures { let texts = texts_of words.now in
        MatchOption result (IsNoCheck texts) (λ name. AsksCheck texts name.now) }
{
    match words {
        [command, name] => {
            if !is_check(command.as_str()) {
                return None;
            }
            Some(name.as_str())
        }
        _ => None,
    }
}
