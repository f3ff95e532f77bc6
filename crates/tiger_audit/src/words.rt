//! The words `audit NAME`.
ghost use Rattle.std.specs.Prelude.{◌≡◌, ◌↔◌, MatchOption, IsTrue, codes};
ghost use Rattle.tiger_input.specs.Words.{texts_of};
ghost use Rattle.tiger_audit.specs.Words.{AsksAudit, IsNoAudit};

fn is_audit(word: &str) -> bool
    ensures { IsTrue result ↔ (word.now ≡ codes "audit") }
{
    word == "audit"
}

/// The name of the text, if the words are `audit NAME`.
pub fn audit_in(words: &[String]) -> Option<&str>
    ensures { let texts = texts_of words.now in
        MatchOption result (IsNoAudit texts) (λ name. AsksAudit texts name.now) }
{
    match words {
        [command, name] => {
            if !is_audit(command.as_str()) {
                return None;
            }
            Some(name.as_str())
        }
        _ => None,
    }
}
