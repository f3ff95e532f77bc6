//! Numbers behind words.
ghost use Rattle.std.specs.Prelude.{◌≡◌, ◌++◌, OnOk, string_bytes};
ghost use Rattle.std.specs.Fmt.{decimal};

use std::alloc::AllocError;
use std::fmt::Write;

/// Adds a number behind words.
pub(crate) fn push_number(text: &mut String, words: &str, number: u64) -> Result<(), AllocError>
    ensures { OnOk result
        (string_bytes text.new ≡ string_bytes text.old ++ (words.now ++ decimal number)) }
{
    text.push_str(words)?;
    write!(text, "{number}")
}

/// Adds two numbers, each behind its words.
pub(crate) fn push_two(
    text: &mut String,
    words: &str,
    number: u64,
    more: &str,
    other: u64,
) -> Result<(), AllocError>
    ensures { OnOk result (string_bytes text.new ≡ string_bytes text.old
        ++ (words.now ++ decimal number ++ more.now ++ decimal other)) }
{
    push_number(text, words, number)?;
    push_number(text, more, other)
}
