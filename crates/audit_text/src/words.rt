//! The word that a line begins with.
ghost use Rattle.std.specs.Prelude.{◌≡◌};
ghost use Rattle.audit_text.specs.Reading.{long_at, word_by_b, word_by_d, word_by_f, word_by_r, word_by_gpt, word_by_first, word_in};

use crate::item::Word;

fn byte_at(line: &[u8], i: usize) -> u8
    ensures { result ≡ long_at line.now i }
{
    match line.get(i) {
        Some(b) => *b,
        None => 0,
    }
}

fn word_by_b(third: u8) -> Word
    ensures { result ≡ word_by_b third }
{
    if third == b'a' {
        Word::Beats
    } else if third == b'g' {
        Word::Begin
    } else {
        Word::Believed
    }
}

fn word_by_d(second: u8, third: u8) -> Word
    ensures { result ≡ word_by_d second third }
{
    if second == b'r' {
        if third == b'a' {
            Word::Drawn
        } else {
            Word::Dropped
        }
    } else if third == b'a' {
        Word::Death
    } else if third == b'e' {
        Word::Died
    } else {
        Word::Digest
    }
}

fn word_by_f(third: u8) -> Word
    ensures { result ≡ word_by_f third }
{
    if third == b'x' {
        Word::Fixed
    } else if third == b'n' {
        Word::Finish
    } else if third == b'l' {
        Word::File
    } else {
        Word::Fault
    }
}

fn word_by_r(third: u8) -> Word
    ensures { result ≡ word_by_r third }
{
    if third == b'a' {
        Word::ReadFailed
    } else {
        Word::Returned
    }
}

fn word_by_gpt(first: u8, second: u8, third: u8) -> Word
    ensures { result ≡ word_by_gpt first second third }
{
    if first == b'g' {
        if third == b't' { Word::Got } else { Word::Gone }
    } else if first == b'p' {
        if second == b'l' {
            Word::Plan
        } else {
            Word::Put
        }
    } else if second == b'i' {
        Word::Tiger
    } else {
        Word::Took
    }
}

fn word_by_first(first: u8) -> Word
    ensures { result ≡ word_by_first first }
{
    if first == b's' {
        Word::Sent
    } else if first == b'q' {
        Word::Queued
    } else if first == b'u' {
        Word::Unqueued
    } else if first == b'o' {
        Word::Offsets
    } else if first == b'n' {
        Word::Node
    } else {
        Word::End
    }
}

/// The word that a line begins with, if it begins with one.
#[tactic(auto, unfolding(crate::specs::Reading::word_in))]
pub fn word_in(line: &[u8]) -> Word
    ensures { result ≡ word_in line.now }
{
    let first = byte_at(line, 0);
    let second = byte_at(line, 1);
    let third = byte_at(line, 2);
    if first == b'b' {
        word_by_b(third)
    } else if first == b'd' {
        word_by_d(second, third)
    } else if first == b'f' {
        word_by_f(third)
    } else if first == b'g' {
        word_by_gpt(first, second, third)
    } else if first == b'p' {
        word_by_gpt(first, second, third)
    } else if first == b't' {
        word_by_gpt(first, second, third)
    } else if first == b'r' {
        word_by_r(third)
    } else {
        word_by_first(first)
    }
}
