//! Writing a text by puts of whole lines.
ghost use Rattle.std.specs.Prelude.{◌≡◌, ◌+◌, ◌<◌, ◌≤◌, ◌==◌, length, OnOk, IfErr, IfSome};
ghost use Rattle.std.specs.List.{position};
ghost use Rattle.outside.specs.Written.{most_faults};
ghost use Rattle.tiger_input.specs.Ending.{IsWritten, TextCause, Wrote};
ghost use Rattle.tiger_input.specs.Puts.{first_line, last_position, next_put};

use crate::status::Status;
use outside::{Sink, SinkFault};

/// The most bytes that a put carries, unless its first line has more: a call of the system costs
/// more than to move so many bytes.
const MOST_PUT: usize = 65_536;

/// The length of the first line, with its line feed if it has one.
fn line_len(text: &[u8]) -> usize
    requires { 0 < length text.now }
    ensures line { result ≡ first_line text.now }
    ensures some { 0 < result }
    ensures within { result ≤ length text.now }
{
    match first_feed(text) {
        Some(place) => place + 1,
        None => text.len(),
    }
}

/// The place of the first line feed, if there is one.
fn first_feed(text: &[u8]) -> Option<usize>
    ensures place { result ≡ position (λ byte. byte == 10) text.now }
    ensures within { IfSome result (λ place. place < length text.now) }
{
    text.iter().position(|byte| *byte == b'\n')
}

/// The place of the last line feed, if there is one.
fn last_feed(text: &[u8]) -> Option<usize>
    ensures place { result ≡ last_position (λ byte. byte == 10) text.now }
    ensures within { IfSome result (λ place. place < length text.now) }
{
    for place in (0..text.len()).rev() {
        if text[place] == b'\n' {
            return Some(place);
        }
    }
    None
}

/// How many bytes the next put carries: all that is left, if it fits, or else whole lines from the
/// front, as many as fit, and at least one.
fn put_len(text: &[u8]) -> usize
    requires { 0 < length text.now }
    ensures len { result ≡ next_put text.now }
    ensures some { 0 < result }
    ensures within { result ≤ length text.now }
{
    if text.len() <= MOST_PUT {
        return text.len();
    }
    match last_feed(&text[..MOST_PUT]) {
        Some(place) => place + 1,
        None => line_len(text),
    }
}

/// Puts the text, with each call as many whole lines as fit.
pub fn put_lines<K: Sink>(out: &mut K, text: &[u8]) -> Result<(), SinkFault>
    requires { (K.state out.old).faults ≤ most_faults }
    ensures written { OnOk result (IsWritten (K.state out.old) (K.state out.new) text.now) }
    ensures cause { IfErr result (TextCause (K.state out.old) (K.state out.new) text.now) }
    ensures one_fault { (K.state out.new).faults ≤ (K.state out.old).faults + 1 }
{
    let mut done = 0usize;
    while done < text.len() {
        let lines = &text[done..];
        let lines = &lines[..put_len(lines)];
        out.put(lines)?;
        done += lines.len();
    }
    Ok(())
}

/// Writes a text, and says how that ended.
pub fn written<K: Sink>(out: &mut K, text: &[u8]) -> Status
    requires { (K.state out.old).faults ≤ most_faults }
    ensures wrote { Wrote (K.state out.old) (K.state out.new) text.now result }
    ensures one_fault { (K.state out.new).faults ≤ (K.state out.old).faults + 1 }
{
    match put_lines(out, text) {
        Ok(()) => Status::Done,
        Err(SinkFault::Failed) => Status::WriteFault,
        Err(SinkFault::NoMemory) => Status::NoMemory,
    }
}
