//! A text of a run in which one cub is cut off and returns is read and written again, and with a wrong line it is
//! refused at that line.

use audit_read::{TextStop, read_kept};
use audit_text::write_kept;
use std::alloc::Global;
use std::test::Fail;
use tiger_base::NoMemory;

const KEPT: &str = "tiger 1
plan 8 1 16 1000000 2 4 10000 2 4000 800000 200000 100000 3000000 4000000 20 50 1000000 3000000
beats 9
drawn 7
offsets 0 0 0 0 0 0 0 0 4
death 1 3 0 0
death 3 2 7 4
death 5 8 1 0
death 7 6 0 8
fault 7 0 1
file 10 5
begin 0 0 0 3 5
finish 1 0
node 0
node 1
died 3 30000
node 2
node 3
sent 2 20000 30 6
died 2 20000
returned 4 40000
sent 4 40000 30 11 150000
node 4
got 5 50000 30 11 150000
node 5
node 6
node 7
node 8
node 9
node 10
node 11
node 12
node 13
node 14
node 15
node 16
node 17
digest 0000000000000000000000000000000000000000000000000000000000000000
end";

// Each of these lines is wrong in place of the first line with its word.
const FAULTS: &str = "tiger 2
plan 8 1 16 1000000 2 4 10000 2 1000001 800000 200000 100000 3000000 4000000 20 50 1000000 3000000
beats 100001
drawn 07
offsets 0 0 0 0 0 0 0 0 4001
death 1 9 0 0
death 8 3 0 0
death 1 3 0
death 1 3 0 0 0
death 1 3 00 0
death 1 3 18446744073709551616 0
death 1 3 0 4
death 1 3 0 9
death 1 3 1 3
death 1 3 0 18446744073709551616
fault 7 1 1
fault 8 0 1
file 0 5
begin 9 0 0 3 5
begin 0 1 0 3 5
begin 0 0 0 4 5
finish 1 1
node 1
sent 9 90000 30 6
sent 2 20000 30 12
got 5 50000 30 11
got 5 50000 30 11 18446744073709551616
died 2
returned 9 90000
returned 4 40000 0
digest 0
end 0";

/// The word of a line.
fn word(line: &[u8]) -> &[u8] {
    match line.split(|b| *b == b' ').next() {
        Some(word) => word,
        None => line,
    }
}

/// Writes the text with this line in place of the first one with its word, and says which one that is.
fn write_with(text: &mut Vec<u8>, other: &[u8]) -> Result<u64, NoMemory> {
    let mut at = 0;
    let mut n: u64 = 0;
    for line in KEPT.as_bytes().split(|b| *b == b'\n') {
        n = n.saturating_add(1);
        if at == 0 && word(line) == word(other) {
            at = n;
            text.extend_from_slice(other)?;
        } else {
            text.extend_from_slice(line)?;
        }
        text.push(b'\n')?;
    }
    Ok(at)
}

/// The line at which a text fails, and 0 if it does not.
fn fault_of(alloc: Global, text: &[u8]) -> u64 {
    match read_kept(alloc, text) {
        Err(TextStop::Fault { line }) => line,
        _ => 0,
    }
}

/// Writes the wrong lines at which the text does not fail.
fn write_passed_over(alloc: Global, found: &mut Vec<u8>) -> Result<(), NoMemory> {
    let mut text = Vec::new(alloc);
    for line in FAULTS.as_bytes().split(|b| *b == b'\n') {
        text.clear();
        let at = write_with(&mut text, line)?;
        if at == 0 || fault_of(alloc, text.as_slice()) != at {
            found.extend_from_slice(line)?;
            found.push(b'\n')?;
        }
    }
    Ok(())
}

#[test]
fn a_text_fails_at_its_wrong_line(rt: HostRuntime) -> Result<(), Fail> {
    let mut found = Vec::new(rt.alloc());
    write_passed_over(rt.alloc(), &mut found)?;
    assert!(rt; found.is_empty());
    Ok(())
}

/// Reads a text and writes what was read, if it is one of a value.
fn write_again(alloc: Global, text: &[u8]) -> Result<Vec<u8>, NoMemory> {
    match read_kept(alloc, text) {
        Ok(kept) => write_kept(alloc, &kept),
        Err(_) => Ok(Vec::new(alloc)),
    }
}

#[test]
fn what_was_read_is_written_again(rt: HostRuntime) -> Result<(), Fail> {
    let mut text = Vec::new(rt.alloc());
    write_with(&mut text, b"")?;
    let again = write_again(rt.alloc(), text.as_slice())?;
    assert!(rt; text.len() == KEPT.len() + 1);
    assert!(rt; again.as_slice() == text.as_slice());
    Ok(())
}
