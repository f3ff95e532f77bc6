//! The first tick is found of texts of runs of two beats at which a start that waits is passed over.

ghost use Rattle.audit_read.specs.Writable.{IsWritable};

use audit_frame::lines_of;
use audit_read::read_kept;
use audit_waits::{PassedOver, first_passed_over};
use node_kit::Kept;
use std::alloc::Global;
use std::test::Fail;
use tiger_base::NoMemory;

// In slot 1 visit 0, which is disk 0's, is in the window in both beats.
const HEAD: &str = "tiger 1
plan 8 1 16 1000000 2 4 10000 2 4000 800000 200000 100000 3000000 4000000 20 50 1000000 3000000
beats 2
fixed 1
offsets 0 0 0 0 0 0 0 0 0
death 7 1 0 0
file 10 0
begin 0 0 0 3 0
";

const FOOT: &str = "digest 0000000000000000000000000000000000000000000000000000000000000000
end
";

// A line has what is to be found, the tick's cub and beat and the last entry's place, and then entries, each behind its node.
const CASES: &str = "none
0 0 0;0 got 0 0 0 2 0 0 3 0 0
none;0 got 0 0 0 2 0 0 3 0 0;0 put 0 0 0 0 1 0 2
0 0 0;0 got 0 0 0 2 0 0 3 0 0;0 put 1 10000 0 0 1 0 2
none;0 got 0 0 0 2 0 0 3 0 0;0 put 0 0 1 0 1 0 2
0 0 1;0 got 0 0 0 2 0 0 3 0 0;0 put 0 0 1 0 2 0 2
none;16 gone 0 0 0;0 got 1 10000 0 2 0 0 3 0 0
0 1 1;16 gone 0 0 1;0 got 1 10000 0 2 0 0 3 0 0
none;16 gone 0 0 1;0 got 1 10000 0 2 0 0 3 0 0;0 took 1 10000 1 0 1 0 2 0 0
0 1 3;16 gone 0 0 1;0 got 1 10000 0 2 0 0 3 0 0;0 took 1 10000 1 0 1 0 2 0 0;0 dropped 1 10000 1 0 1 0 2 0 0
0 1 2;16 gone 0 0 1;0 got 1 10000 0 2 0 0 3 0 0;0 took 1 10000 1 0 1 1 2 1 0
none;1 got 0 0 0 2 0 0 3 0 1
1 1 1;1 got 0 0 0 2 0 0 3 0 1;1 believed 1 10000 0
none;1 got 0 0 0 2 0 0 3 0 0;1 believed 0 0 0
none;0 got 0 0 0 2 1 0 3 0 0";

/// Whether an entry of a case is of a node, by the number before its first space.
fn is_of(entry: &[u8], node: &[u8]) -> bool {
    match entry.split(|b| *b == b' ').next() {
        Some(number) => number == node,
        None => false,
    }
}

/// Writes the entries of a node in a case, without the node's number.
fn write_node(text: &mut Vec<u8>, node: &[u8], case: &[u8]) -> Result<(), NoMemory> {
    for entry in case.split(|b| *b == b';').skip(1) {
        if is_of(entry, node) && entry.len() > node.len() {
            text.extend_from_slice(&entry[node.len() + 1..])?;
            text.push(b'\n')?;
        }
    }
    Ok(())
}

/// The text of the run of a case.
fn text_of(alloc: Global, case: &[u8]) -> Result<Vec<u8>, NoMemory> {
    let mut text = Vec::new(alloc);
    text.extend_from_slice(HEAD.as_bytes())?;
    for node in 0u32..18 {
        let number = format!(in alloc; "{node}")?;
        text.extend_from_slice(b"node ")?;
        text.extend_from_slice(number.as_bytes())?;
        text.push(b'\n')?;
        write_node(&mut text, number.as_bytes(), case)?;
    }
    text.extend_from_slice(FOOT.as_bytes())?;
    Ok(text)
}

/// What a tick is called in a case.
fn name_of(alloc: Global, found: Option<PassedOver>) -> Result<String, NoMemory> {
    match found {
        Some(
            PassedOver {
                cub,
                beat,
                place: Some(place),
            },
        ) => Ok(format!(in alloc; "{} {} {}", cub.0, beat, place)?),
        Some(_) => Ok(format!(in alloc; "nowhere")?),
        None => Ok(format!(in alloc; "none")?),
    }
}

/// What the walk finds of a run.
fn walk(alloc: Global, kept: &Kept) -> Result<String, NoMemory>
    requires { IsWritable kept.now }
{
    let lines = lines_of(alloc, kept)?;
    let found = first_passed_over(
        alloc,
        &kept.course,
        kept.orders.as_slice(),
        lines.as_slice(),
    )?;
    name_of(alloc, found)
}

/// Whether what the walk finds of the run of a case is what is to be found.
fn is_met(alloc: Global, case: &[u8]) -> Result<bool, NoMemory> {
    let text = text_of(alloc, case)?;
    let Ok(kept) = read_kept(alloc, text.as_slice()) else {
        return Ok(false);
    };
    let name = walk(alloc, &kept)?;
    Ok(case.split(|b| *b == b';').next() == Some(name.as_bytes()))
}

#[test]
fn the_first_tick_is_found(rt: HostRuntime) -> Result<(), Fail> {
    for case in CASES.as_bytes().split(|b| *b == b'\n') {
        let met = is_met(rt.alloc(), case)?;
        assert!(rt; met);
    }
    Ok(())
}
