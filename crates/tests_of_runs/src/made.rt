//! What is made of a number, beside what another program drew for it.

use scenario_make::{Made, make};
use std::alloc::{AllocError, Global};
use std::fmt::Write;
use std::process::Abort;
use std::test::Fail;
use tiger_base::FileNo;

/// Adds the clocks, the deaths, three events, the last read fault and the last file.
fn push_told(made: &Made, text: &mut String) -> Result<(), AllocError> {
    let course = &made.scenario.course;
    let events = &made.scenario.events;
    let bytes = made.library.file(FileNo(7)).unwrap_or(b"");
    let happens = (events.get(0), events.get(5), events.get(359));
    let rest = (course.faults.get(9), made.scenario.files.get(7));
    write!(
        text,
        "{:?}\n",
        (course.offsets.as_slice(), course.deaths.as_slice())
    )?;
    write!(
        text,
        "{happens:?}\n{rest:?}\n{:?}",
        (bytes.len(), bytes.last())
    )
}

/// What is told of what is made of a number.
fn told(alloc: Global, number: u64) -> Result<String, Fail> {
    let mut text = String::new(alloc);
    match make(alloc, number) {
        Ok(made) => push_told(&made, &mut text)?,
        Err(_) => text.push_str("no memory")?,
    }
    Ok(text)
}

fn assert_told(rt: &impl Abort, alloc: Global, number: u64, wanted: &str) -> Result<(), Fail> {
    let text = told(alloc, number)?;
    assert_eq!(rt; text.as_str(), wanted);
    Ok(())
}

#[test]
fn the_number_0_makes_what_is_drawn_for_it(rt: HostRuntime) -> Result<(), Fail> {
    let wanted =
        "([980, 3453, 2913, 1693, 2990, 1165, 1625, 3993, 1011, 3317, 821, 2112, 1043, 2434, 1008], [None, None, None, None, None, None, None, None, Some(3267), None, None, None, Some(1173), None])
(Some(Begin { beat: 5, file: FileNo(3) }), Some(Finish { beat: 34, instance: Instance(2) }), Some(Finish { beat: 1310, instance: Instance(54) }))
(Some(ReadFault { disk: DiskNo(14), from: 598, until: 712 }), Some(FileLine { name: Name(\"made7\"), disk: DiskNo(5) }))
(2039, Some(176))";
    assert_told(&rt, rt.alloc(), 0, wanted)
}
