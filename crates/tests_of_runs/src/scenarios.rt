//! Texts of scenarios: what they say, and which rule a broken one breaks first, as another program answers it.
ghost use Rattle.scenario_read.specs.Sound.{IsScenario};
ghost use Rattle.scenario_read.specs.Orders.{HasDisks};

use crate::runs::two;
use scenario_read::{ReadStop, Scenario, catalogue_of, orders_of, read_scenario};
use std::alloc::{AllocError, Global};
use std::fmt::Write;
use std::process::Abort;
use std::test::Fail;
use stripe_layout::Catalogue;
use tiger_base::NoMemory;

const BASE: &str =
    r#"{"plan":{"cubs":21,"disks":2,"slots":42,"play":1000000,"pieces":2,"block":4,"beat":10000,"delay":2,"skew":4000,"window_a":800000,"window_b":200000,"read_lead":100000,"min_lead":3000000,"max_lead":4000000,"batch":20,"heart":50,"deadman":1000000,"hold":3000000},"beats":600,"links":{"fixed":1},"files":[{"name":"ten","disk":0},{"name":"two","disk":41}],"events":[{"beat":0,"start":0},{"beat":7,"start":1},{"beat":7,"stop":0}],"deaths":[{"cub":3,"beat":70,"back":72},{"cub":20,"beat":599,"after":1000}],"read_faults":[{"disk":41,"from":3,"until":600}]}"#;

// Each row is a refusal, as its rule, item, left and right, a part of the base text, and what stands in its place.
const ROWS: &str = r#"(1, 0, 0, 0) | {"plan": | "plan":
(1, 0, 0, 0) | "beats":600 | "beats":6e999
(1, 0, 0, 0) | "ten" | "te\ud800"
(2, 0, 0, 0) | "beats":600, | 
(2, 0, 0, 0) | "deaths": | "dead":
(3, 3, 0, 0) | "slots":42, | 
(3, 1, 0, 0) | "cubs":21 | "cubs":2
(3, 6, 0, 0) | "block":4 | "block":4.0
(3, 9, 0, 0) | "skew":4000 | "skew":-1
(3, 18, 0, 0) | "hold":3000000 | "hold":1000000001
(3, 19, 0, 0) | "hold":3000000 | "hold":3000000,"held":1
(3, 9, 0, 0) | "skew":4000 | "skew":true,"held":1
(3, 0, 0, 0) | "beats":600 | "plan":7,"beats":600
(4, 1, 800000, 800000) | "window_b":200000 | "window_b":800000
(4, 2, 814000, 813999) | "play":1000000 | "play":813999
(4, 12, 2004000, 2003999) | "hold":3000000 | "hold":2003999
(5, 0, 0, 0) | "beats":600 | "beats":0
(4, 7, 21000001, 21000000) | "max_lead":4000000 | "max_lead":17000001
(5, 0, 0, 0) | "beats":600 | "beats":"600"
(5, 0, 2000019, 2000000) | "beats":600 | "beats":95239
(6, 0, 0, 0) | "links":{"fixed":1} | "links":{"fixed":3}
(6, 0, 0, 0) | "links":{"fixed":1} | "links":{"fixed":1,"drawn":1}
(6, 0, 0, 0) | "links":{"fixed":1} | "links":{"drawn":-7}
(6, 0, 0, 0) | "links":{"fixed":1} | "links":{}
(7, 22, 0, 0) | "links":{"fixed":1} | "links":{"fixed":1},"offsets":7
(7, 22, 0, 0) | "links":{"fixed":1} | "links":{"fixed":1},"offsets":[4001]
(7, 21, 0, 0) | "links":{"fixed":1} | "links":{"fixed":1},"offsets":[0,1,2,3,4,5,6,7,8,9,10,11,12,13,14,15,16,17,18,19,20,4001]
(7, 5, 0, 0) | "links":{"fixed":1} | "links":{"fixed":1},"offsets":[0,1,2,3,4,4001,6,7,8,9,10,11,12,13,14,15,16,17,18,19,20,4000]
(8, 64, 0, 0) | [{"name":"ten","disk":0},{"name":"two","disk":41}] | []
(8, 1, 0, 0) | "disk":41}] | "disk":42}]
(8, 0, 0, 0) | "ten" | ""
(8, 0, 0, 0) | "ten" | "xxxxxxxxxxxxxxxxxxxxxxxxxxxxxxxxxxxxxxxxxxxxxxxxxxxxxxxxxxxxxxxxxxxxxxxxxxxxxxxxxxxxxxxxxxxxxxxxxxxxxxxxxxxxxxxxxxxxxxxxxxxxxxxxxxxxxxxxxxxxxxxxxxxxxxxxxxxxxxxxxxxxxxxxxxxxxxxxxxxxxxxxxxxxxxxxxxxxxxxxx"
(8, 1, 0, 0) | "two","disk":41 | "two","disk":41,"at":1
(9, 4000, 0, 0) | "events":[{"beat":0,"start":0},{"beat":7,"start":1},{"beat":7,"stop":0}] | "events":{}
(9, 0, 0, 0) | "start":0 | "start":2
(9, 2, 0, 0) | "beat":7,"stop":0 | "beat":6,"stop":0
(9, 2, 0, 0) | "beat":7,"stop":0 | "beat":7,"stop":2
(9, 2, 0, 0) | "beat":7,"stop":0 | "beat":600,"stop":0
(9, 2, 0, 0) | "beat":7,"stop":0 | "beat":7,"stop":0,"start":0
(11, 0, 0, 0) | [{"cub":3, | [{"cub":21,
(11, 1, 0, 0) | "cub":20,"beat":599 | "cub":3,"beat":599
(11, 1, 0, 0) | "cub":20,"beat":599 | "cub":4,"beat":599
(11, 1, 0, 0) | "cub":3 | "cub":0
(11, 1, 0, 0) | "cub":20,"beat":599 | "cub":20,"beat":600
(11, 1, 0, 0) | "after":1000 | "after":1001
(11, 1, 0, 0) | "after":1000 | "after":null
(11, 1, 0, 0) | "after":1000 | "after":1000,"back":601
(11, 0, 0, 0) | "back":72 | "back":71
(11, 0, 0, 0) | "back":72 | "back":600
(11, 0, 0, 0) | "back":72 | "back":"72"
(11, 0, 0, 0) | "back":72 | "back":72,"until":73
(11, 1, 0, 0) | "beat":599,"after":1000 | "after":599
(11, 0, 0, 0) | "cub":3,"beat":70 | "cub":3,"beat":70,"after":-1
(11, 32, 0, 0) | "deaths":[ | "deaths":[0,0,0,0,0,0,0,0,0,0,0,0,0,0,0,0,0,0,0,0,0,0,0,0,0,0,0,0,0,0,0,
(11, 0, 0, 0) | "deaths":[ | "deaths":[0,0,0,0,0,0,0,0,0,0,0,0,0,0,0,0,0,0,0,0,0,0,0,0,0,0,0,0,0,0,
(12, 0, 0, 0) | "from":3,"until":600 | "from":3,"until":601
(12, 0, 0, 0) | "from":3,"until":600 | "from":600,"until":600
(12, 1000, 0, 0) | "read_faults":[{"disk":41,"from":3,"until":600}] | "read_faults":7
(12, 0, 0, 0) | "disk":41,"from" | "disk":42,"from"
(12, 0, 0, 0) | "disk":41,"from":3 | "from":3"#;

/// How much is said of a scenario.
#[derive(Clone, Copy)]
enum Extent {
    /// Its parts.
    Parts,
    /// How many events it has.
    Events,
}

/// Adds what a scenario says.
fn push_said(scenario: &Scenario, extent: Extent, answer: &mut String) -> Result<(), AllocError> {
    let course = &scenario.course;
    let events = scenario.events.as_slice();
    match extent {
        Extent::Events => write!(answer, "{} events", events.len()),
        Extent::Parts => {
            let befalls = (
                course.deaths.as_slice(),
                course.cuts.as_slice(),
                course.backs.as_slice(),
                course.faults.as_slice(),
            );
            let clocks = (course.beats, course.delay, course.offsets.as_slice());
            write!(
                answer,
                "{clocks:?}\n{befalls:?}\n{:?}",
                (scenario.files.as_slice(), events)
            )
        }
    }
}

/// Adds what is said of a text: the broken rule with its numbers, or what the scenario says.
fn push_answer(
    alloc: Global,
    text: &str,
    extent: Extent,
    answer: &mut String,
) -> Result<(), AllocError> {
    match read_scenario(alloc, text.as_bytes()) {
        Ok(scenario) => push_said(&scenario, extent, answer),
        Err(ReadStop::Fault(f)) => write!(answer, "{:?}", (f.rule, f.item, f.left, f.right)),
        Err(ReadStop::NoMemory) => answer.push_str("no memory"),
    }
}

/// The answer to the base text, if a row's change of it is made.
fn answer_to(alloc: Global, old: &str, new: &str) -> Result<String, AllocError> {
    let text = BASE.replacen(alloc, old, new, 1)?;
    let mut answer = String::new(alloc);
    push_answer(alloc, text.as_str(), Extent::Parts, &mut answer)?;
    Ok(answer)
}

/// Whether a row's change of the base text is answered as the row says.
fn is_answered(alloc: Global, row: &str) -> Option<bool> {
    let (want, change) = row.split_once(" | ")?;
    let (old, new) = change.split_once(" | ")?;
    let answer = answer_to(alloc, old, new).ok()?;
    Some(answer.as_str() == want)
}

fn assert_answered(rt: &impl Abort, alloc: Global, rows: &str) {
    for row in rows.lines() {
        assert!(rt; is_answered(alloc, row) == Some(true), "{row}");
    }
}

#[test]
fn the_first_broken_rule_is_named(rt: HostRuntime) {
    assert_answered(&rt, rt.alloc(), ROWS);
}

const SAYS: &str =
    r#"(600, Fixed(1), [0, 0, 0, 0, 0, 0, 0, 0, 0, 0, 0, 0, 0, 0, 0, 0, 0, 0, 0, 0, 0, 0])
([None, None, None, Some(70), None, None, None, None, None, None, None, None, None, None, None, None, None, None, None, None, Some(599)], [None, None, None, None, None, None, None, None, None, None, None, None, None, None, None, None, None, None, None, None, Some(1000)], [None, None, None, Some(72), None, None, None, None, None, None, None, None, None, None, None, None, None, None, None, None, None], [ReadFault { disk: DiskNo(41), from: 3, until: 600 }])
([FileLine { name: Name("ten"), disk: DiskNo(0) }, FileLine { name: Name("two"), disk: DiskNo(41) }], [Begin { beat: 0, file: FileNo(0) }, Begin { beat: 7, file: FileNo(1) }, Finish { beat: 7, instance: Instance(0) }])"#;

#[test]
fn a_scenario_says_its_parts(rt: HostRuntime) -> Result<(), Fail> {
    let answer = answer_to(rt.alloc(), "", "")?;
    assert_eq!(rt; answer.as_str(), SAYS);
    Ok(())
}

/// The base text around its number of beats, up to its events.
fn around_beats() -> Option<(&'static str, &'static str)> {
    let (before, rest) = BASE.split_once("600,")?;
    let (behind, _) = rest.split_once(r#"{"beat""#)?;
    Some((before, behind))
}

/// The text of a run of so many beats with so many starts.
fn text_of_starts(alloc: Global, beats: &str, starts: u32) -> Result<String, AllocError> {
    let (before, behind) = around_beats().unwrap_or(("", ""));
    let mut text = format!(in alloc; "{before}{beats},{behind}")?;
    for _ in 1..starts {
        text.push_str(r#"{"beat":0,"start":0},"#)?;
    }
    text.push_str(r#"{"beat":0,"start":0}]}"#)?;
    Ok(text)
}

/// What is said of a run of so many beats with so many starts: the broken rule, or how many events there are.
fn answer_to_starts(alloc: Global, beats: &str, starts: u32) -> Result<String, AllocError> {
    let text = text_of_starts(alloc, beats, starts)?;
    let mut answer = String::new(alloc);
    push_answer(alloc, text.as_str(), Extent::Events, &mut answer)?;
    Ok(answer)
}

fn assert_starts(
    rt: &impl Abort,
    alloc: Global,
    beats: &str,
    starts: u32,
    want: &str,
) -> Result<(), Fail> {
    let answer = answer_to_starts(alloc, beats, starts)?;
    assert_eq!(rt; answer.as_str(), want);
    Ok(())
}

#[test]
fn there_are_not_too_many_starts(rt: HostRuntime) -> Result<(), Fail> {
    let alloc = rt.alloc();
    assert_starts(&rt, alloc, "95238", 419, "419 events")?;
    assert_starts(&rt, alloc, "95238", 420, "(10, 0, 400260, 400000)")?;
    assert_starts(&rt, alloc, "600", 2000, "2000 events")?;
    assert_starts(&rt, alloc, "600", 2001, "(9, 2000, 0, 0)")?;
    assert_starts(&rt, alloc, "600", 4001, "(9, 4000, 0, 0)")
}

/// Adds the catalogue and the orders of a scenario.
fn push_orders(
    alloc: Global,
    scenario: &Scenario,
    catalogue: &Catalogue,
    text: &mut String,
) -> Result<(), NoMemory>
    requires sound { IsScenario scenario.now }
    requires disks { HasDisks scenario.now catalogue.now }
{
    let orders = orders_of(alloc, scenario, catalogue)?;
    let files = (catalogue.files.as_slice(), catalogue.block, catalogue.disks);
    Ok(write!(text, "{files:?}\n{:?}", orders.as_slice())?)
}

/// Adds the catalogue and the orders of a scenario over the files of ten and of two bytes.
fn push_given(alloc: Global, scenario: &Scenario, text: &mut String) -> Result<(), Fail>
    requires { IsScenario scenario.now }
{
    let library = two(alloc, b"1234567890", b"12")?;
    if scenario.files.len() != 2 {
        return Err(Fail::new("other files"));
    }
    let catalogue = catalogue_of(alloc, scenario, &library)?;
    Ok(push_orders(alloc, scenario, &catalogue, text)?)
}

/// The catalogue and the orders of the base text.
fn orders_in(alloc: Global) -> Result<String, Fail> {
    let mut text = String::new(alloc);
    match read_scenario(alloc, BASE.as_bytes()) {
        Ok(scenario) => push_given(alloc, &scenario, &mut text)?,
        Err(_) => text.push_str("not read")?,
    }
    Ok(text)
}

const ORDERS: &str =
    "([FileInfo { len: 10, disk: DiskNo(0) }, FileInfo { len: 2, disk: DiskNo(41) }], 4, 42)
[Order { beat: 0, what: Begin(Ask { instance: Instance(0), file: FileNo(0), count: 3, disk: DiskNo(0) }) }, Order { beat: 7, what: Begin(Ask { instance: Instance(1), file: FileNo(1), count: 1, disk: DiskNo(41) }) }, Order { beat: 7, what: Finish(Instance(0)) }]";

#[test]
fn the_events_are_orders(rt: HostRuntime) -> Result<(), Fail> {
    let orders = orders_in(rt.alloc())?;
    assert_eq!(rt; orders.as_str(), ORDERS);
    Ok(())
}
