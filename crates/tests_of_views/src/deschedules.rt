//! The deschedules that a cub holds.

use crate::records::assert_told;
use deschedule::Held;
use std::alloc::Global;
use std::fmt::Write;
use std::test::Fail;
use tiger_base::{Instance, Micros, NoMemory};

/// A call; an instance is given by its number.
#[derive(Clone, Copy)]
enum Call {
    /// Holds an instance until a reading.
    Hold(u32, Micros),
    /// Asks whether an instance is held.
    IsHeld(u32),
    /// Asks whether the deschedule of an instance is still to be passed on.
    MustPass(u32),
    /// Notes that it was passed on.
    SetPassed(u32),
    /// Releases what is held until a reading.
    Expire(Micros),
}

/// Makes a call, and adds its answer to a text.
fn make(held: &mut Held, call: Call, text: &mut String) -> Result<(), NoMemory> {
    match call {
        Call::Hold(instance, until) => {
            let is_new = held.hold(Instance(instance), until)?;
            write!(text, "{is_new}; ")?;
        }
        Call::IsHeld(instance) => write!(text, "{}; ", held.is_held(Instance(instance)))?,
        Call::MustPass(instance) => write!(text, "{}; ", held.must_pass(Instance(instance)))?,
        Call::SetPassed(instance) => write!(text, "{}; ", held.set_passed(Instance(instance)))?,
        Call::Expire(reading) => write!(text, "{}; ", held.expire(reading))?,
    }
    Ok(())
}

/// What calls answer if nothing is held before them.
fn answers(alloc: Global, calls: &[Call]) -> Result<String, NoMemory> {
    let mut held = Held::new(alloc);
    let mut text = String::new(alloc);
    for call in calls {
        make(&mut held, *call, &mut text)?;
    }
    Ok(text)
}

#[test]
fn an_instance_is_held_once_and_until_its_time(rt: HostRuntime) -> Result<(), Fail> {
    let calls = [
        Call::Hold(0, 3000000),
        Call::Hold(0, 9000000),
        Call::Hold(7, 5000000),
        Call::IsHeld(0),
        Call::IsHeld(1),
        Call::MustPass(0),
        Call::SetPassed(0),
        Call::MustPass(0),
        Call::MustPass(7),
        Call::SetPassed(1),
        Call::Expire(2999999),
        Call::Expire(3000000),
        Call::IsHeld(0),
        Call::IsHeld(7),
        Call::MustPass(0),
    ];
    assert_told(
        &rt,
        answers(rt.alloc(), &calls),
        "true; false; true; true; false; true; true; false; true; false; 0; 1; false; true; false; ",
    )
}

#[test]
fn each_is_released_at_its_own_time(rt: HostRuntime) -> Result<(), Fail> {
    let calls = [
        Call::Hold(0, 9000000),
        Call::Expire(2999999),
        Call::Hold(7, 3000000),
        Call::Hold(8, 5000000),
        Call::Expire(2999999),
        Call::Expire(3000000),
        Call::IsHeld(7),
        Call::Expire(4999999),
        Call::Expire(5000000),
        Call::IsHeld(8),
        Call::Expire(9000000),
        Call::IsHeld(0),
        Call::Hold(7, 4000000),
        Call::Expire(4000000),
        Call::IsHeld(7),
    ];
    assert_told(
        &rt,
        answers(rt.alloc(), &calls),
        "true; 0; true; true; 0; 1; false; 0; 1; false; 1; false; true; 1; false; ",
    )
}

#[test]
fn instances_with_high_numbers_are_held_too(rt: HostRuntime) -> Result<(), Fail> {
    let calls = [
        Call::Hold(4095, 3000000),
        Call::Hold(4096, 5000000),
        Call::Hold(4294967295, 9000000),
        Call::Hold(4095, 9000000),
        Call::Hold(4096, 9000000),
        Call::IsHeld(4094),
        Call::IsHeld(4097),
        Call::SetPassed(4095),
        Call::SetPassed(4096),
        Call::MustPass(4095),
        Call::MustPass(4096),
        Call::MustPass(4294967295),
        Call::Expire(3000000),
        Call::IsHeld(4095),
        Call::IsHeld(4096),
        Call::Hold(4095, 9000000),
        Call::MustPass(4095),
        Call::Expire(5000000),
        Call::IsHeld(4096),
        Call::IsHeld(4095),
    ];
    assert_told(
        &rt,
        answers(rt.alloc(), &calls),
        "true; true; true; false; false; false; false; true; true; false; false; true; 1; false; true; true; true; 1; false; true; ",
    )
}
