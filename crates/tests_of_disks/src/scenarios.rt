//! The disks of a scenario's file in an image, once, again, and once more over it.
ghost use Rattle.std.specs.Prelude.{◌≡◌, ◌≤◌, ◌∷◌, [], true, IfOk, length, map};
ghost use Rattle.scenario_read.specs.Sound.{IsScenario};

use file_disk::MemDevice;
use scenario_disks::{DisksStop, keep_disks};
use scenario_read::{Scenario, read_scenario};
use std::alloc::Global;
use std::fmt::Write;
use std::test::Fail;
use tiger_base::{Library, NoMemory};

/// A scenario of one file from disk 0 of eight on, in blocks of four bytes.
const ONE: &[u8] =
    br#"{"plan":{"cubs":8,"disks":1,"slots":16,"play":1000000,"pieces":2,"block":4,"beat":10000,"delay":2,"skew":4000,"window_a":800000,"window_b":200000,"read_lead":100000,"min_lead":3000000,"max_lead":4000000,"batch":20,"heart":50,"deadman":1000000,"hold":3000000},"beats":600,"links":{"fixed":1},"files":[{"name":"ten","disk":0}],"events":[{"beat":0,"start":0}]}"#;

/// A library of the file `1234567890`.
fn library(alloc: Global) -> Result<Library, NoMemory>
    ensures { IfOk result (λ library. map (λ bytes. length bytes) library ≡ 10 ∷ []) }
{
    let file = b"1234567890".to_vec(alloc)?;
    if file.len() != 10 {
        return Err(NoMemory);
    }
    let mut files = Vec::new(alloc);
    files.push(file)?;
    Ok(Library::new(files))
}

/// Whether so few calls have failed, reads were answered and images refused that there may be more.
fn goes_on(dev: &MemDevice) -> bool
    ensures faults { result ≡ true → dev.now.faults ≤ 1000000 }
    ensures reads { result ≡ true → dev.now.reads ≤ 1000000 }
    ensures refusals { result ≡ true → dev.now.refusals ≤ 1000000 }
{
    dev.faults() <= 1000000 && dev.reads() <= 1000000 && dev.refusals() <= 1000000
}

/// Adds to a text how it ends to keep the disks.
fn push_end(
    alloc: Global,
    scenario: &Scenario,
    over: bool,
    dev: &mut MemDevice,
    text: &mut String,
) -> Result<(), NoMemory>
    requires { IsScenario scenario.now }
{
    let library = library(alloc)?;
    if scenario.files.len() != 1 || !goes_on(dev) {
        return Err(NoMemory);
    }
    match keep_disks(alloc, scenario, &library, "image", over, dev) {
        Ok(lines) => write!(text, "{} bytes; ", lines.len())?,
        Err(DisksStop::Exists) => text.push_str("exists; ")?,
        Err(DisksStop::Device) => text.push_str("device; ")?,
        Err(_) => text.push_str("other; ")?,
    }
    Ok(())
}

#[test]
fn an_image_is_kept_until_it_is_written_over(rt: HostRuntime) -> Result<(), Fail> {
    let alloc = rt.alloc();
    let Ok(scenario) = read_scenario(alloc, ONE) else {
        return Err("no scenario".into());
    };
    let mut dev = MemDevice::new(alloc);
    let mut text = String::new(alloc);
    push_end(alloc, &scenario, false, &mut dev, &mut text)?;
    push_end(alloc, &scenario, false, &mut dev, &mut text)?;
    push_end(alloc, &scenario, true, &mut dev, &mut text)?;
    write!(text, "{} reads", dev.reads())?;
    assert_eq!(rt; text.as_str(), "184 bytes; exists; 184 bytes; 18 reads");
    Ok(())
}
