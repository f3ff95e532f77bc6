//! Runs of small scenarios over files of a few bytes.
ghost use Rattle.std.specs.Prelude.{◌≡◌, ◌≤◌, length, All, IfOk};
ghost use Rattle.tiger_base.specs.Limits.{most_file};
ghost use Rattle.scenario_read.specs.Sound.{IsScenario};
ghost use Rattle.run_claims.specs.Accounts.{account_of};
ghost use Rattle.run_claims.specs.Claims.{MeetsClaims};

use crate::changes::{Change, change_journals};
use crate::told::{More, push_told};
use node_kit::{Gate, Kept, OpenGate};
use scenario_read::{Scenario, read_scenario};
use std::alloc::Global;
use std::process::Abort;
use std::sync::Wait;
use std::test::Fail;
use std::thread::Threads;
use tiger_base::{Library, MOST_FILE, Visit};
use tiger_run::run_ring;

/// Eight cubs with sixteen slots.
pub const SMALL: &str =
    "{\"plan\":{\"cubs\":8,\"disks\":1,\"slots\":16,\"play\":1000000,\"pieces\":2,\"block\":4,\"beat\":10000,\"delay\":2,\"skew\":4000,\"window_a\":800000,\"window_b\":200000,\"read_lead\":100000,\"min_lead\":3000000,\"max_lead\":4000000,\"batch\":20,\"heart\":50,\"deadman\":1000000,\"hold\":3000000},";

/// The same cubs with 800 slots, one in each beat, and with better clocks.
pub const FINE: &str =
    "{\"plan\":{\"cubs\":8,\"disks\":1,\"slots\":800,\"play\":1000000,\"pieces\":2,\"block\":4,\"beat\":10000,\"delay\":2,\"skew\":1000,\"window_a\":800000,\"window_b\":200000,\"read_lead\":100000,\"min_lead\":3000000,\"max_lead\":4000000,\"batch\":20,\"heart\":50,\"deadman\":1000000,\"hold\":3000000},";

/// The small plan with links of up to four beats, and with the least timeout that it then allows.
pub const SLOW: &str =
    "{\"plan\":{\"cubs\":8,\"disks\":1,\"slots\":16,\"play\":1000000,\"pieces\":2,\"block\":4,\"beat\":10000,\"delay\":4,\"skew\":4000,\"window_a\":800000,\"window_b\":200000,\"read_lead\":100000,\"min_lead\":3000000,\"max_lead\":4000000,\"batch\":20,\"heart\":50,\"deadman\":544000,\"hold\":3000000},";

/// One file, whose first block is on disk 0.
pub const ONE: &str = r#""files":[{"name":"one","disk":0}],"#;

/// 256 bytes.
pub const LONG: &[u8] = &[b'a'; 256];

/// What runs have in common: how their texts begin, with their plan and their files, which bytes the first file and
/// the second one have, if there is a second one, and how many workers there are; then, of how many instances and
/// visits the fates are told, and what more.
#[derive(Clone, Copy)]
pub struct Setting<'a> {
    pub plan: &'a str,
    pub files: &'a str,
    pub first: &'a [u8],
    pub second: &'a [u8],
    pub workers: u32,
    pub instances: u32,
    pub visits: Visit,
    pub more: More,
}

/// A library of one file.
pub fn one(alloc: Global, file: &[u8]) -> Result<Library, Fail>
    ensures count { IfOk result (λ l. length l ≡ 1) }
    ensures filled { IfOk result (λ l. All (λ bytes. 1 ≤ length bytes) l) }
    ensures short { IfOk result (λ l. All (λ bytes. length bytes ≤ most_file) l) }
{
    if file.is_empty() || file.len() as u64 > MOST_FILE {
        return Err(Fail::new("no file has this size"));
    }
    let mut files = Vec::new(alloc);
    files.push(file.to_vec(alloc)?)?;
    Ok(Library::new(files))
}

/// A library of two files.
pub fn two(alloc: Global, first: &[u8], second: &[u8]) -> Result<Library, Fail>
    ensures count { IfOk result (λ l. length l ≡ 2) }
    ensures filled { IfOk result (λ l. All (λ bytes. 1 ≤ length bytes) l) }
    ensures short { IfOk result (λ l. All (λ bytes. length bytes ≤ most_file) l) }
{
    if first.is_empty() || first.len() as u64 > MOST_FILE {
        return Err(Fail::new("no file has this size"));
    }
    if second.is_empty() || second.len() as u64 > MOST_FILE {
        return Err(Fail::new("no file has this size"));
    }
    let mut files = Vec::new(alloc);
    files.push(first.to_vec(alloc)?)?;
    files.push(second.to_vec(alloc)?)?;
    Ok(Library::new(files))
}

/// The scenario of a setting with the rest of its text, if it has so many files.
pub fn scenario_of(
    alloc: Global,
    setting: &Setting<'_>,
    rest: &str,
    count: usize,
) -> Result<Scenario, Fail>
    ensures sound { IfOk result IsScenario }
    ensures count { IfOk result (λ s. length s.files ≡ count) }
{
    let text = format!(in alloc; "{}{}{rest}}}", setting.plan, setting.files)?;
    let scenario = read_scenario(alloc, text.as_str().as_bytes())?;
    if scenario.files.len() != count {
        return Err(Fail::new("another number of files"));
    }
    Ok(scenario)
}

/// Adds what is told of a run, once its journals are changed. Whatever its scenario holds, it meets all claims.
fn push_changed(
    alloc: Global,
    k: &mut Kept,
    setting: &Setting<'_>,
    change: Change,
    told: &mut String,
) -> Result<(), Fail>
    requires claims { MeetsClaims (account_of k.old) }
{
    change_journals(alloc, change, k)?;
    push_told(
        alloc,
        k,
        setting.instances,
        setting.visits,
        setting.more,
        told,
    )
}

/// Runs a scenario over a library, each read of which passes the gate, and adds what is told of it.
fn run_over<R: Threads + Wait + Sync, G: Gate + Sync>(
    rt: &R,
    alloc: Global,
    setting: &Setting<'_>,
    rest: &str,
    library: &Library,
    count: usize,
    gate: &G,
    change: Change,
    told: &mut String,
) -> Result<(), Fail>
    requires count { length library.now ≡ count }
    requires filled { All (λ bytes. 1 ≤ length bytes) library.now }
    requires short { All (λ bytes. length bytes ≤ most_file) library.now }
{
    let workers = setting.workers;
    if workers == 0 || workers > 64 {
        return Err(Fail::new("no such number of workers"));
    }
    let scenario = scenario_of(alloc, setting, rest, count)?;
    let mut k = run_ring(rt, alloc, scenario, library, gate, workers)?;
    push_changed(alloc, &mut k, setting, change, told)
}

/// The same over the files of the setting.
pub fn run<R: Threads + Wait + Sync, G: Gate + Sync>(
    rt: &R,
    alloc: Global,
    setting: &Setting<'_>,
    rest: &str,
    gate: &G,
    change: Change,
    told: &mut String,
) -> Result<(), Fail> {
    if setting.second.is_empty() {
        let library = one(alloc, setting.first)?;
        run_over(rt, alloc, setting, rest, &library, 1, gate, change, told)
    } else {
        let library = two(alloc, setting.first, setting.second)?;
        run_over(rt, alloc, setting, rest, &library, 2, gate, change, told)
    }
}

/// What is told of a run whose journals are changed.
fn told_of<R: Threads + Wait + Sync>(
    rt: &R,
    alloc: Global,
    setting: &Setting<'_>,
    rest: &str,
    change: Change,
) -> Result<String, Fail> {
    let mut told = String::new(alloc);
    run(rt, alloc, setting, rest, &OpenGate, change, &mut told)?;
    Ok(told)
}

/// Runs a scenario, changes what was kept of it, and asserts what is told of that.
pub fn assert_changed<R: Abort + Threads + Wait + Sync>(
    rt: &R,
    alloc: Global,
    setting: &Setting<'_>,
    rest: &str,
    change: Change,
    want: &str,
) -> Result<(), Fail> {
    let told = told_of(rt, alloc, setting, rest, change)?;
    assert_eq!(rt; told.as_str(), want);
    Ok(())
}

/// The same of a run whose journals are not changed.
pub fn assert_told<R: Abort + Threads + Wait + Sync>(
    rt: &R,
    alloc: Global,
    setting: &Setting<'_>,
    rest: &str,
    want: &str,
) -> Result<(), Fail> {
    assert_changed(rt, alloc, setting, rest, Change::Same, want)
}
