//! Reading the scenario and its files.
ghost use Rattle.std.specs.Prelude.{◌≡◌, ◌==◌, ◌+◌, ◌≤◌, All, None, length, IfOk, IfErr, vec_len};
ghost use Rattle.std.specs.List.{position};
ghost use Rattle.tiger_base.specs.Library.{contents};
ghost use Rattle.tiger_base.specs.Limits.{most_file};
ghost use Rattle.outside.specs.Told.{AreTold, NeverFell, most_calls};
ghost use Rattle.scenario_read.specs.Sound.{IsScenario};
ghost use Rattle.tiger_input.specs.Inputs.{most_named, most_reads, most_earlier};
ghost use Rattle.scenario_read.specs.Fault.{broken};
ghost use Rattle.tiger_input.specs.Inputs.{first_empty, names_of, AreFiles, AreRead, AreInputs, MadeCalls};
ghost use Rattle.tiger_input.specs.Inputs.{OneCause, FilesCause, LibraryCause, InputsCause};

use crate::status::Status;
use outside::{FileFault, Files};
use scenario_read::{FileLine, ReadStop, Scenario, ScenarioFault, read_scenario};
use std::alloc::Global;
use tiger_base::{FileNo, Library, MOST_FILE};

/// A scenario and its files.
#[derive(Drop)]
pub struct Inputs {
    pub scenario: Scenario,
    pub library: Library,
}

/// The most bytes of a scenario.
const MOST_SCENARIO: u64 = 4194304;

/// The most bytes of all files together.
const MOST_FILES: u64 = 67108864;

/// The rule that no file is empty.
const EMPTY_FILE: u32 = 13;

/// One file; what stops the reading names it.
pub fn read_one<F: Files>(
    alloc: Global,
    files: &mut F,
    file: Option<FileNo>,
    name: &str,
    most: u64,
) -> Result<Vec<u8>, Status>
    requires { (F.state files.old).counts.calls ≤ most_calls }
    ensures same { (F.state files.new).told ≡ (F.state files.old).told }
    ensures counted { MadeCalls 1 (F.state files.old) (F.state files.new) }
    ensures never_fell { NeverFell (F.state files.old).counts (F.state files.new).counts }
    ensures read { IfOk result (λ v. AreTold ((F.state files.old).told name.now) v.items) }
    ensures limit { IfOk result (λ v. length v.items ≤ most) }
    ensures cause { let old = F.state files.old in
        IfErr result (OneCause file name.now most old (F.state files.new)) }
{
    match files.read_whole(alloc, name, most) {
        Ok(bytes) => Ok(bytes),
        Err(FileFault::Failed) => Err(Status::ReadFault { file }),
        Err(FileFault::Absent) => Err(Status::Absent { file }),
        Err(FileFault::TooLong { given }) => Err(Status::TooLong { file, given, most }),
        Err(FileFault::NoMemory) => Err(Status::NoMemory),
    }
}

/// The files, in order.
pub fn read_files<F: Files>(
    alloc: Global,
    files: &mut F,
    lines: &[FileLine],
) -> Result<Vec<Vec<u8>>, Status>
    requires few { length lines.now ≤ most_named }
    requires calls { (F.state files.old).counts.calls ≤ most_earlier + 1 }
    ensures same { (F.state files.new).told ≡ (F.state files.old).told }
    ensures counted { let old = F.state files.old in
        IfOk result (λ _. MadeCalls (length lines.now) old (F.state files.new)) }
    ensures few_calls { let old = F.state files.old in
        (F.state files.new).counts.calls ≤ old.counts.calls + length lines.now }
    ensures never_fell { NeverFell (F.state files.old).counts (F.state files.new).counts }
    ensures read { let told = (F.state files.old).told in
        IfOk result (λ v. AreRead told (names_of lines.now) (contents v.items)) }
    ensures all { IfOk result (λ v. vec_len v ≡ length lines.now) }
    ensures cause { let old = F.state files.old in
        IfErr result (FilesCause (names_of lines.now) old (F.state files.new)) }
{
    let mut read = Vec::new(alloc);
    let mut left = MOST_FILES;
    for line in lines {
        let most = left.min(MOST_FILE);
        let file = Some(FileNo(read.len() as u32));
        let bytes = read_one(alloc, files, file, line.name.as_str(), most)?;
        left -= bytes.len() as u64;
        read.push(bytes)?;
    }
    Ok(read)
}

/// The least file that has no bytes.
fn first_empty(read: &[Vec<u8>]) -> Option<usize>
    ensures { result ≡ position (λ v. vec_len v == 0) read.now }
{
    read.iter().position(|bytes| bytes.is_empty())
}

/// The files of a scenario, none of which is empty.
pub fn read_library<F: Files>(
    alloc: Global,
    files: &mut F,
    scenario: &Scenario,
) -> Result<Library, Status>
    requires sound { IsScenario scenario.now }
    requires calls { (F.state files.old).counts.calls ≤ most_earlier + 1 }
    ensures same { (F.state files.new).told ≡ (F.state files.old).told }
    ensures counted { let count = length scenario.now.files in
        IfOk result (λ _. MadeCalls count (F.state files.old) (F.state files.new)) }
    ensures few_calls { let old = F.state files.old in
        (F.state files.new).counts.calls ≤ old.counts.calls + length scenario.now.files }
    ensures never_fell { NeverFell (F.state files.old).counts (F.state files.new).counts }
    ensures read { let told = (F.state files.old).told in
        IfOk result (AreFiles told (names_of scenario.now.files)) }
    ensures full { IfOk result (λ library. first_empty library ≡ None) }
    ensures files { IfOk result (λ library. length library ≡ length scenario.now.files) }
    ensures filled { IfOk result (All (λ bytes. 1 ≤ length bytes)) }
    ensures short { IfOk result (All (λ bytes. length bytes ≤ most_file)) }
    ensures cause { let old = F.state files.old in
        IfErr result (LibraryCause scenario.now.files old (F.state files.new)) }
{
    let read = read_files(alloc, files, scenario.files.as_slice())?;
    match first_empty(read.as_slice()) {
        Some(file) => Err(broken(EMPTY_FILE, file as u32)),
        None => Ok(Library::new(read)),
    }
}

/// The refusal of a scenario by a rule that names no numbers.
pub fn broken(rule: u32, item: u32) -> Status
    ensures { result ≡ Status.Scenario (broken rule item) }
{
    Status::Scenario(ScenarioFault {
        rule,
        item,
        left: 0,
        right: 0,
    })
}

/// The scenario of this name, and then its files.
pub fn read_inputs<F: Files>(alloc: Global, files: &mut F, name: &str) -> Result<Inputs, Status>
    requires { (F.state files.old).counts.calls ≤ most_earlier }
    ensures same { (F.state files.new).told ≡ (F.state files.old).told }
    ensures counted { IfOk result (λ inputs.
        MadeCalls (1 + length inputs.scenario.files) (F.state files.old) (F.state files.new)) }
    ensures few_calls { let old = F.state files.old in
        (F.state files.new).counts.calls ≤ old.counts.calls + most_reads }
    ensures never_fell { NeverFell (F.state files.old).counts (F.state files.new).counts }
    ensures read { IfOk result (AreInputs (F.state files.old).told name.now) }
    ensures sound { IfOk result (λ inputs. IsScenario inputs.scenario) }
    ensures files { IfOk result (λ inputs. length inputs.library ≡ length inputs.scenario.files) }
    ensures filled { IfOk result (λ inputs. All (λ bytes. 1 ≤ length bytes) inputs.library) }
    ensures short { IfOk result (λ inputs. All (λ bytes. length bytes ≤ most_file) inputs.library) }
    ensures cause { IfErr result (InputsCause name.now (F.state files.old) (F.state files.new)) }
{
    let bytes = read_one(alloc, files, None, name, MOST_SCENARIO)?;
    let scenario = match read_scenario(alloc, bytes.as_slice()) {
        Ok(scenario) => scenario,
        Err(ReadStop::Fault(fault)) => return Err(Status::Scenario(fault)),
        Err(ReadStop::NoMemory) => return Err(Status::NoMemory),
    };
    let library = read_library(alloc, files, &scenario)?;
    Ok(Inputs { scenario, library })
}
