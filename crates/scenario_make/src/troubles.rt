//! What goes amiss in a made scenario.
ghost use Rattle.std.specs.Prelude.{◌≡◌, IfOk, OnOk};
ghost use Rattle.scenario_make.specs.Draws.{after};
ghost use Rattle.scenario_make.specs.Troubles.{offsets_by, deaths_by, two_deaths, death_among, fault_by, faults_by};

use crate::draws::draw;
use node_kit::ReadFault;
use rand_pcg::Lcg64Xsh32;
use std::alloc::Global;
use tiger_base::{Beat, DiskNo, Micros, NoMemory, Sequence};

/// The number of cubs of a made scenario.
pub const CUBS: u64 = 14;

const CLOCKS: u64 = CUBS + 1;

const FAULTS: u64 = 10;

/// Draws how far the clock of each cub, and of the controller last, is ahead.
pub fn offsets(alloc: Global, generator: &mut Lcg64Xsh32) -> Result<Sequence<Micros>, NoMemory>
    ensures offsets { IfOk result (λ offsets. offsets ≡ offsets_by generator.old 15) }
    ensures after { OnOk result (generator.new ≡ after 15 generator.old) }
{
    let mut offsets = Vec::new(alloc);
    for clock in 0..CLOCKS {
        offsets.push(draw(generator, 4001))?;
    }
    Ok(Sequence::new(offsets))
}

/// Draws the deaths of two cubs.
pub fn deaths(alloc: Global, generator: &mut Lcg64Xsh32) -> Result<Sequence<Option<Beat>>, NoMemory>
    ensures deaths { IfOk result (λ deaths. deaths ≡ deaths_by generator.old) }
    ensures after { OnOk result (generator.new ≡ after 4 generator.old) }
{
    let first = draw(generator, CUBS);
    let early = draw(generator, 1000);
    let distance = draw(generator, CUBS - 3);
    let late = draw(generator, 1000);
    two_deaths(
        alloc,
        CUBS,
        (first, 1000 + early),
        ((first + 2 + distance) % CUBS, 2500 + late),
    )
}

/// When each of so many cubs dies, where only two do.
fn two_deaths(
    alloc: Global,
    cubs: u64,
    first: (u64, Beat),
    second: (u64, Beat),
) -> Result<Sequence<Option<Beat>>, NoMemory>
    ensures { IfOk result (λ deaths. deaths ≡ two_deaths first second cubs) }
{
    let mut deaths = Vec::new(alloc);
    for cub in 0..cubs {
        deaths.push(death_among(first, second, cub))?;
    }
    Ok(Sequence::new(deaths))
}

fn death_among(first: (u64, Beat), second: (u64, Beat), cub: u64) -> Option<Beat>
    ensures { result ≡ death_among first second cub }
{
    if cub == first.0 {
        Some(first.1)
    } else if cub == second.0 {
        Some(second.1)
    } else {
        None
    }
}

/// Draws the read faults.
pub fn faults(alloc: Global, generator: &mut Lcg64Xsh32) -> Result<Sequence<ReadFault>, NoMemory>
    ensures faults { IfOk result (λ faults. faults ≡ faults_by generator.old 10) }
    ensures after { OnOk result (generator.new ≡ after 30 generator.old) }
{
    let mut faults = Vec::new(alloc);
    for fault in 0..FAULTS {
        faults.push(drawn_fault(generator))?;
    }
    Ok(Sequence::new(faults))
}

fn drawn_fault(generator: &mut Lcg64Xsh32) -> ReadFault
    ensures fault { result ≡ fault_by generator.old }
    ensures after { generator.new ≡ after 3 generator.old }
{
    let disk = draw(generator, 56);
    let from = draw(generator, 5000);
    let more = draw(generator, 200);
    ReadFault {
        disk: DiskNo(disk as u32),
        from,
        until: from + 1 + more,
    }
}
