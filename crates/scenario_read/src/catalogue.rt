//! The catalogue of a scenario's files.
ghost use Rattle.std.specs.Prelude.{◌≡◌, ◌≤◌, ◌<◌, ◌++◌, [], ◌∷◌, map, length, All, IfOk, slice_get};
ghost use Rattle.std.specs.Option.{option_copied};
ghost use Rattle.scenario_read.specs.Orders.{IsCatalogueOf, infos_of};
ghost use Rattle.scenario_read.specs.Sound.{IsScenario};

use crate::scenario::{FileLine, Scenario};
use std::alloc::Global;
use stripe_layout::{Catalogue, FileInfo};
use tiger_base::{FileNo, Library, NoMemory, Sequence};

/// The bytes of a file that is there.
fn bytes_of(library: &Library, file: usize) -> &[u8]
    requires there { file < length library.now }
    requires few { file < 64 }
    ensures { slice_get library.now file ≡ Some result.now }
{
    match library.file(FileNo(file as u32)) {
        Some(bytes) => bytes,
        None => unreachable!(),
    }
}

/// The length of each file in the library, with the disk of its first block.
fn infos_of(alloc: Global, lines: &[FileLine], library: &Library) -> Result<Vec<FileInfo>, NoMemory>
    requires files { length library.now ≡ length lines.now }
    requires few { length lines.now ≤ 64 }
    ensures { IfOk result (λ v. v.items ≡ infos_of lines.now library.now) }
{
    let mut infos = Vec::new(alloc);
    for (i, line) in lines.iter().enumerate() {
        infos.push(FileInfo {
            len: bytes_of(library, i).len() as u64,
            disk: line.disk,
        })?;
    }
    Ok(infos)
}

/// The catalogue of a scenario's files, whose bytes are the library's.
pub fn catalogue_of(
    alloc: Global,
    scenario: &Scenario,
    library: &Library,
) -> Result<Catalogue, NoMemory>
    requires scenario { IsScenario scenario.now }
    requires files { length library.now ≡ length scenario.now.files }
    requires filled { All (λ bytes. 1 ≤ length bytes) library.now }
    ensures { IfOk result (IsCatalogueOf scenario.now library.now) }
{
    let params = &scenario.course.plan.params;
    let infos = infos_of(alloc, scenario.files.as_slice(), library)?;
    Ok(Catalogue {
        files: Sequence::new(infos),
        block: params.block,
        disks: (params.cubs * params.disks) as u32,
    })
}
