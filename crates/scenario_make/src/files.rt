//! The files of a made scenario.
ghost use Rattle.std.specs.Prelude.{◌≡◌, ◌<◌, ◌≤◌, IfOk, OnOk};
ghost use Rattle.scenario_make.specs.Draws.{after};
ghost use Rattle.scenario_make.specs.Files.{length_by, line_by, bytes_of, lines_by, contents_by};

use crate::draws::draw;
use rand_pcg::Lcg64Xsh32;
use scenario_read::{FileLine, Name};
use std::alloc::Global;
use tiger_base::{DiskNo, Library, NoMemory, Sequence};

const FILES: u64 = 8;

/// The files' lines and their bytes.
#[derive(Drop)]
pub struct DrawnFiles {
    pub lines: Sequence<FileLine>,
    pub library: Library,
}

/// One file's line and its bytes.
#[derive(Drop)]
struct DrawnFile {
    line: FileLine,
    bytes: Vec<u8>,
}

/// Draws the files.
pub fn files(alloc: Global, generator: &mut Lcg64Xsh32) -> Result<DrawnFiles, NoMemory>
    ensures lines { IfOk result (λ files. files.lines ≡ lines_by generator.old 8) }
    ensures library { IfOk result (λ files. files.library ≡ contents_by generator.old 8) }
    ensures after { OnOk result (generator.new ≡ after 24 generator.old) }
{
    let mut lines = Vec::new(alloc);
    let mut contents = Vec::new(alloc);
    for file in 0..FILES {
        let drawn = drawn_file(alloc, generator, file)?;
        lines.push(drawn.line)?;
        contents.push(drawn.bytes)?;
    }
    Ok(DrawnFiles {
        lines: Sequence::new(lines),
        library: Library::new(contents),
    })
}

fn drawn_file(alloc: Global, generator: &mut Lcg64Xsh32, file: u64) -> Result<DrawnFile, NoMemory>
    requires { file < 8 }
    ensures line { IfOk result (λ drawn. drawn.line ≡ line_by generator.old file) }
    ensures bytes { IfOk result (λ drawn. drawn.bytes.items ≡ bytes_of file (length_by generator.old)) }
    ensures after { OnOk result (generator.new ≡ after 3 generator.old) }
{
    let blocks = draw(generator, 40);
    let lacking = draw(generator, 64);
    let disk = draw(generator, 56);
    let name = format!(in alloc; "made{file}")?;
    let len = 64 * (20 + blocks) - lacking;
    let bytes = bytes_of(alloc, file, len as u32)?;
    Ok(DrawnFile {
        line: FileLine {
            name: Name(name),
            disk: DiskNo(disk as u32),
        },
        bytes,
    })
}

/// So many bytes of a file.
#[tactic(auto, unfolding(crate::specs::Files::bytes_of))]
fn bytes_of(alloc: Global, file: u64, len: u32) -> Result<Vec<u8>, NoMemory>
    requires { file < 8 }
    ensures { IfOk result (λ bytes. bytes.items ≡ bytes_of file len) }
{
    let bytes = (0..len)
        .map(|at| ((31 * file + 7 * (at as u64)) % 251) as u8)
        .collect(alloc)?;
    Ok(bytes)
}
