//! How many parts all disks of a layout have.
ghost use Rattle.std.specs.Prelude.{◌≡◌, ◌<◌, ◌≤◌, ◌^◌, ◌*◌, All, length};
ghost use Rattle.tiger_base.specs.Limits.{most_file};
ghost use Rattle.stripe_layout.specs.Places.{block_count};
ghost use Rattle.stored_disks.specs.Disks.{blocks_before, part_count};

use stripe_layout::Catalogue;
use tiger_base::FileNo;

/// How many blocks a file has.
fn block_count(cat: &Catalogue, file: usize) -> u64
    requires file { file < 64 }
    requires short { All (λ info. info.len ≤ most_file) cat.now.files }
    ensures value { result ≡ block_count cat.now file }
    ensures few { result ≤ 2 ^ 25 }
{
    cat.block_count(FileNo(file as u32))
}

/// How many blocks all files have.
fn block_sum(cat: &Catalogue) -> u64
    requires few_files { length cat.now.files ≤ 64 }
    requires short { All (λ info. info.len ≤ most_file) cat.now.files }
    ensures value { result ≡ blocks_before cat.now (length cat.now.files) }
    ensures few { result ≤ 64 * 2 ^ 25 }
{
    let mut blocks = 0u64;
    for file in 0..cat.files.len() {
        blocks += block_count(cat, file);
    }
    blocks
}

/// How many parts all disks have, if each block is cut into so many pieces: each block stands once
/// whole, and each of its pieces once.
pub fn part_count(cat: &Catalogue, pieces: u32) -> u64
    requires few_files { length cat.now.files ≤ 64 }
    requires short { All (λ info. info.len ≤ most_file) cat.now.files }
    requires few_pieces { pieces ≤ 8 }
    ensures { result ≡ part_count cat.now pieces }
{
    block_sum(cat) * (1 + u64::from(pieces))
}
