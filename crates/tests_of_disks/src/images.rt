//! What disks hold of a library of three small files.
ghost use Rattle.std.specs.Prelude.{◌≡◌, ◌≤◌, ◌∷◌, [], IfOk, length, map};

use disk_image::DiskImage;
use std::alloc::{AllocError, Global};
use std::fmt::Write;
use std::test::Fail;
use stripe_layout::{Catalogue, FileInfo};
use tiger_base::{DiskNo, FileNo, Library, NoMemory, Sequence};

/// A file of these bytes, if they are so many.
fn file_of(alloc: Global, bytes: &[u8], len: usize) -> Result<Vec<u8>, NoMemory>
    ensures { IfOk result (λ file. length file.items ≡ len) }
{
    let file = bytes.to_vec(alloc)?;
    if file.len() != len {
        return Err(NoMemory);
    }
    Ok(file)
}

/// A library of the files `1234567890`, `abc` and `z`.
fn three_files(alloc: Global) -> Result<Library, NoMemory>
    ensures { IfOk result (λ library. map (λ bytes. length bytes) library ≡ 10 ∷ 3 ∷ 1 ∷ []) }
{
    let mut files = Vec::new(alloc);
    files.push(file_of(alloc, b"1234567890".as_slice(), 10)?)?;
    files.push(file_of(alloc, b"abc".as_slice(), 3)?)?;
    files.push(file_of(alloc, b"z".as_slice(), 1)?)?;
    Ok(Library::new(files))
}

/// Its layout on eight disks, from the disks 0, 7 and 3 on, with blocks of so many bytes.
fn layout(alloc: Global, block: u64) -> Result<Catalogue, NoMemory>
    requires some { 1 ≤ block }
    requires few { block ≤ 4 }
    ensures { IfOk result (λ c. map (λ info. info.len) c.files ≡ 10 ∷ 3 ∷ 1 ∷ []) }
{
    let mut files = Vec::new(alloc);
    files.push(first_on(10, 0))?;
    files.push(first_on(3, 7))?;
    files.push(first_on(1, 3))?;
    Ok(Catalogue {
        files: Sequence::new(files),
        block,
        disks: 8,
    })
}

fn first_on(len: u64, disk: u32) -> FileInfo
    ensures { result.len ≡ len }
{
    FileInfo {
        len,
        disk: DiskNo(disk),
    }
}

/// Adds to a text a piece of a block, or for 0 the whole block, if it is held.
fn push_held<'a>(
    image: &'a DiskImage<'a>,
    file: u32,
    block: u64,
    k: u32,
    text: &mut String,
) -> Result<(), AllocError> {
    let part = if k == 0 {
        image.read_block(FileNo(file), block)
    } else {
        image.read_piece(FileNo(file), block, k)
    };
    if let Some(part) = part {
        write!(text, "{file}.{block}.{k} [")?;
        push_bytes(part.bytes(), text)?;
    }
    Ok(())
}

fn push_bytes(bytes: &[u8], text: &mut String) -> Result<(), AllocError> {
    for byte in bytes {
        text.push(char::from(*byte))?;
    }
    text.push_str("]; ")
}

/// All that an image has, as file, block, piece and bytes; it is also asked for files, blocks and
/// pieces that there are not.
fn all_of<'a>(alloc: Global, image: &'a DiskImage<'a>) -> Result<String, NoMemory> {
    let mut text = String::new(alloc);
    for file in 0..4 {
        for block in 0..11 {
            for k in 0..9 {
                push_held(image, file, block, k, &mut text)?;
            }
        }
    }
    Ok(text)
}

/// All that a disk has, the blocks having so many bytes, and being cut into so many pieces.
fn held(alloc: Global, block: u64, pieces: u32, disk: u32) -> Result<String, NoMemory>
    requires some_bytes { 1 ≤ block }
    requires few_bytes { block ≤ 4 }
    requires some_pieces { 1 ≤ pieces }
    requires few_pieces { pieces ≤ 8 }
{
    let library = three_files(alloc)?;
    let catalogue = layout(alloc, block)?;
    let image = DiskImage::build(alloc, &library, &catalogue, pieces, DiskNo(disk))?;
    all_of(alloc, &image)
}

#[test]
fn a_disk_has_its_blocks_and_its_pieces_alone(rt: HostRuntime) -> Result<(), Fail> {
    let text = held(rt.alloc(), 4, 2, 2)?;
    assert_eq!(rt; text.as_str(), "0.0.2 [34]; 0.1.1 [56]; 0.2.0 [90]; ");
    Ok(())
}

#[test]
fn the_last_block_of_a_file_and_its_pieces_may_be_short(rt: HostRuntime) -> Result<(), Fail> {
    let text = held(rt.alloc(), 4, 2, 3)?;
    assert_eq!(rt; text.as_str(), "0.1.2 [78]; 0.2.1 [9]; 2.0.0 [z]; ");
    let text = held(rt.alloc(), 4, 2, 4)?;
    assert_eq!(rt; text.as_str(), "0.2.2 [0]; 2.0.1 []; ");
    Ok(())
}

#[test]
fn a_disk_may_have_nothing(rt: HostRuntime) -> Result<(), Fail> {
    let text = held(rt.alloc(), 4, 2, 6)?;
    assert_eq!(rt; text.as_str(), "");
    Ok(())
}

#[test]
fn most_pieces_of_a_block_of_one_byte_are_empty(rt: HostRuntime) -> Result<(), Fail> {
    let text = held(rt.alloc(), 1, 6, 7)?;
    assert_eq!(rt;
        text.as_str(),
        "0.1.6 [2]; 0.2.5 []; 0.3.4 []; 0.4.3 []; 0.5.2 []; 0.6.1 []; 0.7.0 [8]; 0.9.6 [0]; \
         1.0.0 [a]; 1.2.6 [c]; 2.0.4 []; "
    );
    Ok(())
}

#[test]
fn a_disk_has_parts_of_several_files(rt: HostRuntime) -> Result<(), Fail> {
    let text = held(rt.alloc(), 2, 2, 1)?;
    assert_eq!(rt;
        text.as_str(),
        "0.0.1 [1]; 0.1.0 [34]; 1.0.2 [b]; 1.1.1 []; "
    );
    Ok(())
}
