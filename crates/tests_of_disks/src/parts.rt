//! The disks of a file of ten bytes on a device, whole, spoilt, and with calls that fail.
ghost use Rattle.std.specs.Prelude.{◌≡◌, ◌^◌, ◌≤◌, ◌∷◌, [], true, All, IfOk, length, map};

use disk_image::DiskImage;
use file_disk::{Directory, Extent, FetchFault, MemDevice, StoreFault, fetch, store};
use std::alloc::{AllocError, Global};
use std::fmt::Write;
use std::test::Fail;
use stripe_layout::{Catalogue, FileInfo};
use tiger_base::{DiskNo, FileNo, Library, NoMemory, Sequence};

/// A library of one file, if it has so many bytes.
fn library_of(alloc: Global, file: Vec<u8>, len: usize) -> Result<Library, NoMemory>
    ensures { IfOk result (λ library. map (λ bytes. length bytes) library ≡ len ∷ []) }
{
    if file.len() != len {
        return Err(NoMemory);
    }
    let mut files = Vec::new(alloc);
    files.push(file)?;
    Ok(Library::new(files))
}

/// The layout of one file from disk 0 on.
fn layout(alloc: Global, len: u64, block: u64, disks: u32) -> Result<Catalogue, NoMemory>
    requires some { 1 ≤ len }
    requires few { len ≤ 100 }
    requires some_bytes { 1 ≤ block }
    requires few_bytes { block ≤ 40 }
    requires some_disks { 1 ≤ disks }
    requires few_disks { disks ≤ 8 }
    ensures lengths { IfOk result (λ c. map (λ info. info.len) c.files ≡ len ∷ []) }
    ensures short { IfOk result (λ c. All (λ info. info.len ≤ 2 ^ 24) c.files) }
{
    let mut files = Vec::new(alloc);
    files.push(FileInfo {
        len,
        disk: DiskNo(0),
    })?;
    Ok(Catalogue {
        files: Sequence::new(files),
        block,
        disks,
    })
}

/// Whether so few calls have failed and reads were answered that there may be more.
fn goes_on(dev: &MemDevice) -> bool
    ensures faults { result ≡ true → dev.now.faults ≤ 1000000 }
    ensures reads { result ≡ true → dev.now.reads ≤ 1000000 }
{
    dev.faults() <= 1000000 && dev.reads() <= 1000000
}

/// A disk of eight, which have the file `1234567890` in blocks of four bytes, each of which is cut
/// into two pieces, on a device from place 0 on.
fn stored(alloc: Global, disk: u32, dev: &mut MemDevice) -> Result<Directory, StoreFault> {
    let library = library_of(alloc, b"1234567890".to_vec(alloc)?, 10)?;
    let catalogue = layout(alloc, 10, 4, 8)?;
    let image = DiskImage::build(alloc, &library, &catalogue, 2, DiskNo(disk))?;
    if !goes_on(dev) {
        return Err(StoreFault::NoMemory);
    }
    store(alloc, &image, &catalogue, DiskNo(disk), 0, dev)
}

/// The one disk of a file of a hundred bytes in blocks of forty, each of which is cut into three
/// pieces: two hundred bytes.
fn stored_hundred(alloc: Global, dev: &mut MemDevice) -> Result<Directory, StoreFault> {
    let mut file = Vec::new(alloc);
    for byte in 0..100 {
        file.push(byte)?;
    }
    let library = library_of(alloc, file, 100)?;
    let catalogue = layout(alloc, 100, 40, 1)?;
    let image = DiskImage::build(alloc, &library, &catalogue, 3, DiskNo(0))?;
    if !goes_on(dev) {
        return Err(StoreFault::NoMemory);
    }
    store(alloc, &image, &catalogue, DiskNo(0), 0, dev)
}

/// Adds to a text what a fetch of a part of the file answers.
fn push_fetched(
    alloc: Global,
    dir: &Directory,
    block: u64,
    piece: u32,
    dev: &mut MemDevice,
    text: &mut String,
) -> Result<(), AllocError> {
    if !goes_on(dev) {
        return Ok(());
    }
    match fetch(alloc, dir, FileNo(0), block, piece, dev) {
        Ok(Some(bytes)) => push_bytes(bytes.as_slice(), text),
        Ok(None) => text.push_str("none; "),
        Err(FetchFault::Failed) => text.push_str("failed; "),
        Err(FetchFault::Damaged { at, .. }) => write!(text, "damaged at {at}; "),
        Err(FetchFault::NoMemory) => text.push_str("no memory; "),
    }
}

fn push_bytes(bytes: &[u8], text: &mut String) -> Result<(), AllocError> {
    for byte in bytes {
        text.push(char::from(*byte))?;
    }
    text.push_str("; ")
}

/// Whether bytes stand at a place.
fn stand_at(told: &[u8], at: u64, bytes: &[u8]) -> bool {
    at <= told.len() as u64 && told[at as usize..].starts_with(bytes)
}

/// Whether a fetch says that a part is damaged; `None` if it gives neither that nor the part.
fn is_damaged(
    alloc: Global,
    dir: &Directory,
    extent: Extent,
    told: &[u8],
    dev: &mut MemDevice,
) -> Option<bool> {
    if !goes_on(dev) {
        return None;
    }
    let name = extent.name;
    match fetch(alloc, dir, name.file, name.block, name.piece, dev) {
        Ok(Some(bytes)) if stand_at(told, extent.at, bytes.as_slice()) => Some(false),
        Err(FetchFault::Damaged { at, .. }) if at == extent.at => Some(true),
        _ => None,
    }
}

/// How many parts are damaged, the others being as they were told; `None` if one is neither.
fn count_damaged(
    alloc: Global,
    dir: &Directory,
    told: &[u8],
    dev: &mut MemDevice,
) -> Option<usize> {
    let mut count = 0usize;
    for extent in dir.extents() {
        if is_damaged(alloc, dir, *extent, told, dev)? {
            count = count.saturating_add(1);
        }
    }
    Some(count)
}

#[test]
fn each_byte_is_spoilt_in_turn(rt: HostRuntime) -> Result<(), Fail> {
    let alloc = rt.alloc();
    let mut dev = MemDevice::new(alloc);
    let dir = stored_hundred(alloc, &mut dev)?;
    let told = dev.bytes().to_vec(alloc)?;
    assert_eq!(rt; told.len(), 200);
    assert!(rt; count_damaged(alloc, &dir, told.as_slice(), &mut dev) == Some(0));
    let mut at = 0u64;
    for byte in told.as_slice() {
        dev.spoil(at, 255 - *byte);
        assert!(rt; count_damaged(alloc, &dir, told.as_slice(), &mut dev) == Some(1));
        dev.spoil(at, *byte);
        at = at.saturating_add(1);
    }
    Ok(())
}

#[test]
fn each_disk_has_its_parts_and_bytes(rt: HostRuntime) -> Result<(), Fail> {
    let mut text = String::new(rt.alloc());
    for disk in 0..8 {
        let mut dev = MemDevice::new(rt.alloc());
        let dir = stored(rt.alloc(), disk, &mut dev)?;
        write!(text, "{} {}; ", dir.extents().len(), dir.bytes())?;
        push_bytes(dev.bytes(), &mut text)?;
    }
    assert_eq!(rt;
        text.as_str(),
        "1 4; 1234; 2 6; 567812; 3 6; 903456; 2 3; 789; 1 1; 0; 0 0; ; 0 0; ; 0 0; ; "
    );
    Ok(())
}

#[test]
fn a_part_is_given_or_its_damage_told(rt: HostRuntime) -> Result<(), Fail> {
    let alloc = rt.alloc();
    let mut text = String::new(alloc);
    let mut dev = MemDevice::new(alloc);
    let dir = stored(alloc, 0, &mut dev)?;
    push_fetched(alloc, &dir, 0, 0, &mut dev, &mut text)?;
    push_fetched(alloc, &dir, 1, 0, &mut dev, &mut text)?;
    dev.spoil(1, b'x');
    push_fetched(alloc, &dir, 0, 0, &mut dev, &mut text)?;
    dev.fail_reads();
    push_fetched(alloc, &dir, 0, 0, &mut dev, &mut text)?;
    write!(text, "{} reads, {} faults", dev.reads(), dev.faults())?;
    assert_eq!(rt;
        text.as_str(),
        "1234; none; damaged at 0; failed; 3 reads, 1 faults"
    );
    Ok(())
}

/// Adds to a text what becomes of storing disk 2 and fetching its parts if one call fails.
fn push_failing(alloc: Global, call: u64, text: &mut String) -> Result<(), NoMemory> {
    let mut dev = MemDevice::new(alloc);
    dev.fail_at(call)?;
    match stored(alloc, 2, &mut dev) {
        Ok(dir) => {
            push_fetched(alloc, &dir, 2, 0, &mut dev, text)?;
            push_fetched(alloc, &dir, 0, 2, &mut dev, text)?;
            push_fetched(alloc, &dir, 1, 1, &mut dev, text)?;
        }
        Err(StoreFault::Failed) => text.push_str("not stored; ")?,
        Err(StoreFault::NoMemory) => text.push_str("no memory; ")?,
    }
    Ok(())
}

#[test]
fn each_call_fails_in_turn(rt: HostRuntime) -> Result<(), Fail> {
    let mut text = String::new(rt.alloc());
    for call in 0..7 {
        push_failing(rt.alloc(), call, &mut text)?;
    }
    assert_eq!(rt;
        text.as_str(),
        "not stored; not stored; not stored; failed; 34; 56; 90; failed; 56; 90; 34; failed; \
         90; 34; 56; "
    );
    Ok(())
}
