//! Images in real files, each test with one of its own: new ones, ones that exist, and ones that are cut short.

use file_device::FileDevice;
use file_disk::{Device, DeviceFault, OpenFault};
use std::fs;
use std::io::Write;
use std::test::Fail;

#[test]
fn what_was_written_is_read(rt: HostRuntime) -> Result<(), Fail> {
    let mut dev = FileDevice::new(&rt);
    dev.open("written-image", false)?;
    dev.write_at(0, b"1234")?;
    dev.write_at(6, b"78")?;
    dev.write_at(1, b"x")?;
    let mut room = [9u8; 8];
    dev.read_at(0, &mut room)?;
    assert_eq!(rt; room.as_slice(), b"1x34\0\078".as_slice());
    let whole = fs::read(&rt, "written-image")?;
    assert_eq!(rt; whole.as_slice(), b"1x34\0\078".as_slice());
    Ok(())
}

#[test]
fn an_image_that_exists_is_left_alone(rt: HostRuntime) -> Result<(), Fail> {
    let mut there = fs::create(&rt, "left-image")?;
    there.write_all(b"1234567890")?;
    let mut dev = FileDevice::new(&rt);
    assert_eq!(rt; dev.open("left-image", false), Err(OpenFault::Exists));
    let kept = fs::read(&rt, "left-image")?;
    assert_eq!(rt; kept.as_slice(), b"1234567890".as_slice());
    dev.open("left-image", true)?;
    dev.write_at(0, b"ab")?;
    let over = fs::read(&rt, "left-image")?;
    assert_eq!(rt; over.as_slice(), b"ab".as_slice());
    Ok(())
}

#[test]
fn what_cannot_be_done_has_failed(rt: HostRuntime) -> Result<(), Fail> {
    let mut dev = FileDevice::new(&rt);
    let mut room = [0u8; 4];
    assert_eq!(rt; dev.write_at(0, b"1"), Err(DeviceFault::Failed));
    assert_eq!(rt; dev.read_at(0, &mut room), Err(DeviceFault::Failed));
    assert_eq!(rt; dev.open("no/folder/image", false), Err(OpenFault::Failed));
    assert_eq!(rt; dev.open(".", true), Err(OpenFault::Failed));
    dev.open("short-image", false)?;
    dev.write_at(0, b"123")?;
    assert_eq!(rt; dev.read_at(0, &mut room), Err(DeviceFault::Failed));
    Ok(())
}
