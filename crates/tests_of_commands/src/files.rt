//! What is read, kept and counted, at real files and in memory.

use outside::{DirFiles, FileFault, Files, MemFiles, MemSink, Sink, SinkFault, StdSink};
use std::fs;
use std::io::Write;
use std::test::Fail;

#[test]
fn real_files_are_read_missed_or_too_long(rt: HostRuntime) -> Result<(), Fail> {
    let mut ten = fs::create(&rt, "ten")?;
    ten.write_all(b"1234567890")?;
    let mut files = DirFiles::new(&rt);
    let whole = files.read_whole(rt.alloc(), "ten", 10)?;
    assert_eq!(rt; whole.as_slice(), b"1234567890".as_slice());
    let no_file = files.read_whole(rt.alloc(), "eleven", 10);
    assert!(rt; matches!(no_file, Err(FileFault::Absent)));
    let too_long = files.read_whole(rt.alloc(), "ten", 8);
    assert!(rt; matches!(too_long, Err(FileFault::TooLong { given: 9 })));
    let folder = files.read_whole(rt.alloc(), ".", 8);
    assert!(rt; matches!(folder, Err(FileFault::Failed)));
    Ok(())
}

#[test]
fn standard_output_takes_a_piece(rt: HostRuntime) -> Result<(), Fail> {
    let mut out = StdSink::new(&rt);
    out.put(b"one line\n")?;
    Ok(())
}

#[test]
fn files_in_memory_fail_where_they_are_made_to(rt: HostRuntime) -> Result<(), Fail> {
    let alloc = rt.alloc();
    let mut files = MemFiles::new(alloc);
    files.put("ten", b"0".to_vec(alloc)?)?;
    files.put("ten", b"1234567890".to_vec(alloc)?)?;
    files.fail_at(1)?;
    let first = files.read_whole(alloc, "ten", 10)?;
    assert_eq!(rt; first.as_slice(), b"1234567890".as_slice());
    let second = files.read_whole(alloc, "ten", 10);
    assert!(rt; matches!(second, Err(FileFault::Failed)));
    let third = files.read_whole(alloc, "eleven", 10);
    assert!(rt; matches!(third, Err(FileFault::Absent)));
    let fourth = files.read_whole(alloc, "ten", 9);
    assert!(rt; matches!(fourth, Err(FileFault::TooLong { given: 10 })));
    Ok(())
}

#[test]
fn a_sink_in_memory_keeps_a_front_of_a_put_that_fails(rt: HostRuntime) -> Result<(), Fail> {
    let mut out = MemSink::new(rt.alloc());
    out.fail_at(1, 5)?;
    out.put(b"start 0\n")?;
    assert_eq!(rt; out.put(b"block 0\n"), Err(SinkFault::Failed));
    assert_eq!(rt; out.bytes(), b"start 0\nblock".as_slice());
    Ok(())
}
