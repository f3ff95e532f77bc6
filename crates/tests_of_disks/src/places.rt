//! The blocks of a file of ten bytes, if a full block has four.

use std::test::Fail;
use stripe_layout::{Catalogue, FileInfo, Place};
use tiger_base::{DiskNo, FileNo, Sequence, Span};

#[test]
fn ten_bytes_have_three_blocks(rt: HostRuntime) -> Result<(), Fail> {
    let mut files = Vec::new(rt.alloc());
    files.push(FileInfo {
        len: 10,
        disk: DiskNo(0),
    })?;
    let catalogue = Catalogue {
        files: Sequence::new(files),
        block: 4,
        disks: 8,
    };
    assert_eq!(rt; catalogue.block_count(FileNo(0)), 3);
    assert_eq!(rt; catalogue.block_count(FileNo(1)), 0);
    let last = Place {
        disk: DiskNo(2),
        span: Span {
            file: FileNo(0),
            from: 8,
            len: 2,
        },
    };
    assert_eq!(rt; catalogue.place(FileNo(0), 2), Some(last));
    assert_eq!(rt; catalogue.place(FileNo(0), 3), None);
    assert_eq!(rt; catalogue.place(FileNo(1), 0), None);
    Ok(())
}
