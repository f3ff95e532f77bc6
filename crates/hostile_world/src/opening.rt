//! The library of a world: what its files say plays no part, so each has the same bytes.
ghost use Rattle.std.specs.Prelude.{◌≡◌, ◌≤◌, All, IfOk, length, vec_len};

use std::alloc::Global;
use tiger_base::{Library, NoMemory};

/// The bytes of a file.
const FILE_BYTES: usize = 64;

/// A library of so many files, none of which is empty.
pub fn library_of(alloc: Global, count: usize) -> Result<Library, NoMemory>
    requires { count ≤ 64 }
    ensures count { IfOk result (λ library. length library ≡ count) }
    ensures filled { IfOk result (λ library. All (λ bytes. 1 ≤ length bytes) library) }
{
    let mut files = Vec::new(alloc);
    for _file in 0..count {
        files.push(file(alloc)?)?;
    }
    Ok(Library::new(files))
}

fn file(alloc: Global) -> Result<Vec<u8>, NoMemory>
    ensures { IfOk result (λ bytes. 1 ≤ vec_len bytes) }
{
    Ok(vec![in alloc; b'a'; FILE_BYTES]?)
}
