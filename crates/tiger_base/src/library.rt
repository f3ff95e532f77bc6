//! The library: the bytes of every file.
ghost use Rattle.std.specs.Prelude.{◌≡◌, ◌^◌, ◌<◌, slice_get, vec_len};
ghost use Rattle.std.specs.Option.{option_copied};
ghost use Rattle.tiger_base.specs.Library.{contents};

use crate::number::FileNo;
use std::marker::Model;

/// The files by number, seen as the list of their bytes.
#[derive(Drop)]
pub struct Library {
    files: Vec<Vec<u8>>,
}

impl Model for Library {
    ghost use Rattle.std.specs.Prelude.{◌^◌, ◌<◌, List, ℕ, length};
    ghost use Rattle.tiger_base.specs.Library.{contents};

    ghost Value = { List (List ℕ) };

    ghost view = { λ l. contents l.files.items };

    ghost invariant = { λ l. length l.files.items < 2 ^ 32 };
}

impl Library {
    /// A library of these files; the first has number 0.
    pub fn new(files: Vec<Vec<u8>>) -> Library
        requires { vec_len files < 2 ^ 32 }
        ensures { result ≡ contents files.items }
    {
        Library { files }
    }

    /// The bytes of a file; `None` exactly if there is no such file.
    pub fn file(&self, file: FileNo) -> Option<&[u8]>
        ensures { option_copied result ≡ slice_get self.now file.0 }
    {
        match self.files.get(file.0 as usize) {
            Some(bytes) => Some(bytes.as_slice()),
            None => None,
        }
    }
}
