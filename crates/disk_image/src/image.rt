//! The image of a disk.
ghost use Rattle.std.specs.Prelude.{◌≡◌, ◌≤◌, IfOk};
ghost use Rattle.disk_image.specs.Image.{HasLengths, block_part, piece_part};
ghost use Rattle.disk_image.specs.Parts.{held_part};

use crate::span::piece_span;
use mirror_pieces::piece_disk;
use std::alloc::Global;
use std::marker::Model;
use stripe_layout::Catalogue;
use tiger_base::{DiskNo, FileNo, Library, NoMemory, Part, Sequence};

/// The blocks of one disk, and the pieces that it keeps of other disks' blocks. They are lent from
/// the library, and the layout tells at each read which bytes they are: so an image has no bytes of
/// its own. It is seen as the library, the layout, the number of pieces of a block, and the disk.
#[derive(Drop)]
pub struct DiskImage<'a> {
    library: &'a Library,
    catalogue: Catalogue,
    pieces: u32,
    disk: DiskNo,
}

impl<'a> Model for DiskImage<'a> {
    ghost use Rattle.disk_image.specs.Image.{Image};

    ghost Value = { Image };

    ghost use Rattle.disk_image.specs.Seen.{seen, IsLaidOut};

    ghost view = { seen };

    ghost invariant = { IsLaidOut };
}

impl<'a> DiskImage<'a> {
    /// What the disk has of a library with this layout, each block being cut into `pieces` pieces.
    pub fn build(
        alloc: Global,
        library: &'a Library,
        catalogue: &Catalogue,
        pieces: u32,
        disk: DiskNo,
    ) -> Result<DiskImage<'a>, NoMemory>
        requires lengths { HasLengths library.now catalogue.now }
        requires some { 1 ≤ pieces }
        requires few { pieces ≤ 8 }
        ensures { IfOk result (λ image. image ≡ record {
          library = library.now;
          catalogue = catalogue.now;
          pieces = pieces;
          disk = disk.0;
        }) }
    {
        Ok(DiskImage {
            library,
            catalogue: again(alloc, catalogue)?,
            pieces,
            disk,
        })
    }

    /// The block of a file, blocks being counted from 0; `None` exactly if it is not on this disk.
    pub fn read_block(&'a self, file: FileNo, block: u64) -> Option<Part<'a>>
        ensures { result ≡ block_part self.now file block }
    {
        self.read(file, block, 0)
    }

    /// Piece `k` of a block of a file, pieces being counted from 1; `None` exactly if that piece is
    /// not on this disk.
    pub fn read_piece(&'a self, file: FileNo, block: u64, k: u32) -> Option<Part<'a>>
        ensures { result ≡ piece_part self.now file block k }
    {
        if k == 0 || k > self.pieces {
            return None;
        }
        self.read(file, block, k)
    }

    /// Piece `k` of a block of a file, or the whole block if `k` is 0, if it is on this disk.
    fn read(&'a self, file: FileNo, block: u64, k: u32) -> Option<Part<'a>>
        requires { k ≤ self.now.pieces }
        ensures { result ≡ held_part self.now file block k }
    {
        let place = self.catalogue.place(file, block)?;
        if piece_disk(place.disk, k, self.catalogue.disks) != self.disk {
            return None;
        }
        let span = piece_span(place.span, self.pieces, k);
        // The library has each file of the catalogue, and each block lies in its file.
        Part::cut(self.library, span)
    }
}

/// The same catalogue once more.
fn again(alloc: Global, catalogue: &Catalogue) -> Result<Catalogue, NoMemory>
    ensures { IfOk result (λ copy. copy ≡ catalogue.now) }
{
    let files = catalogue.files.as_slice().to_vec(alloc)?;
    Ok(Catalogue {
        files: Sequence::new(files),
        block: catalogue.block,
        disks: catalogue.disks,
    })
}
