//! Who holds a slot, and what the machines tell one another of it.
ghost use Rattle.std.specs.Prelude.{◌≡◌, ◌≤◌};
ghost use Rattle.tiger_base.specs.Kinds.{is_own};
ghost use Rattle.tiger_base.specs.Records.{own_of, backup_of, want_of, want_of_piece};

use crate::number::{DiskNo, FileNo, Instance, SlotNo, Visit};

/// A viewer's hold on a slot, from its first visit to its last: the block of visit n is n - first.
///
/// It is plain data: a tenancy whose last visit lies below its first can be written down, and a
/// message that names one is not in form.
#[derive(Clone, Copy, Debug, PartialEq, Eq)]
pub struct Tenancy {
    pub instance: Instance,
    pub file: FileNo,
    pub slot: SlotNo,
    pub first: Visit,
    pub last: Visit,
}

/// A viewer state: the tenancy, and the visit that its receivers are to care for.
#[derive(Clone, Copy, Debug, PartialEq, Eq)]
pub struct State {
    pub tenancy: Tenancy,
    pub visit: Visit,
}

/// A mirror viewer state: one piece of the block of a visit, counted from 1.
#[derive(Clone, Copy, Debug, PartialEq, Eq)]
pub struct PieceState {
    pub tenancy: Tenancy,
    pub visit: Visit,
    pub piece: u32,
}

/// Whether a cub has a record because the visit is its own, or in case its predecessor is dead.
#[derive(Clone, Copy, Debug, PartialEq, Eq)]
pub enum Kind {
    Own,
    Backup,
}

impl Kind {
    /// Whether the cub has the record because the visit is its own.
    pub fn is_own(self) -> bool
        ensures { result ≡ is_own self }
    {
        match self {
            Kind::Own => true,
            Kind::Backup => false,
        }
    }
}

/// What a cub's view holds of a visit.
#[derive(Clone, Copy, Debug, PartialEq, Eq)]
pub struct Rec {
    pub tenancy: Tenancy,
    pub visit: Visit,
    pub kind: Kind,
}

impl Rec {
    /// The own record of a visit of the tenancy.
    pub fn own(tenancy: Tenancy, visit: Visit) -> Rec
        ensures { result ≡ own_of tenancy visit }
    {
        Rec {
            tenancy,
            visit,
            kind: Kind::Own,
        }
    }

    /// The backup record of a visit of the tenancy.
    pub fn backup(tenancy: Tenancy, visit: Visit) -> Rec
        ensures { result ≡ backup_of tenancy visit }
    {
        Rec {
            tenancy,
            visit,
            kind: Kind::Backup,
        }
    }
}

/// A start: the file's number of blocks, and the disk that has its first block.
#[derive(Clone, Copy, Debug, PartialEq, Eq)]
pub struct Ask {
    pub instance: Instance,
    pub file: FileNo,
    pub count: u64,
    pub disk: DiskNo,
}

/// Where a deschedule stands in the schedule.
#[derive(Clone, Copy, Debug, PartialEq, Eq)]
pub struct Tag {
    pub slot: SlotNo,
    pub visit: Visit,
}

/// What is asked of a disk, and for whom: piece 0 is the whole block.
#[derive(Clone, Copy, Debug, PartialEq, Eq)]
pub struct Want {
    // The two long fields stand first, since a gap on either side of them would be kept in each entry of a journal.
    pub visit: Visit,
    pub block: u64,
    pub instance: Instance,
    pub slot: SlotNo,
    pub file: FileNo,
    pub piece: u32,
}

impl Want {
    /// The block of a record's visit.
    pub fn of_block(rec: &Rec) -> Want
        requires { rec.now.tenancy.first ≤ rec.now.visit }
        ensures { result ≡ want_of rec.now }
    {
        Want {
            visit: rec.visit,
            block: rec.visit - rec.tenancy.first,
            instance: rec.tenancy.instance,
            slot: rec.tenancy.slot,
            file: rec.tenancy.file,
            piece: 0,
        }
    }

    /// The piece of a piece record.
    pub fn of_piece(piece: &PieceState) -> Want
        requires { piece.now.tenancy.first ≤ piece.now.visit }
        ensures { result ≡ want_of_piece piece.now }
    {
        Want {
            visit: piece.visit,
            block: piece.visit - piece.tenancy.first,
            instance: piece.tenancy.instance,
            slot: piece.tenancy.slot,
            file: piece.tenancy.file,
            piece: piece.piece,
        }
    }
}
