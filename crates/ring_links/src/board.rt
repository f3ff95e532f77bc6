//! The word of a link, and its rule: one seat alone writes it, and what another seat read is a prefix of what was
//! written.
use atomic_table::{Join, Play, Seat, Split, Table, TableRule};
use std::alloc::Global;
use std::collections::LinkedList;

/// A word is the number of messages sent before it, times this, and the beat below which all are closed.
pub const SPAN: u64 = 1 << 20;

// Whether a seat may write, the words that it knows to have been written, and those that it was told of.
// No value of it is made.
pub struct Knows {
    pub writes: bool,
    pub marks: LinkedList<u64>,
    pub told: LinkedList<u64>,
}

pub struct OneWriter;

impl TableRule<u8, Knows, ()> for OneWriter {
    ghost use Rattle.std.specs.Prelude.{true, [], ◌∷◌};
    ghost use Rattle.ring_links.specs.Marked.{knows, Marked};

    ghost holds = { λ _ s. Marked s };

    ghost first = { λ _. knows true (0 ∷ []) [] };
}

pub struct Shown;

impl Split<Knows> for Shown {
    ghost use Rattle.std.specs.Prelude.{false, []};
    ghost use Rattle.ring_links.specs.Marked.{knows};

    ghost left = { λ v. v };

    ghost right = { λ v. knows false v.marks [] };
}

impl Join<Knows> for Shown {
    ghost use Rattle.std.specs.Prelude.{false, []};
    ghost use Rattle.ring_links.specs.Marked.{knows};

    ghost both = { λ v w. knows v.writes v.marks w.marks };

    ghost spent = { knows false [] [] };
}

pub struct Marks;

impl Play<u8, Knows> for Marks {
    ghost use Rattle.ring_links.specs.Marked.{Marks};

    ghost then = { Marks };
}

pub struct Looks;

impl Play<u8, Knows> for Looks {
    ghost use Rattle.ring_links.specs.Marked.{Looks};

    ghost then = { Looks };
}

pub struct Agrees;

impl Play<u8, Knows> for Agrees {
    ghost use Rattle.ring_links.specs.Marked.{Agrees};

    ghost then = { Agrees };
}

pub type Board = Table<u8, Knows, (), OneWriter, Global>;

pub type Stand = Seat<u8, Knows>;
