//! The numbers of the messages that a node gets, in each of its lives.
ghost use Rattle.std.specs.Prelude.{◌≡◌, [], IfOk, OnOk};
ghost use Rattle.kept_worlds.specs.Numbering.{number_next, is_back_by, IsOneMore};

use crate::counts::Counts;
use std::alloc::Global;
use tiger_base::{Beat, LinkNo, NoMemory};

/// The messages that a node got on each link before its return and from it on, and those that it
/// lost by the return.
#[derive(Drop)]
pub struct Lives {
    back: Option<Beat>,
    lost: Counts,
    first: Counts,
    later: Counts,
}

impl Lives {
    /// No message was got, if the node returns in this beat or in none and has lost so many.
    pub fn new(alloc: Global, back: Option<Beat>, lost: Counts) -> Lives
        ensures { result ≡ record { back = back; lost = lost; first = []; later = [] } }
    {
        Lives {
            back,
            lost,
            first: Counts::new(alloc),
            later: Counts::new(alloc),
        }
    }

    /// Counts a message that was got in a beat, and gives its number on the link: those that were
    /// lost come first, if the node has returned by then, and then those got before in this life.
    pub fn next(&mut self, link: LinkNo, beat: Beat) -> Result<u64, NoMemory>
        ensures number { IfOk result (λ number. number ≡ number_next self.old link.0 beat) }
        ensures counted { OnOk result (IsOneMore self.old self.new link.0 beat) }
    {
        if is_back(self.back, beat) {
            let lost = self.lost.on(link);
            let before = self.later.next(link)?;
            return lost.checked_add(before).ok_or(NoMemory);
        }
        self.first.next(link)
    }
}

/// Whether a beat is that of a return or a later one.
fn is_back(back: Option<Beat>, beat: Beat) -> bool
    ensures { result ≡ is_back_by back beat }
{
    match back {
        Some(back) => back <= beat,
        None => false,
    }
}
