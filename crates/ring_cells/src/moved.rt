//! The answer of a call that moves a share.

use tiger_base::LinkNo;

/// What has come of a call that moves a share.
#[derive(Clone, Copy, Debug, PartialEq, Eq)]
pub enum Moved {
    /// It did this number of beats, at least one.
    Beats(u64),
    /// It did none, since this in-link is not closed to the next one.
    Blocked(LinkNo),
    /// It did none, since all had been done before.
    Done,
}
