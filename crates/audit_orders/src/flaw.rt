//! What a journal may have that breaks a claim.

/// What breaks a claim on a journal.
#[derive(Clone, Copy, Debug, PartialEq, Eq)]
pub enum Flaw {
    /// The entry at this place: the claim holds of no journal that begins with the entries up to it.
    Entry(usize),
    /// No entry: something is missing that could have been written behind the last one.
    Missing,
}
