//! Where instances were put.

use tiger_base::{Beat, Tenancy};

/// A tenancy, and the beat in which it was put.
#[derive(Clone, Copy, Debug, PartialEq, Eq)]
pub struct Placed {
    pub beat: Beat,
    pub tenancy: Tenancy,
}
