//! The limits of the numbers of a run.

use crate::number::{Beat, Micros, Visit};

/// The latest reading of a clock, in microseconds: the plan's conditions keep each time of a run
/// below it.
pub const MOST_READING: Micros = 1000000000000;

/// The number of beats of the longest run.
pub const MOST_BEATS: Beat = 100000;

/// The last visit of a slot that a message in form may name.
pub const MOST_VISIT: Visit = 2147483648;

/// How many bytes the largest file has.
pub const MOST_FILE: u64 = 16777216;

/// How many blocks a start may ask for: as many as the largest file has bytes, since a block may be
/// one byte.
pub const MOST_BLOCKS: u64 = 16777216;
