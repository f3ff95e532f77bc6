//! A disk of the ring: it answers each read out of its image, but not in a read fault.
#![tactic(auto)]

mod disk;

pub use disk::DiskNode;

#[cfg(test)]
mod tests;
