//! A device whose images are files of the system.
#![tactic(auto)]

mod device;

pub use device::FileDevice;
