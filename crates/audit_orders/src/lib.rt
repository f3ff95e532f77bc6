//! Walks over the journals of a kept run that decide what is claimed of its orders, its messages and its times, and that
//! name the entry or the order which breaks a claim.
#![tactic(auto)]

mod carrying;
mod commanding;
mod entries;
mod flaw;
mod foreign;
pub mod laws;
mod mail;
mod returning;
pub mod rows;
mod starts;
mod stops;
mod tables;
mod timing;

pub use carrying::{Uncarried, first_uncarried};
pub use commanding::{Uncommanded, first_uncommanded};
pub use flaw::Flaw;
pub use timing::{Untimed, first_untimed};
