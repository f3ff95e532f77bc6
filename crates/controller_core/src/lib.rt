//! The controller: it passes on the starts and stops of its orders, and keeps where the instances were placed.
#![tactic(auto)]

mod controller;
mod known;
mod laws;
mod orders;

pub use controller::Controller;
pub use known::Known;
pub use laws::first_places_are_kept;

#[cfg(test)]
mod tests;
