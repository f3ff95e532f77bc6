//! Tests of the calls that judge, audit and report a run, on journals that are written by hand.

#![tactic(auto)]

#[cfg(test)]
mod by_hand;
#[cfg(test)]
mod journals;
#[cfg(test)]
mod reports;
#[cfg(test)]
mod served;
#[cfg(test)]
mod waits;
