//! Tests of the calls that read a scenario, run it, and judge and report what is kept of the run.

#![tactic(auto)]

#[cfg(test)]
mod changes;
#[cfg(test)]
mod claims;
#[cfg(test)]
mod endings;
#[cfg(test)]
mod gates;
#[cfg(test)]
mod made;
#[cfg(test)]
mod rings;
#[cfg(test)]
mod runs;
#[cfg(test)]
mod scenarios;
#[cfg(test)]
mod stepped;
#[cfg(test)]
mod told;
