//! Tests of what the commands read and write, and of how calls of them end, by public items alone.

#![tactic(auto)]

#[cfg(test)]
mod checks;
#[cfg(test)]
mod commands;
#[cfg(test)]
mod disks;
#[cfg(test)]
mod files;
#[cfg(test)]
mod networks;
#[cfg(test)]
mod readings;
#[cfg(test)]
mod spares;
#[cfg(test)]
mod texts;
