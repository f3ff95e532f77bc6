//! Tests of delays, of links, of a ring's nodes, of runs of them by one thread or many, and of a world of them, by
//! public items alone.

#![tactic(auto)]

#[cfg(test)]
mod delays;
#[cfg(test)]
mod endings;
#[cfg(test)]
mod links;
#[cfg(test)]
mod lives;
#[cfg(test)]
mod nodes;
#[cfg(test)]
mod overtaken;
#[cfg(test)]
mod plain;
#[cfg(test)]
mod returns;
#[cfg(test)]
mod rings;
#[cfg(test)]
mod scripts;
#[cfg(test)]
mod shares;
#[cfg(test)]
mod texts;
#[cfg(test)]
mod ticks;
#[cfg(test)]
mod toys;
#[cfg(test)]
mod workers;
