//! Tests of numbers, of plans, of when states are forwarded, and of what a cub keeps: its view of the schedule, the disks
//! that are full, the starts that wait, the deschedules that are held, how long a neighbour has been silent, the mirror
//! pieces that it is to send, and the visits that it has split.

#![tactic(auto)]

#[cfg(test)]
mod buckets;
#[cfg(test)]
mod calls;
#[cfg(test)]
mod cub_views;
#[cfg(test)]
mod deschedules;
#[cfg(test)]
mod forwards;
#[cfg(test)]
mod full_disks;
#[cfg(test)]
mod numbers;
#[cfg(test)]
mod pieces;
#[cfg(test)]
mod plans;
#[cfg(test)]
mod records;
#[cfg(test)]
mod splits;
#[cfg(test)]
mod starts;
#[cfg(test)]
mod views;
#[cfg(test)]
mod watches;
