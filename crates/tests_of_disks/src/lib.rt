//! Tests of disks that are kept in images: of one disk, of a layout and of a scenario, in memory and in real files, by public
//! items alone.

#![tactic(auto)]

#[cfg(test)]
mod files;
#[cfg(test)]
mod images;
#[cfg(test)]
mod layouts;
#[cfg(test)]
mod parts;
#[cfg(test)]
mod places;
#[cfg(test)]
mod scenarios;
