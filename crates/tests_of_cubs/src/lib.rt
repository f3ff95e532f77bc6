//! Tests of what cubs do, by public items alone: the parts that they store, the rules on messages, the steps and walks of a
//! tick, the cub as a node.

#![tactic(auto)]

#[cfg(test)]
mod cubs;
#[cfg(test)]
mod messages;
#[cfg(test)]
mod samples;
#[cfg(test)]
mod steps;
#[cfg(test)]
mod stores;
#[cfg(test)]
mod texts;
#[cfg(test)]
mod walks;
