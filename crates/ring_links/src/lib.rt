//! A link of one sender and one receiver: the messages in order, and beside them a word that says which beats are closed.
#![tactic(auto)]

mod board;
mod ends;
mod line;
mod opening;

pub use ends::{InEnd, OutEnd, Refused};
pub use opening::{Both, close, open_link, open_links};
