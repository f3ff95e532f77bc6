//! What a cub does with each message: the rules on viewer states, starts, deschedules, pieces, answers, heartbeats and returns.
#![tactic(auto)]

mod answers;
mod deschedules;
mod hearing;
mod passing;
mod pieces;
mod records;
mod splits;
mod starts;
mod states;

pub use answers::take_answer;
pub use deschedules::take_deschedule;
pub use hearing::{hear, take_back, take_heartbeat};
pub use pieces::{take_kill, take_piece};
pub use records::take_record;
pub use starts::take_start;
pub use states::take_state;
