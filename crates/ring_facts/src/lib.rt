//! What is kept of a run of a ring of nodes, and what holds of it.
#![tactic(auto)]
