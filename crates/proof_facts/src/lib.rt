//! The facts of a ring of cubs in the words of the schedule's proof, and the laws that its nodes and links are to meet.
#![tactic(auto)]
