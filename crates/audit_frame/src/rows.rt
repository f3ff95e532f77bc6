//! Worked logs for the words of this crate. They stand in contracts of functions without a body, and not in tests, since a
//! weakened definition must be refused where the crate is checked without its tests.
ghost use Rattle.std.specs.Prelude.{Some, None};
ghost use Rattle.audit_frame.specs.First.{Decides};
ghost use Rattle.audit_frame.specs.Samples.{AreOfFirstNode, one_line, two_lines};

/// The claim is that all entries are node 0's; the second of two is node 1's.
pub fn first_false()
    ensures holds { Decides AreOfFirstNode one_line None }
    ensures holds_of_all { Decides AreOfFirstNode one_line (Some 0) → ⊥ }
    ensures nothing_behind { Decides AreOfFirstNode one_line (Some 1) → ⊥ }
    ensures second { Decides AreOfFirstNode two_lines (Some 1) }
    ensures not_the_first { Decides AreOfFirstNode two_lines (Some 0) → ⊥ }
    ensures fails { Decides AreOfFirstNode two_lines None → ⊥ }
{}
