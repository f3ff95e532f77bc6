//! Worked rows of what the contract of `net_lines` speaks of. They stand in contracts of functions without a body, so
//! that a weakened definition is refused where the crate is checked without its tests.
ghost use Rattle.std.specs.Prelude.{◌≡◌, ◌≢◌, ◌<◌, ◌≤◌, ℕ, List, [], ◌∷◌, length, Ok, Err};
ghost use Rattle.outside.specs.Told.{bytes, absent, untold};
ghost use Rattle.net_read.specs.declared.fault.NetFault.TheVariants as faults;
ghost use Rattle.net_read.specs.Meaning.{net_meaning};
ghost use Rattle.net_read.specs.Plans.{NetSaid};
ghost use Rattle.net_run.specs.Text.{net_text};
ghost use Rattle.tiger_net.specs.declared.stop.NetRule.TheVariants as rules;
ghost use Rattle.tiger_net.specs.declared.stop.NetStop.TheVariants as stops;
ghost use Rattle.tiger_net.specs.Lines.{AreLinesOf, most_plan};
ghost use Rattle.tiger_net.specs.Samples.{net_name, net_source};
ghost use Rattle.tiger_net.specs.Stops.{StopCause, rule_number};

/// The lines are those of the plan that the told bytes mean, or of any plan if nothing is told.
pub fn lines_of_plans()
    ensures is { (text : List ℕ) (plan : NetSaid) → length text ≤ most_plan →
        net_meaning text ≡ Ok plan → AreLinesOf (bytes text) (net_text plan) }
    ensures other { (text lines : List ℕ) (plan : NetSaid) → net_meaning text ≡ Ok plan →
        lines ≢ net_text plan → AreLinesOf (bytes text) lines → ⊥ }
    ensures no_plan { (text lines : List ℕ) → net_meaning text ≡ Err faults.BadForm →
        AreLinesOf (bytes text) lines → ⊥ }
    ensures too_long { (text lines : List ℕ) → most_plan < length text →
        AreLinesOf (bytes text) lines → ⊥ }
    ensures no_file { (lines : List ℕ) → AreLinesOf absent lines → ⊥ }
    ensures nothing_told { (text : List ℕ) (plan : NetSaid) → length text ≤ most_plan →
        net_meaning text ≡ Ok plan → AreLinesOf untold (net_text plan) }
{}

/// A plan is absent if a call found no file and none is told.
pub fn absent_plans()
    ensures is { StopCause net_name (net_source absent 0 0) (net_source absent 0 1) stops.Absent }
    ensures told { (text : List ℕ) → StopCause net_name (net_source (bytes text) 0 0)
        (net_source (bytes text) 0 1) stops.Absent → ⊥ }
    ensures not_counted { StopCause net_name (net_source absent 0 0) (net_source absent 0 0)
        stops.Absent → ⊥ }
{}

/// A plan could not be read if a call failed, whatever is told.
pub fn unread_plans()
    ensures is { StopCause net_name (net_source untold 2 0) (net_source untold 3 0) stops.ReadFault }
    ensures not_counted { StopCause net_name (net_source untold 2 0) (net_source untold 2 1)
        stops.ReadFault → ⊥ }
{}

/// A plan's file has 4194304 bytes at most.
pub fn long_plans()
    ensures is { StopCause net_name (net_source untold 0 0) (net_source untold 0 0)
        (stops.TooLong 4194305 4194304) }
    ensures not_longer { StopCause net_name (net_source untold 0 0) (net_source untold 0 0)
        (stops.TooLong 4194304 4194304) → ⊥ }
    ensures other_limit { StopCause net_name (net_source untold 0 0) (net_source untold 0 0)
        (stops.TooLong 4194305 4194303) → ⊥ }
    ensures told_shorter { StopCause net_name (net_source (bytes []) 0 0)
        (net_source (bytes []) 0 0) (stops.TooLong 4194305 4194304) → ⊥ }
{}

/// Bytes break rule 1 if they are no JSON text, and rule 2 if they are one in another form than a plan's.
pub fn broken_net_rules()
    ensures numbers { (rule_number rules.Json ≡ 1) × (rule_number rules.Form ≡ 2) }
    ensures no_json { (text : List ℕ) → length text ≤ most_plan → net_meaning text ≡ Err faults.NoJson →
        StopCause net_name (net_source (bytes text) 0 0) (net_source (bytes text) 0 0)
        (stops.Fault rules.Json) }
    ensures no_form { (text : List ℕ) → length text ≤ most_plan → net_meaning text ≡ Err faults.BadForm →
        StopCause net_name (net_source (bytes text) 0 0) (net_source (bytes text) 0 0)
        (stops.Fault rules.Form) }
    ensures other_rule { (text : List ℕ) → net_meaning text ≡ Err faults.NoJson →
        StopCause net_name (net_source (bytes text) 0 0) (net_source (bytes text) 0 0)
        (stops.Fault rules.Form) → ⊥ }
    ensures plan { (text : List ℕ) (plan : NetSaid) → net_meaning text ≡ Ok plan →
        StopCause net_name (net_source (bytes text) 0 0) (net_source (bytes text) 0 0)
        (stops.Fault rules.Form) → ⊥ }
    ensures no_file { StopCause net_name (net_source absent 0 0) (net_source absent 0 0)
        (stops.Fault rules.Json) → ⊥ }
{}
