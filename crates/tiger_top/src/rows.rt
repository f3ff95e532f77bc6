//! Worked rows of what the contract of `tiger_top` speaks of. They stand in contracts of functions without a body, so
//! that a weakened definition is refused where the crate is checked without its tests.
ghost use Rattle.std.specs.Prelude.{◌≡◌, ◌≢◌, ◌++◌, ◌<◌, ◌≤◌, ℕ, true, false, List, [], ◌∷◌, length, codes};
ghost use Rattle.std.specs.Prelude.{None, Some, Ok, Err, String, Vec};
ghost use Rattle.std.specs.declared.alloc.Global.{Global};
ghost use Rattle.std.specs.Fmt.{decimal};
ghost use Rattle.outside.specs.Told.{bytes, absent, untold};
ghost use Rattle.net_read.specs.declared.fault.NetFault.TheVariants as faults;
ghost use Rattle.net_read.specs.Meaning.{net_meaning};
ghost use Rattle.net_read.specs.Plans.{NetSaid};
ghost use Rattle.net_run.specs.Text.{net_text};
ghost use Rattle.scenario_read.specs.Fault.{broken};
ghost use Rattle.scenario_read.specs.declared.stop.ScenarioFault.{ScenarioFault};
ghost use Rattle.tiger_audit.specs.Samples.{that_entry, some_clause};
ghost use Rattle.tiger_audit.specs.declared.status.AuditStatus.TheVariants as audits;
ghost use Rattle.tiger_check.specs.declared.status.CheckStatus.TheVariants as checks;
ghost use Rattle.tiger_net.specs.Lines.{most_plan};
ghost use Rattle.tiger_net.specs.Samples.{net_name, net_source};
ghost use Rattle.tiger_input.specs.Samples.{here, makes, runs};
ghost use Rattle.tiger_input.specs.Words.{texts_of};
ghost use Rattle.tiger_input.specs.declared.status.Status.TheVariants as statuses;
ghost use Rattle.tiger_top.specs.declared.status.TopStatus.TheVariants as tops;
ghost use Rattle.tiger_disks.specs.Samples.{disks_words, image_name, one_name};
ghost use Rattle.tiger_disks.specs.declared.status.DisksStatus.TheVariants as ends;
ghost use Rattle.tiger_top.specs.Commands.{AreTigers, IsNoTopCommand, IfTigers, IfJournal, IfSpare, IfNet, IfDisks, IfNoDisks, IfCheck, IfAudit};
ghost use Rattle.tiger_top.specs.Ends.{IsRunnableNet, NetCause, NetWrote};
ghost use Rattle.tiger_top.specs.Samples.{journal_words, spare_words, nets, check_words, audit_words, sunk};
ghost use Rattle.tiger_top.specs.Statuses.{OfTiger, OfCheck, OfAudit, IfDisksStopped, IsDone, IsDoneOrNoMemory, IsRuleOrNoMemory, IsTopRefusal};
ghost use Rattle.tiger_input.specs.Statuses.{line_of};
ghost use Rattle.tiger_top.specs.Statuses.{top_line, top_exit};

/// Words are for `tiger`, or they are `net NAME`, `journal NAME W`, `spare NAME W`, `disks NAME IMAGE`, `check NAME` or
/// `audit NAME`; and they may be no command of all these.
pub fn commands()
    ensures run { AreTigers (runs here 1) }
    ensures make { AreTigers (makes 7) }
    ensures net { AreTigers (nets here) → ⊥ }
    ensures journal { AreTigers (journal_words here 1) → ⊥ }
    ensures spare { AreTigers (spare_words here 1) → ⊥ }
    ensures disks { AreTigers (disks_words []) → ⊥ }
    ensures forced { AreTigers (disks_words (codes "--force" ∷ [])) → ⊥ }
    ensures check { AreTigers (check_words here) → ⊥ }
    ensures audit { AreTigers (audit_words here) → ⊥ }
    ensures no_words { IsNoTopCommand [] }
    ensures no_name { IsNoTopCommand (codes "net" ∷ []) }
    ensures two_names { IsNoTopCommand (codes "net" ∷ here ∷ here ∷ []) }
    ensures no_image { IsNoTopCommand (codes "disks" ∷ here ∷ []) }
    ensures no_force { IsNoTopCommand (disks_words (codes "force" ∷ [])) }
    ensures no_refused_net { IsNoTopCommand (nets here) → ⊥ }
    ensures no_refused_journal { IsNoTopCommand (journal_words here 1) → ⊥ }
    ensures no_refused_spare { IsNoTopCommand (spare_words here 1) → ⊥ }
    ensures no_refused_run { IsNoTopCommand (runs here 1) → ⊥ }
    ensures no_refused_check { IsNoTopCommand (check_words here) → ⊥ }
    ensures no_refused_audit { IsNoTopCommand (audit_words here) → ⊥ }
{}

/// What is said of calls for a command is true of the name that the words have, or of their texts, and nothing is said
/// of calls for another command.
pub fn calls()
    ensures net { (words : Vec (String Global) Global) → texts_of words.items ≡ nets here →
        IfNet words (λ name. name ≡ here) }
    ensures no_net { (words : Vec (String Global) Global) → texts_of words.items ≡ runs here 1 →
        IfNet words (λ _. ⊥) }
    ensures net_name { (words : Vec (String Global) Global) → texts_of words.items ≡ nets here →
        IfNet words (λ name. name ≡ []) → ⊥ }
    ensures journal { (words : Vec (String Global) Global) →
        texts_of words.items ≡ journal_words here 1 → IfJournal words (λ name. name ≡ here) }
    ensures no_journal { (words : Vec (String Global) Global) →
        texts_of words.items ≡ nets here → IfJournal words (λ _. ⊥) }
    ensures journal_name { (words : Vec (String Global) Global) →
        texts_of words.items ≡ journal_words here 1 → IfJournal words (λ name. name ≡ []) → ⊥ }
    ensures spare { (words : Vec (String Global) Global) →
        texts_of words.items ≡ spare_words here 1 → IfSpare words (λ name. name ≡ here) }
    ensures no_spare { (words : Vec (String Global) Global) →
        texts_of words.items ≡ journal_words here 1 → IfSpare words (λ _. ⊥) }
    ensures spare_name { (words : Vec (String Global) Global) →
        texts_of words.items ≡ spare_words here 1 → IfSpare words (λ name. name ≡ []) → ⊥ }
    ensures disks { (words : Vec (String Global) Global) → texts_of words.items ≡ disks_words [] →
        IfDisks words (λ name image over.
        (name ≡ one_name) × (image ≡ image_name) × (over ≡ false)) }
    ensures forced { (words : Vec (String Global) Global) →
        texts_of words.items ≡ disks_words (codes "--force" ∷ []) →
        IfDisks words (λ _ _ over. over ≡ true) }
    ensures no_disks { (words : Vec (String Global) Global) → texts_of words.items ≡ nets here →
        IfDisks words (λ _ _ _. ⊥) }
    ensures disks_name { (words : Vec (String Global) Global) → texts_of words.items ≡ disks_words [] →
        IfDisks words (λ name _ _. name ≡ []) → ⊥ }
    ensures image { (words : Vec (String Global) Global) → texts_of words.items ≡ disks_words [] →
        IfNoDisks words ⊥ }
    ensures no_image { (words : Vec (String Global) Global) → texts_of words.items ≡ nets here →
        IfNoDisks words ⊥ → ⊥ }
    ensures tigers { (words : Vec (String Global) Global) → texts_of words.items ≡ runs here 1 →
        IfTigers words (λ texts. texts ≡ runs here 1) }
    ensures no_tigers { (words : Vec (String Global) Global) → texts_of words.items ≡ nets here →
        IfTigers words (λ _. ⊥) }
    ensures tigers_texts { (words : Vec (String Global) Global) →
        texts_of words.items ≡ runs here 1 → IfTigers words (λ texts. texts ≡ []) → ⊥ }
    ensures check { (words : Vec (String Global) Global) → texts_of words.items ≡ check_words here →
        IfCheck words (λ name. name ≡ here) }
    ensures no_check { (words : Vec (String Global) Global) → texts_of words.items ≡ nets here →
        IfCheck words (λ _. ⊥) }
    ensures check_name { (words : Vec (String Global) Global) →
        texts_of words.items ≡ check_words here → IfCheck words (λ name. name ≡ []) → ⊥ }
    ensures audit { (words : Vec (String Global) Global) → texts_of words.items ≡ audit_words here →
        IfAudit words (λ name. name ≡ here) }
    ensures no_audit { (words : Vec (String Global) Global) → texts_of words.items ≡ nets here →
        IfAudit words (λ _. ⊥) }
    ensures audit_name { (words : Vec (String Global) Global) →
        texts_of words.items ≡ audit_words here → IfAudit words (λ name. name ≡ []) → ⊥ }
{}

/// A broken rule of a plan has its line and its exit status, is a refusal, and is no status of `tiger`.
pub fn rules()
    ensures line { top_line (tops.Net 2) ≡ codes "tiger: net rule " ++ decimal 2 ++ codes "\n" }
    ensures exit { top_exit (tops.Net 2) ≡ 13 }
    ensures refuses { IsTopRefusal (tops.Net 2) }
    ensures done { IsTopRefusal (tops.Tiger statuses.Done) → ⊥ }
    ensures no_tigers { OfTiger (λ status. status ≡ status) (tops.Net 2) → ⊥ }
    ensures tigers { OfTiger (λ status. status ≡ statuses.Done) (tops.Tiger statuses.Done) }
{}

/// What is said of how `disks` stopped is said of the device's ends too, and nothing is said if all was done.
pub fn images()
    ensures exists { IfDisksStopped (λ end. end ≡ ends.ImageExists) tops.ImageExists }
    ensures other { IfDisksStopped (λ end. end ≡ ends.Device) tops.ImageExists → ⊥ }
    ensures run { IfDisksStopped (λ end. end ≡ ends.Run statuses.WriteFault) (tops.Tiger statuses.WriteFault) }
    ensures done { IfDisksStopped (λ _. ⊥) (tops.Tiger statuses.Done) }
    ensures rule { IfDisksStopped (λ end. end ≡ end) (tops.Net 1) → ⊥ }
    ensures line { top_line tops.ImageExists ≡ codes "tiger: image exists\n" }
    ensures exit { top_exit tops.ImageExists ≡ 14 }
    ensures refuses { IsTopRefusal tops.Device }
    ensures no_tigers { OfTiger (λ status. status ≡ status) tops.Device → ⊥ }
{}

/// A plan whose false conditions were written has the line and the exit status of a broken rule, and is no refusal of which
/// nothing is written; it is said of `check` alone.
pub fn unsound_plans()
    ensures line { (f : ScenarioFault) → top_line (tops.Unsound f) ≡ line_of (statuses.Scenario f) }
    ensures exit { (f : ScenarioFault) → top_exit (tops.Unsound f) ≡ 5 }
    ensures refuses { (f : ScenarioFault) → IsTopRefusal (tops.Unsound f) → ⊥ }
    ensures check { (f : ScenarioFault) →
        OfCheck (λ end. end ≡ checks.Unsound f) (tops.Unsound f) }
    ensures run { OfCheck (λ end. end ≡ checks.Run statuses.Done) (tops.Tiger statuses.Done) }
    ensures rule { OfCheck (λ end. end ≡ end) (tops.Net 2) → ⊥ }
    ensures no_tigers { (f : ScenarioFault) → OfTiger (λ s. s ≡ s) (tops.Unsound f) → ⊥ }
    ensures no_disks { (f : ScenarioFault) → IfDisksStopped (λ e. e ≡ e) (tops.Unsound f) → ⊥ }
{}

/// A broken clause has two lines and status 9, and a text that is none one line and status 10. Both are refusals, and are
/// said of `audit` alone.
pub fn audited_ends()
    ensures lines { top_line (tops.Audit some_clause that_entry (Some 1749))
        ≡ codes "tiger: audit clause " ++ decimal 4 ++ codes "\ntiger: at "
        ++ (codes "node " ++ decimal 3 ++ (codes ", line " ++ decimal 1749) ++ codes "")
        ++ codes "\n" }
    ensures clause_exit { top_exit (tops.Audit some_clause that_entry (Some 1749)) ≡ 9 }
    ensures text_line { top_line (tops.Journal 7) ≡ codes "tiger: journal line " ++ decimal 7 ++ codes "\n" }
    ensures text_exit { top_exit (tops.Journal 7) ≡ 10 }
    ensures refuses { IsTopRefusal (tops.Audit some_clause that_entry None) }
    ensures refuses_text { IsTopRefusal (tops.Journal 7) }
    ensures text { OfAudit (λ end. end ≡ audits.Journal 7) (tops.Journal 7) }
    ensures run { OfAudit (λ end. end ≡ audits.Run statuses.Done) (tops.Tiger statuses.Done) }
    ensures rule { OfAudit (λ end. end ≡ end) (tops.Net 2) → ⊥ }
    ensures no_tigers { OfTiger (λ s. s ≡ s) (tops.Journal 7) → ⊥ }
    ensures no_disks { IfDisksStopped (λ e. e ≡ e) (tops.Journal 7) → ⊥ }
    ensures no_check { OfCheck (λ e. e ≡ e) (tops.Audit some_clause that_entry None) → ⊥ }
{}

/// All was done, or it was but for want of memory.
pub fn dones()
    ensures is { IsDone (tops.Tiger statuses.Done) }
    ensures no_memory { IsDone (tops.Tiger statuses.NoMemory) → ⊥ }
    ensures broken_rule { IsDone (tops.Net 2) → ⊥ }
    ensures or_is { IsDoneOrNoMemory (tops.Tiger statuses.Done) }
    ensures or_no_memory { IsDoneOrNoMemory (tops.Tiger statuses.NoMemory) }
    ensures or_write_fault { IsDoneOrNoMemory (tops.Tiger statuses.WriteFault) → ⊥ }
{}

/// A scenario broke a rule, or there was no memory.
pub fn broken_rules()
    ensures rule { IsRuleOrNoMemory (broken 14 0)
        (tops.Tiger (statuses.Scenario (broken 14 0))) }
    ensures no_memory { IsRuleOrNoMemory (broken 14 0) (tops.Tiger statuses.NoMemory) }
    ensures other_rule { IsRuleOrNoMemory (broken 14 0)
        (tops.Tiger (statuses.Scenario (broken 13 0))) → ⊥ }
    ensures done { IsRuleOrNoMemory (broken 14 0) (tops.Tiger statuses.Done) → ⊥ }
{}

/// Why a plan is refused: it is not there, or breaks the first rule, or the second one.
pub fn refused_plans()
    ensures not_there { NetCause net_name (net_source absent 0 0) (net_source absent 0 1)
        (tops.Tiger (statuses.Absent None)) }
    ensures other_file { NetCause net_name (net_source absent 0 0) (net_source absent 0 1)
        (tops.Tiger (statuses.Absent (Some (record { 0 = 0 })))) → ⊥ }
    ensures first_rule { (text : List ℕ) → length text ≤ most_plan →
        net_meaning text ≡ Err faults.NoJson →
        NetCause net_name (net_source (bytes text) 0 0) (net_source (bytes text) 0 0) (tops.Net 1) }
    ensures second_rule { (text : List ℕ) → length text ≤ most_plan →
        net_meaning text ≡ Err faults.BadForm →
        NetCause net_name (net_source (bytes text) 0 0) (net_source (bytes text) 0 0) (tops.Net 2) }
    ensures not_the_first { (text : List ℕ) → net_meaning text ≡ Err faults.BadForm →
        NetCause net_name (net_source (bytes text) 0 0) (net_source (bytes text) 0 0)
        (tops.Net 1) → ⊥ }
    ensures no_third_rule { NetCause net_name (net_source untold 0 0) (net_source untold 0 0)
        (tops.Net 3) → ⊥ }
    ensures words { NetCause net_name (net_source untold 0 0) (net_source untold 0 0)
        (tops.Tiger statuses.Words) → ⊥ }
    ensures device { NetCause net_name (net_source untold 0 0) (net_source untold 0 0)
        tops.Device → ⊥ }
{}

/// The lines of the told plan are written behind what the output had, and no other text is.
pub fn written_plans()
    ensures all { (text : List ℕ) (plan : NetSaid) → length text ≤ most_plan →
        net_meaning text ≡ Ok plan → NetWrote (bytes text) (sunk (1 ∷ []) 0)
        (sunk (1 ∷ net_text plan) 0) (tops.Tiger statuses.Done) }
    ensures other_text { (text lines : List ℕ) (plan : NetSaid) → net_meaning text ≡ Ok plan →
        lines ≢ net_text plan →
        NetWrote (bytes text) (sunk [] 0) (sunk lines 0) (tops.Tiger statuses.Done) → ⊥ }
    ensures no_plan { (text lines : List ℕ) → net_meaning text ≡ Err faults.BadForm →
        NetWrote (bytes text) (sunk [] 0) (sunk lines 0) (tops.Tiger statuses.Done) → ⊥ }
    ensures no_put_failed { (text : List ℕ) → NetWrote (bytes text) (sunk [] 0) (sunk [] 0)
        (tops.Tiger statuses.WriteFault) → ⊥ }
    ensures written_before { (text : List ℕ) →
        NetWrote (bytes text) (sunk [] 0) (sunk (1 ∷ []) 0) (tops.Net 1) → ⊥ }
{}

/// A plan that is told, is short enough and breaks no rule is runnable.
pub fn runnable_plans()
    ensures is { (text : List ℕ) (plan : NetSaid) → length text ≤ most_plan →
        net_meaning text ≡ Ok plan → IsRunnableNet (bytes text) }
    ensures no_file { IsRunnableNet absent → ⊥ }
    ensures not_told { IsRunnableNet untold → ⊥ }
    ensures too_long { (text : List ℕ) → most_plan < length text → IsRunnableNet (bytes text) → ⊥ }
    ensures no_plan { (text : List ℕ) → net_meaning text ≡ Err faults.BadForm →
        IsRunnableNet (bytes text) → ⊥ }
{}
