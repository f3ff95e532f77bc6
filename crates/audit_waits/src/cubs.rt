//! Who has ever died, whom cubs believe dead and which records they have, as far as the entries tell that a walk has passed.
ghost use Rattle.std.specs.Prelude.{◌≡◌, ◌≤◌, ◌^◌, ◌==◌, ◌&&◌, ◌||◌, not, ℕ, [], OnOk};
ghost use Rattle.tiger_base.specs.declared.tenancy.Rec.{Rec};
ghost use Rattle.run_model.specs.Moments.{Moment, next_moment};
ghost use Rattle.audit_frame.specs.Lines.{noted_line};
ghost use Rattle.audit_frame.specs.Tables.{has_number, has_pair};
ghost use Rattle.audit_frame.specs.Records.{has_held};
ghost use Rattle.audit_frame.specs.declared.records.By.TheVariants as way;
ghost use Rattle.audit_waits.specs.Cubs.{TellsCubs, excuses_in, is_excusing};

use crate::holders::Holders;
use audit_frame::{By, Held, Line, Numbers, Pairs, Records};
use node_kit::What;
use slot_plan::Plan;
use std::alloc::Global;
use tiger_base::{Beat, Instance, NoMemory, NodeNo, SlotNo, Visit};

/// Who has ever died, whom the cubs believe dead, and the records in their views.
#[derive(Drop)]
pub struct Cubs {
    dead: Numbers,
    believed: Pairs,
    records: Records,
}

impl Cubs {
    /// Nothing is known yet.
    pub fn new(alloc: Global) -> Cubs
        ensures dead { result.dead ≡ [] }
        ensures believed { result.believed ≡ [] }
        ensures records { result.records ≡ [] }
    {
        Cubs {
            dead: Numbers::new(alloc),
            believed: Pairs::new(alloc),
            records: Records::new(alloc),
        }
    }

    /// Whether a cub believes another one dead.
    pub fn believes(&self, cub: NodeNo, other: NodeNo) -> bool
        ensures { result ≡ has_pair cub.0 other.0 self.now.believed }
    {
        self.believed.has(cub.0, other.0)
    }

    /// Whether a cub has ever died.
    pub fn has_died(&self, cub: NodeNo) -> bool
        ensures { result ≡ has_number cub.0 self.now.dead }
    {
        self.dead.has(cub.0)
    }

    /// Whether a cub has a record of a visit of a slot whose instance was stopped a block play time before a beat at most.
    pub fn has_excuse(
        &self,
        plan: &Plan,
        holders: &Holders,
        beat: Beat,
        cub: NodeNo,
        slot: SlotNo,
        visit: Visit,
    ) -> bool
        requires { visit ≤ 2 ^ 32 }
        ensures { result ≡ excuses_in plan.now.params holders.now self.now cub.0 beat slot.0 visit }
    {
        self.records
            .at(slot.0, cub, visit)
            .any(|held| is_excusing(plan, holders, beat, held))
    }

    /// Takes one more entry.
    pub fn take<'a>(&mut self, line: &Line<'a>) -> Result<(), NoMemory>
        ensures { OnOk result ((m : Moment) → TellsCubs self.old m
            → TellsCubs self.new (next_moment m (noted_line line.now))) }
    {
        match line.entry.what {
            What::Took(r) => self.records.add(By::Slot, line.node, &r),
            What::Dropped(r) => {
                self.records.remove(By::Slot, line.node, &r);
                Ok(())
            }
            What::Believed(other) => self.believed.add(line.node.0, other.0),
            What::Died => self.take_death(line.node),
            What::Returned => {
                self.records.clear(line.node);
                Ok(())
            }
            _ => Ok(()),
        }
    }

    /// Takes the death of a node, with which its records go.
    fn take_death(&mut self, node: NodeNo) -> Result<(), NoMemory>
        ensures believed { self.new.believed ≡ self.old.believed }
        ensures records { OnOk result ((c : ℕ) (q : Rec) → has_held way.Slot c q self.new.records
            ≡ (has_held way.Slot c q self.old.records && not (node.0 == c))) }
        ensures dead { OnOk result ((n : ℕ) → has_number n self.new.dead
            ≡ (has_number n self.old.dead || (node.0 == n))) }
    {
        self.records.clear(node);
        self.dead.add(node.0)
    }
}

/// Whether the instance of a record was stopped a block play time before a beat at most.
fn is_excusing(plan: &Plan, holders: &Holders, beat: Beat, held: &Held) -> bool
    ensures { result ≡ is_excusing plan.now.params holders.now beat held.now }
{
    holders.was_stopped_lately(plan, beat, Instance(held.beside))
}
