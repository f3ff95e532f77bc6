//! The tables of what the journals of a run tell: each journal is read once, for all of them.
ghost use Rattle.std.specs.Prelude.{◌≡◌, ℕ, [], ◌∷◌, ◌+◌, take, IfOk, OnOk};
ghost use Rattle.slot_plan.specs.declared.params.Params.{Params};
ghost use Rattle.run_model.specs.Served.{journal_at};
ghost use Rattle.run_report.specs.Tables.{deaths_in, deaths_of};
ghost use Rattle.run_report.specs.Told.{role_of, HasRead, IsToldBy};

use crate::firsts::{Firsts, Puts};
use crate::gather::{keep_failed, keep_piece, keep_put, keep_stop, keep_whole, push_death};
use node_kit::{Entry, Journal, LinkTable};
use slot_plan::Plan;
use std::alloc::Global;
use tiger_base::{Beat, NoMemory, Sequence};

/// Whose journal it is: the controller's alone is read for stops, and the viewers' alone for blocks.
#[derive(Clone, Copy)]
pub enum Role {
    Controller,
    Viewers,
    /// A cub or a disk.
    Other,
}

/// The role of a node.
fn role_of(plan: &Plan, node: usize) -> Role
    ensures { result ≡ role_of plan.now.params node }
{
    let links = LinkTable::new(plan);
    if node == links.controller().0 as usize {
        Role::Controller
    } else if node == links.viewers().0 as usize {
        Role::Viewers
    } else {
        Role::Other
    }
}

/// What journals tell of each instance and visit, with a table for each question.
#[derive(Drop)]
pub struct Told {
    /// The earliest Put of each instance, by beat, then node, then place.
    pub puts: Puts,
    /// The beat of the first stop of each instance, under visit 0 and piece 0.
    pub stops: Firsts,
    /// When the first whole block that was got was sent, under piece 0.
    pub wholes: Firsts,
    /// When the first piece of each number that was got was sent.
    pub pieces: Firsts,
    /// The visits at which a read of the whole block failed, under piece 0.
    pub failed: Firsts,
}

impl Told {
    /// Tables with nothing in them.
    pub fn new(alloc: Global) -> Told
        ensures { (p : Params) → IsToldBy p [] result }
    {
        Told {
            puts: Puts::new(alloc),
            stops: Firsts::new(alloc),
            wholes: Firsts::new(alloc),
            pieces: Firsts::new(alloc),
            failed: Firsts::new(alloc),
        }
    }

    /// Keeps what an entry tells.
    fn keep(&mut self, plan: &Plan, role: Role, e: &Entry) -> Result<(), NoMemory>
        ensures { OnOk result (HasRead plan.now.params role (e.now ∷ []) self.old self.new) }
    {
        keep_put(&mut self.puts, plan, e.stamp.beat, &e.what)?;
        keep_failed(&mut self.failed, e.stamp.beat, &e.what)?;
        match role {
            Role::Controller => keep_stop(&mut self.stops, e.stamp.beat, &e.what),
            Role::Viewers => {
                keep_whole(&mut self.wholes, &e.what)?;
                keep_piece(&mut self.pieces, &e.what)
            }
            Role::Other => Ok(()),
        }
    }

    /// Keeps what a journal tells, and gives the beats of the deaths in it.
    fn read(
        &mut self,
        alloc: Global,
        plan: &Plan,
        role: Role,
        journal: &Journal,
    ) -> Result<Sequence<Beat>, NoMemory>
        ensures told { IfOk result (λ _. HasRead plan.now.params role journal.now self.old self.new) }
        ensures deaths { IfOk result (λ deaths. deaths ≡ deaths_in journal.now) }
    {
        let mut deaths = Sequence::new(Vec::new(alloc));
        // All other entries put nothing into a table, and there are many more of them.
        for place in journal.telling() {
            let e = &journal.as_slice()[*place];
            self.keep(plan, role, e)?;
            push_death(&mut deaths, e)?;
        }
        Ok(deaths)
    }

    /// The same with the journal of a node, once those of the nodes before it are read.
    fn read_node(
        &mut self,
        alloc: Global,
        plan: &Plan,
        journals: &[Journal],
        node: usize,
    ) -> Result<Sequence<Beat>, NoMemory>
        requires { IsToldBy plan.now.params (take node journals.now) self.old }
        ensures told { IfOk result (λ _. IsToldBy plan.now.params
            (take (node + 1) journals.now) self.new) }
        ensures deaths { IfOk result (λ deaths. deaths ≡ deaths_in (journal_at journals.now node)) }
    {
        match journals.get(node) {
            Some(journal) => self.read(alloc, plan, role_of(plan, node), journal),
            None => Ok(Sequence::new(Vec::new(alloc))),
        }
    }

    /// Keeps what the journals of the cubs tell, which stand first, and gives the beats in which
    /// each of them died.
    #[tactic(auto, unfolding(crate::specs::Tables::deaths_of))]
    pub fn read_cubs(
        &mut self,
        alloc: Global,
        plan: &Plan,
        journals: &[Journal],
    ) -> Result<Sequence<Sequence<Beat>>, NoMemory>
        requires { IsToldBy plan.now.params [] self.old }
        ensures told { IfOk result (λ _. IsToldBy plan.now.params
            (take plan.now.params.cubs journals.now) self.new) }
        ensures deaths { IfOk result (λ deaths. deaths
            ≡ deaths_of journals.now plan.now.params.cubs) }
    {
        let mut deaths = Sequence::new(Vec::new(alloc));
        for cub in 0..plan.params.cubs as usize {
            deaths.push(self.read_node(alloc, plan, journals, cub)?)?;
        }
        Ok(deaths)
    }

    /// Keeps what the journals of all other nodes tell: a death of theirs is in no table.
    pub fn read_others(
        &mut self,
        alloc: Global,
        plan: &Plan,
        journals: &[Journal],
    ) -> Result<(), NoMemory>
        requires { IsToldBy plan.now.params (take plan.now.params.cubs journals.now) self.old }
        ensures { OnOk result (IsToldBy plan.now.params journals.now self.new) }
    {
        for node in plan.params.cubs as usize..journals.len() {
            self.read_node(alloc, plan, journals, node)?;
        }
        Ok(())
    }
}
