//! The tables of what the journals of a run tell of blocks: each entry is read once, for all of them.
ghost use Rattle.std.specs.Prelude.{◌≤◌, [], ◌∷◌, ◌++◌, List, length, IfOk, OnOk};
ghost use Rattle.slot_plan.specs.declared.params.Params.{Params};
ghost use Rattle.run_facts.specs.Order.{Noted};
ghost use Rattle.audit_frame.specs.Lines.{noted_line};
ghost use Rattle.audit_blocks.specs.Entries.{journal_noted, journals_noted};
ghost use Rattle.audit_blocks.specs.Told.{AreToldBy};

use crate::cargo::cargo_got;
use crate::dispatches::Dispatches;
use crate::groups::Groups;
use crate::keeping::{
    keep_death, keep_failed, keep_failed_whole, keep_piece, keep_put, keep_return, keep_sent,
    keep_stop, keep_visit, keep_whole,
};
use crate::parts::Parts;
use crate::receipts::Arrivals;
use audit_frame::{Line, Marks};
use node_kit::{Entry, Journal};
use slot_plan::Plan;
use std::alloc::Global;
use tiger_base::{Beat, Micros, NoMemory, NodeNo, Tenancy};

/// What entries tell, with a table for each question.
#[derive(Drop)]
pub struct Tables {
    /// The tenancies that were put, by instance.
    pub puts: Groups<Tenancy>,
    /// The beats of the deaths, by node.
    pub deaths: Groups<Beat>,
    /// The readings of the returns, by node.
    pub returns: Groups<Micros>,
    /// The beat of the earliest stop of each instance.
    pub stops: Marks,
    /// The blocks and pieces whose read failed.
    pub failed: Parts,
    /// The whole blocks whose read failed at the cub of the visit.
    pub failed_whole: Parts,
    /// What cubs sent.
    pub sent: Dispatches,
    /// The whole blocks that the viewers got, under piece 0.
    pub wholes: Arrivals,
    /// The pieces that they got.
    pub pieces: Arrivals,
    /// The visits of which they got some piece, under piece 0.
    pub visits: Parts,
}

impl Tables {
    /// The tables of what journals tell, of which the first is that of node 0.
    pub fn of(alloc: Global, plan: &Plan, journals: &[Journal]) -> Result<Tables, NoMemory>
        requires { length journals.now ≤ 1000 }
        ensures { IfOk result (λ t. AreToldBy plan.now.params (journals_noted 0 journals.now) t) }
    {
        let mut tables = Tables::new(alloc);
        for (n, journal) in journals.iter().enumerate() {
            tables.take_journal(alloc, plan, NodeNo(n as u32), journal)?;
        }
        Ok(tables)
    }

    /// Tables with nothing in them.
    fn new(alloc: Global) -> Tables
        ensures { (p : Params) → AreToldBy p [] result }
    {
        Tables {
            puts: Groups::new(alloc),
            deaths: Groups::new(alloc),
            returns: Groups::new(alloc),
            stops: Marks::new(alloc),
            failed: Parts::new(alloc),
            failed_whole: Parts::new(alloc),
            sent: Dispatches::new(alloc),
            wholes: Arrivals::new(alloc),
            pieces: Arrivals::new(alloc),
            visits: Parts::new(alloc),
        }
    }

    /// Takes the journal of one more node.
    fn take_journal(
        &mut self,
        alloc: Global,
        plan: &Plan,
        node: NodeNo,
        journal: &Journal,
    ) -> Result<(), NoMemory>
        ensures { OnOk result ((log : List Noted) → AreToldBy plan.now.params log self.old
            → AreToldBy plan.now.params (log ++ journal_noted node.0 journal.now) self.new) }
    {
        self.take_entries(alloc, plan, node, journal.as_slice())
    }

    /// Takes more entries of a node.
    fn take_entries(
        &mut self,
        alloc: Global,
        plan: &Plan,
        node: NodeNo,
        entries: &[Entry],
    ) -> Result<(), NoMemory>
        ensures { OnOk result ((log : List Noted) → AreToldBy plan.now.params log self.old
            → AreToldBy plan.now.params (log ++ journal_noted node.0 entries.now) self.new) }
    {
        for entry in entries {
            self.take(alloc, plan, &Line { node, entry })?;
        }
        Ok(())
    }

    /// Takes one more entry.
    fn take<'a>(&mut self, alloc: Global, plan: &Plan, line: &Line<'a>) -> Result<(), NoMemory>
        ensures { OnOk result ((log : List Noted) → AreToldBy plan.now.params log self.old
            → AreToldBy plan.now.params (log ++ noted_line line.now ∷ []) self.new) }
    {
        keep_put(alloc, &mut self.puts, line)?;
        keep_death(alloc, &mut self.deaths, line)?;
        keep_return(alloc, &mut self.returns, line)?;
        keep_stop(&mut self.stops, line)?;
        keep_failed(&mut self.failed, line)?;
        keep_failed_whole(plan, &mut self.failed_whole, line)?;
        keep_sent(&mut self.sent, line)?;
        let got = cargo_got(plan, line);
        keep_whole(&mut self.wholes, got)?;
        keep_piece(&mut self.pieces, got)?;
        keep_visit(&mut self.visits, got)
    }
}
