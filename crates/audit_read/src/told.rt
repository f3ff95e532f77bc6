//! The journals and digests of a run, as far as they were read, behind what it is given.
ghost use Rattle.std.specs.Prelude.{◌≡◌, ◌↔◌, ◌+◌, ◌<◌, ◌++◌, ◌∷◌, [], Some, None, IfOk, OnOk, IsTrue, length, if◌then◌else◌};
ghost use Rattle.audit_text.specs.declared.item.Item.TheVariants as item;
ghost use Rattle.audit_text.specs.Texts.{parts_of};
ghost use Rattle.slot_plan.specs.Times.{disk_count};
ghost use Rattle.audit_read.specs.Writable.{IsEntry, node_count, starts_in};
ghost use Rattle.audit_read.specs.Drafts.{ToldAdmits, TellsAll, told_with, begun_told, IsTold, IsWhole, IsNext, whole_parts};
ghost use Rattle.audit_read.specs.declared.draft.Draft.{Draft};
ghost use Rattle.audit_read.specs.declared.draft.Draft.TheVariants as draft;

use crate::draft::Draft;
use crate::entries::is_entry;
use crate::given::Given;
use audit_text::Item;
use node_kit::{Digest32, Entry, Journal, Kept};
use std::alloc::Global;
use std::mem;
use tiger_base::{NoMemory, NodeNo, Sequence};

/// The lines of a run from its first journal on.
#[derive(Drop)]
pub struct Told {
    pub given: Given,
    /// The journals before the one that is being read.
    pub journals: Sequence<Journal>,
    /// The journal that is being read.
    pub current: Journal,
    pub digests: Sequence<Digest32>,
}

impl Told {
    /// The first node's journal, of which nothing is read.
    pub fn new(alloc: Global, given: Given) -> Told
        ensures { result ≡ begun_told given }
    {
        Told {
            given,
            journals: Sequence::new(Vec::new(alloc)),
            current: Journal::new(alloc),
            digests: Sequence::new(Vec::new(alloc)),
        }
    }

    /// The number of the plan's nodes.
    fn nodes(&self) -> u64
        requires { IsTold self.now }
        ensures { result ≡ node_count self.now.given.params }
    {
        let p = &self.given.params;
        p.cubs + p.cubs * p.disks + 2
    }

    fn tells_all(&self) -> bool
        requires { IsTold self.now }
        ensures { IsTrue result ↔ TellsAll self.now }
    {
        self.journals.len() as u64 + 1 == self.nodes()
    }

    /// Begins the journal of the next node, if this is it.
    fn node(&mut self, alloc: Global, n: NodeNo) -> Result<bool, NoMemory>
        requires { IsTold self.old }
        ensures admits { IfOk result (λ yes. IsTrue yes ↔ ToldAdmits self.old (item.Node n)) }
        ensures with { IfOk result (λ yes.
            IsTrue yes → self.new ≡ told_with self.old (item.Node n)) }
    {
        let next = self.journals.len() as u64 + 1;
        if self.digests.len() != 0 || n.0 as u64 != next || next >= self.nodes() {
            return Ok(false);
        }
        let whole = mem::replace(&mut self.current, Journal::new(alloc));
        self.journals.push(whole)?;
        Ok(true)
    }

    /// Reads an entry of the journal, if it may stand next.
    pub fn entry(&mut self, e: Entry) -> Result<bool, NoMemory>
        ensures admits { IfOk result (λ yes. IsTrue yes ↔ ToldAdmits self.old (item.Entry e)) }
        ensures with { IfOk result (λ yes.
            IsTrue yes → self.new ≡ told_with self.old (item.Entry e)) }
    {
        if self.digests.len() != 0 || !is_entry(&self.given.params, self.given.beats, &e) {
            return Ok(false);
        }
        self.current.write(e)?;
        Ok(true)
    }

    /// Reads the digest of a start, if one may stand next.
    fn digest(&mut self, d: Digest32) -> Result<bool, NoMemory>
        requires { IsTold self.old }
        ensures admits { IfOk result (λ yes. IsTrue yes ↔ ToldAdmits self.old (item.Digest d)) }
        ensures with { IfOk result (λ yes.
            IsTrue yes → self.new ≡ told_with self.old (item.Digest d)) }
    {
        if !self.tells_all() || self.digests.len() as u64 >= self.given.starts {
            return Ok(false);
        }
        self.digests.push(d)?;
        Ok(true)
    }

    /// What was read, if the line was read that came.
    fn go_on(self, yes: bool) -> Option<Draft>
        ensures { result ≡ (if yes then Some (draft.Told self) else None) }
    {
        if yes { Some(Draft::Told(self)) } else { None }
    }

    /// Ends the text, if it may end here.
    fn end(self) -> Option<Draft>
        requires { IsTold self }
        ensures { IsNext (draft.Told self) item.End result }
    {
        if self.tells_all() && self.digests.len() as u64 == self.given.starts {
            Some(Draft::Whole(self))
        } else {
            None
        }
    }

    /// What was read with this line, if it may stand next.
    pub fn take(self, alloc: Global, line: Item) -> Result<Option<Draft>, NoMemory>
        requires { IsTold self }
        ensures { IfOk result (λ o. IsNext (draft.Told self) line o) }
    {
        let mut told = self;
        match line {
            Item::Entry(e) => {
                let yes = told.entry(e)?;
                Ok(told.go_on(yes))
            }
            Item::Node(n) => {
                let yes = told.node(alloc, n)?;
                Ok(told.go_on(yes))
            }
            Item::Digest(d) => {
                let yes = told.digest(d)?;
                Ok(told.go_on(yes))
            }
            Item::End => Ok(told.end()),
            _ => Ok(None),
        }
    }

    /// The value whose text was read.
    pub fn finish(self) -> Result<Kept, NoMemory>
        requires { IsWhole self }
        ensures parts { IfOk result (λ k. parts_of k ≡ whole_parts self) }
        ensures block { IfOk result (λ k. k.catalogue.block ≡ self.given.params.block) }
        ensures disks { IfOk result (λ k. k.catalogue.disks ≡ disk_count self.given.params) }
    {
        let Told {
            given,
            mut journals,
            current,
            digests,
        } = self;
        journals.push(current)?;
        given.finish(journals, digests)
    }
}
