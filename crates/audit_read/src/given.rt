//! What a run is given, as far as its lines were read.
ghost use Rattle.std.specs.Prelude.{◌≡◌, ◌↔◌, ◌+◌, ◌<◌, ◌≤◌, ◌++◌, ◌∷◌, [], None, IfOk, IfSome, OnOk, IsTrue, length, slice_get, if◌then◌else◌, Some, None};
ghost use Rattle.audit_text.specs.Texts.{parts_of};
ghost use Rattle.slot_plan.specs.Times.{disk_count};
ghost use Rattle.node_kit.specs.Courses.{ReturnsLater};
ghost use Rattle.audit_text.specs.declared.item.Item.TheVariants as item;
ghost use Rattle.audit_read.specs.Writable.{ReturnsIn, IsFault, IsFile, IsAskOf, IsOrder, MayBeOrdered, starts_in, last_beat, start_in};
ghost use Rattle.audit_read.specs.Drafts.{AdmitsDeath, GivenAdmits, given_with, padded, padded_with, opened, IsGiven, IsNext, parts_with};
ghost use Rattle.audit_read.specs.declared.draft.Draft.{Draft};
ghost use Rattle.audit_read.specs.declared.draft.Draft.TheVariants as draft;

use crate::draft::Draft;
use crate::entries::is_ask;
use crate::told::Told;
use audit_text::Item;
use link_timing::Delay;
use node_kit::{Course, Digest32, Journal, Kept, Order, OrderKind, ReadFault};
use slot_plan::{Params, Plan};
use std::alloc::Global;
use stripe_layout::{Catalogue, FileInfo};
use tiger_base::{Ask, Beat, CubNo, Micros, NoMemory, NodeNo, Sequence};

/// The lines of a run before its journals.
#[derive(Drop)]
pub struct Given {
    pub params: Params,
    pub beats: u64,
    pub delay: Delay,
    pub offsets: Sequence<Micros>,
    /// Of the cubs up to the last one that is said to die.
    pub deaths: Sequence<Option<Beat>>,
    /// How many messages each of them may still send in the beat of its death, if its death cuts it off there.
    pub cuts: Sequence<Option<u64>>,
    /// The beat in which each of them returns, if it does.
    pub backs: Sequence<Option<Beat>>,
    pub faults: Sequence<ReadFault>,
    pub files: Sequence<FileInfo>,
    pub orders: Sequence<Order>,
    /// How many of the orders are starts.
    pub starts: u64,
    /// The beat of the last order, and 0 before there is one.
    pub latest: Beat,
}

impl Given {
    /// A run of which only the lines are read that stand in each text.
    pub fn new(
        alloc: Global,
        params: Params,
        beats: u64,
        delay: Delay,
        offsets: Sequence<Micros>,
    ) -> Given
        ensures { result ≡ opened params beats delay offsets }
    {
        Given {
            params,
            beats,
            delay,
            offsets,
            deaths: Sequence::new(Vec::new(alloc)),
            cuts: Sequence::new(Vec::new(alloc)),
            backs: Sequence::new(Vec::new(alloc)),
            faults: Sequence::new(Vec::new(alloc)),
            files: Sequence::new(Vec::new(alloc)),
            orders: Sequence::new(Vec::new(alloc)),
            starts: 0,
            latest: 0,
        }
    }

    fn admits_death(&self, cub: CubNo, beat: Beat, back: Option<Beat>) -> bool
        ensures { IsTrue result ↔ AdmitsDeath self.now cub.0 beat back }
    {
        let cub = cub.0 as u64;
        self.faults.len() == 0
            && self.files.len() == 0
            && self.orders.len() == 0
            && self.deaths.len() as u64 <= cub
            && cub < self.params.cubs
            && beat < self.beats
            && returns_later(beat, back)
            && returns_in(self.beats, back)
    }

    /// Reads that a cub dies, if that may stand next.
    fn death(
        &mut self,
        cub: CubNo,
        beat: Beat,
        left: Option<u64>,
        back: Option<Beat>,
    ) -> Result<bool, NoMemory>
        ensures admits { IfOk result (λ yes.
            IsTrue yes ↔ AdmitsDeath self.old cub.0 beat back) }
        ensures with { IfOk result (λ yes.
            IsTrue yes → self.new ≡ given_with self.old (item.Death cub beat left back)) }
    {
        if !self.admits_death(cub, beat, back) {
            return Ok(false);
        }
        let cub = cub.0 as u64;
        say_of(&mut self.deaths, cub, Some(beat))?;
        say_of(&mut self.cuts, cub, left)?;
        say_of(&mut self.backs, cub, back)?;
        Ok(true)
    }

    fn admits_fault(&self, f: &ReadFault) -> bool
        ensures { IsTrue result ↔ GivenAdmits self.now (item.Fault f.now) }
    {
        let disks = self.params.cubs as u128 * self.params.disks as u128;
        self.files.len() == 0
            && self.orders.len() == 0
            && (f.disk.0 as u128) < disks
            && f.from < f.until
            && f.until <= self.beats
    }

    /// Reads a read fault, if that may stand next.
    fn fault(&mut self, f: ReadFault) -> Result<bool, NoMemory>
        ensures admits { IfOk result (λ yes.
            IsTrue yes ↔ GivenAdmits self.old (item.Fault f)) }
        ensures with { IfOk result (λ yes.
            IsTrue yes → self.new ≡ given_with self.old (item.Fault f)) }
    {
        if !self.admits_fault(&f) {
            return Ok(false);
        }
        self.faults.push(f)?;
        Ok(true)
    }

    fn admits_file(&self, f: &FileInfo) -> bool
        ensures { IsTrue result ↔ GivenAdmits self.now (item.File f.now) }
    {
        let disks = self.params.cubs as u128 * self.params.disks as u128;
        self.orders.len() == 0
            && self.files.len() < 4294967295
            && 1 <= f.len
            && (f.disk.0 as u128) < disks
    }

    /// Reads a file of the catalogue, if that may stand next.
    fn file(&mut self, f: FileInfo) -> Result<bool, NoMemory>
        ensures admits { IfOk result (λ yes.
            IsTrue yes ↔ GivenAdmits self.old (item.File f)) }
        ensures with { IfOk result (λ yes.
            IsTrue yes → self.new ≡ given_with self.old (item.File f)) }
    {
        if !self.admits_file(&f) {
            return Ok(false);
        }
        self.files.push(f)?;
        Ok(true)
    }

    /// Whether the start is of a file that is there, with the file's number of blocks and its first disk.
    fn is_ask_of(&self, ask: &Ask) -> bool
        requires { 1 ≤ self.now.params.block }
        ensures { IsTrue result
            ↔ IsAskOf self.now.params ask.now (slice_get self.now.files ask.now.file.0) }
    {
        match self.files.get(ask.file.0 as usize) {
            Some(f) => ask.count == f.len.div_ceil(self.params.block) && ask.disk == f.disk,
            None => false,
        }
    }

    fn may_be_ordered(&self, what: &OrderKind) -> bool
        requires block { 1 ≤ self.now.params.block }
        requires starts { self.now.starts ≡ starts_in self.now.orders }
        ensures { IsTrue result
            ↔ MayBeOrdered self.now.params self.now.files self.now.orders what.now }
    {
        match what {
            OrderKind::Begin(ask) => {
                ask.instance.0 as u64 == self.starts && self.is_ask_of(ask) && is_ask(ask)
            }
            OrderKind::Finish(instance) => (instance.0 as u64) < self.starts,
        }
    }

    fn admits_order(&self, o: &Order) -> bool
        requires { IsGiven self.now }
        ensures { IsTrue result ↔ GivenAdmits self.now (item.Order o.now) }
    {
        o.beat < self.beats && self.latest <= o.beat && self.may_be_ordered(&o.what)
    }

    /// Reads an order, if it may stand next.
    fn order(&mut self, o: Order) -> Result<bool, NoMemory>
        requires { IsGiven self.old }
        ensures admits { IfOk result (λ yes.
            IsTrue yes ↔ GivenAdmits self.old (item.Order o)) }
        ensures with { IfOk result (λ yes.
            IsTrue yes → self.new ≡ given_with self.old (item.Order o)) }
    {
        if !self.admits_order(&o) {
            return Ok(false);
        }
        self.orders.push(o)?;
        if let OrderKind::Begin(ask) = o.what {
            self.starts = ask.instance.0 as u64 + 1;
        }
        self.latest = o.beat;
        Ok(true)
    }

    /// What was read, if the line was read that came.
    fn go_on(self, yes: bool) -> Option<Draft>
        ensures { result ≡ (if yes then Some (draft.Given self) else None) }
    {
        if yes { Some(Draft::Given(self)) } else { None }
    }

    /// Begins the journals, if this is the first node.
    fn begin(self, alloc: Global, n: NodeNo) -> Option<Draft>
        ensures { IsNext (draft.Given self) (item.Node n) result }
    {
        if n.0 == 0 {
            Some(Draft::Told(Told::new(alloc, self)))
        } else {
            None
        }
    }

    /// What was read with this line, if it may stand next.
    pub fn take(self, alloc: Global, line: Item) -> Result<Option<Draft>, NoMemory>
        requires { IsGiven self }
        ensures { IfOk result (λ o. IsNext (draft.Given self) line o) }
    {
        let mut given = self;
        match line {
            Item::Death {
                cub,
                beat,
                left,
                back,
            } => {
                let yes = given.death(cub, beat, left, back)?;
                Ok(given.go_on(yes))
            }
            Item::Fault(f) => {
                let yes = given.fault(f)?;
                Ok(given.go_on(yes))
            }
            Item::File(f) => {
                let yes = given.file(f)?;
                Ok(given.go_on(yes))
            }
            Item::Order(o) => {
                let yes = given.order(o)?;
                Ok(given.go_on(yes))
            }
            Item::Node(n) => Ok(given.begin(alloc, n)),
            _ => Ok(None),
        }
    }

    /// The value of a text with these lines, journals and digests.
    pub fn finish(
        self,
        journals: Sequence<Journal>,
        digests: Sequence<Digest32>,
    ) -> Result<Kept, NoMemory>
        requires { IsGiven self }
        ensures parts { IfOk result (λ k. parts_of k ≡ parts_with self journals digests) }
        ensures block { IfOk result (λ k. k.catalogue.block ≡ self.params.block) }
        ensures disks { IfOk result (λ k. k.catalogue.disks ≡ disk_count self.params) }
    {
        let mut given = self;
        pad(&mut given.deaths, given.params.cubs)?;
        pad(&mut given.cuts, given.params.cubs)?;
        pad(&mut given.backs, given.params.cubs)?;
        let params = given.params;
        Ok(Kept {
            course: Course {
                plan: Plan { params },
                beats: given.beats,
                offsets: given.offsets,
                deaths: given.deaths,
                cuts: given.cuts,
                backs: given.backs,
                faults: given.faults,
                delay: given.delay,
            },
            catalogue: Catalogue {
                files: given.files,
                block: params.block,
                disks: (params.cubs * params.disks) as u32,
            },
            orders: given.orders,
            journals,
            digests,
        })
    }
}

/// Whether who dies in this beat returns two beats later or more, if it does.
fn returns_later(death: Beat, back: Option<Beat>) -> bool
    ensures { IsTrue result ↔ ReturnsLater (Some death) back }
{
    match back {
        Some(back) => death as u128 + 2 <= back as u128,
        None => true,
    }
}

/// Whether who returns does so in one of so many beats.
fn returns_in(beats: Beat, back: Option<Beat>) -> bool
    ensures { IsTrue result ↔ ReturnsIn beats back }
{
    match back {
        Some(back) => back < beats,
        None => true,
    }
}

/// Says nothing of each cub that was not told of, up to this number.
pub fn pad(row: &mut Sequence<Option<u64>>, count: u64) -> Result<(), NoMemory>
    ensures { OnOk result (row.new ≡ padded row.old count) }
{
    let missing = count.saturating_sub(row.len() as u64);
    for n in 0..missing {
        row.push(None)?;
    }
    Ok(())
}

/// Says this of a cub, and nothing of those before it that were not told of.
fn say_of(row: &mut Sequence<Option<u64>>, cub: u64, value: Option<u64>) -> Result<(), NoMemory>
    ensures { OnOk result (row.new ≡ padded_with row.old cub value) }
{
    pad(row, cub)?;
    row.push(value)
}
