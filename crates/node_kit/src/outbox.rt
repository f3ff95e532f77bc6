//! What an event of a node puts out.
ghost use Rattle.std.specs.Prelude.{◌≡◌, ◌+◌, ◌≤◌, [], ◌∷◌, ◌++◌, OnOk, OnErr, MatchOption, take, drop, length};
ghost use Rattle.std.specs.VecDeque.{deque_len, deque_capacity};
ghost use Rattle.node_kit.specs.Outputs.{outputs, is_empty, with_death, ends_in_death, is_death, send_count, cut_at};

use crate::journal::What;
use std::alloc::Global;
use std::collections::VecDeque;
use std::marker::Model;
use tiger_base::{LinkNo, NoMemory};

/// One output: a message on a link, or an entry of the journal.
#[derive(Drop)]
pub enum Out<M> {
    Send(LinkNo, M),
    Act(What),
}

/// Outputs, in the order in which the journal takes them, seen as the list of them.
///
/// There is always room for one last output that says `Died`: a place of its own.
#[derive(Drop)]
pub struct Outbox<M> {
    outs: VecDeque<Out<M>>,
    died: bool,
}

impl<M> Model for Outbox<M> {
    ghost use Rattle.std.specs.Prelude.{List};
    ghost use Rattle.node_kit.specs.declared.outbox.Out.{Out};
    ghost use Rattle.node_kit.specs.Outputs.{outputs};

    ghost Value = { List (Out M) };

    ghost view = { λ o. outputs o.outs.items o.died };
}

impl<M> Outbox<M> {
    /// An outbox with no output.
    pub fn new(alloc: Global) -> Outbox<M>
        ensures { result ≡ [] }
    {
        Outbox {
            outs: VecDeque::new(alloc),
            died: false,
        }
    }

    /// Whether there is no output.
    pub fn is_empty(&self) -> bool
        ensures { result ≡ is_empty self.now }
    {
        self.outs.is_empty() && !self.died
    }

    /// Takes the first output out; `None` exactly where there is none.
    pub fn take_first(&mut self) -> Option<Out<M>>
        ensures { MatchOption result ((self.old ≡ []) × (self.new ≡ [])) (λ o. self.old ≡ o ∷ self.new) }
    {
        if let Some(output) = self.outs.pop_front() {
            return Some(output);
        }
        if self.died {
            self.died = false;
            return Some(Out::Act(What::Died));
        }
        None
    }

    /// Puts `Died` at the end, unless it stands there already. It takes no memory.
    pub fn end_in_death(&mut self)
        ensures { self.new ≡ with_death self.old }
    {
        if !self.ends_in_death() {
            self.died = true;
        }
    }

    fn ends_in_death(&self) -> bool
        ensures { result ≡ ends_in_death self.now }
    {
        if self.died {
            return true;
        }
        match self.outs.back() {
            Some(output) => is_death(output),
            None => false,
        }
    }
}

impl<M> Outbox<M> {
    /// How many of the outputs are messages.
    pub fn send_count(&self) -> u64
        ensures { result ≡ send_count self.now }
    {
        count_sends(&self.outs)
    }
}

impl<M: Drop> Outbox<M> {
    /// Cuts off all outputs from the message on that stands behind `sends` others, and the insertion
    /// whose state that message is. It takes no memory.
    pub fn cut(&mut self, sends: u64)
        ensures { self.new ≡ cut_at sends self.old }
    {
        let count = self.outs.len();
        let kept = kept_before(&self.outs, sends);
        self.outs.truncate(kept);
        self.died = self.died && kept == count;
    }
}

fn count_sends<M>(outs: &VecDeque<Out<M>>) -> u64
    ensures { result ≡ send_count outs.now.items }
{
    let mut count = 0;
    let mut i = 0;
    while i < outs.len() {
        if begins_send(outs, i) {
            count += 1;
        }
        i += 1;
    }
    count
}

/// How many outputs stand before the message behind `sends` others and before its insertion; all, if
/// there is no such message.
fn kept_before<M>(outs: &VecDeque<Out<M>>, sends: u64) -> usize
    ensures kept { take result outs.now.items ≡ cut_at sends outs.now.items }
    ensures inside { result ≤ length outs.now.items }
{
    let mut left = sends;
    let mut i = 0;
    while i < outs.len() {
        if left == 0 && begins_lost(outs, i) {
            return i;
        }
        if begins_send(outs, i) {
            left = left.saturating_sub(1);
        }
        i += 1;
    }
    i
}

ghost use Rattle.node_kit.specs.Outputs.{is_send, is_put, is_took_own, begins_send, begins_taking, begins_lost};

/// Whether a message is lost with output `i`: it is one, or it is the Put of an insertion that sends
/// its state.
#[tactic(auto, using(crate::proofs::Cutting::drop_first))]
fn begins_lost<M>(outs: &VecDeque<Out<M>>, i: usize) -> bool
    ensures { result ≡ begins_lost (drop i outs.now.items) }
{
    match outs.get(i) {
        Some(output) => is_send(output) || (is_put(output) && begins_taking(outs, i + 1)),
        None => false,
    }
}

/// Whether output `i` is an own record that is taken, and the next one a message.
#[tactic(auto, using(crate::proofs::Cutting::drop_first))]
fn begins_taking<M>(outs: &VecDeque<Out<M>>, i: usize) -> bool
    ensures { result ≡ begins_taking (drop i outs.now.items) }
{
    match outs.get(i) {
        Some(output) => is_took_own(output) && begins_send(outs, i + 1),
        None => false,
    }
}

#[tactic(auto, using(crate::proofs::Cutting::drop_first))]
fn begins_send<M>(outs: &VecDeque<Out<M>>, i: usize) -> bool
    ensures { result ≡ begins_send (drop i outs.now.items) }
{
    match outs.get(i) {
        Some(output) => is_send(output),
        None => false,
    }
}

fn is_send<M>(output: &Out<M>) -> bool
    ensures { result ≡ is_send output.now }
{
    matches!(output, Out::Send(..))
}

fn is_put<M>(output: &Out<M>) -> bool
    ensures { result ≡ is_put output.now }
{
    matches!(output, Out::Act(What::Put(..)))
}

fn is_took_own<M>(output: &Out<M>) -> bool
    ensures { result ≡ is_took_own output.now }
{
    match output {
        Out::Act(What::Took(rec)) => rec.kind.is_own(),
        _ => false,
    }
}

fn is_death<M>(output: &Out<M>) -> bool
    ensures { result ≡ is_death output.now }
{
    matches!(output, Out::Act(What::Died))
}

impl<M: Drop> Outbox<M> {
    /// Puts an output at the end; without memory for it, nothing changes.
    pub fn push(&mut self, output: Out<M>) -> Result<(), NoMemory>
        ensures ok { OnOk result (self.new ≡ self.old ++ output ∷ []) }
        ensures err { OnErr result (self.new ≡ self.old) }
    {
        if self.outs.capacity() == self.outs.len() || self.died {
            return push_slowly(&mut self.outs, &mut self.died, output);
        }
        // A push that may fail would move the output once more.
        self.outs.push_back_reserved(output);
        Ok(())
    }
}

/// Puts an output at the end, as `push` does, if there may be no room or the place of `Died` is taken.
// In `push` itself an output that is dropped for want of room would have each copy of one cut into pieces.
#[cold]
#[inline(never)]
fn push_slowly<M: Drop>(
    outs: &mut VecDeque<Out<M>>,
    died: &mut bool,
    output: Out<M>,
) -> Result<(), NoMemory>
    ensures ok { OnOk result (outputs outs.new.items died.new
        ≡ outputs outs.old.items died.old ++ output ∷ []) }
    ensures err { OnErr result (outputs outs.new.items died.new
        ≡ outputs outs.old.items died.old) }
{
    make_room(outs)?;
    if *died {
        outs.push_back_reserved(Out::Act(What::Died));
        *died = false;
    }
    outs.push_back_reserved(output);
    Ok(())
}

/// How many outputs one push puts at the end: `Died`, if its place is taken, and the output.
const MOST_PUT: usize = 2;

/// Makes room for what one push puts at the end.
#[cold]
#[inline(never)]
fn make_room<M: Drop>(outs: &mut VecDeque<Out<M>>) -> Result<(), NoMemory>
    ensures room { OnOk result (deque_len outs.new + 2 ≤ deque_capacity outs.new) }
    ensures same { outs.new.items ≡ outs.old.items }
{
    outs.reserve(MOST_PUT)?;
    Ok(())
}
