//! A cub as a node.
ghost use Rattle.std.specs.Prelude.{◌≡◌, ◌≤◌, ◌<◌, None, OnOk};
ghost use Rattle.tiger_base.specs.Limits.{most_reading};
ghost use Rattle.node_kit.specs.Deeds.{Did};
ghost use Rattle.cub_rules.specs.State.{opening_store};
ghost use Rattle.cub_rules.specs.Messages.{taking};
ghost use Rattle.cub_rules.specs.Cubs.{on_cub, ticked_cub, ending};

use crate::ticking::end;
use cub_messages::hear;
use cub_rules::Store;
use node_kit::{Node, Outbox, Site};
use partial_view::View;
use slot_plan::Plan;
use std::alloc::Global;
use std::marker::Model;
use tiger_base::{Beat, CubNo, LinkNo, Micros, Msg, NoMemory, Stamp};

/// A cub of a plan, seen as its plan's numbers, its own number, what it keeps, and the beat of its last tick.
///
/// If it runs out of memory it keeps nothing from then on.
#[derive(Drop)]
pub struct Cub<'a> {
    alloc: Global,
    site: Site,
    store: Store<'a>,
    last: Option<Beat>,
}

impl<'a> Model for Cub<'a> {
    ghost use Rattle.cub_rules.specs.State.{CubState, IsStoreOf};

    ghost Value = { CubState };

    ghost view = { λ c. record { params = c.site.plan.params; cub = c.site.cub.0; store = c.store; last = c.last } };

    ghost invariant = { λ c. IsStoreOf c.site.plan.params c.site.cub.0 c.store };
}

impl<'a> Cub<'a> {
    /// A cub that keeps nothing yet, whose predecessor was last heard at a reading. It takes no memory.
    pub fn new(alloc: Global, plan: &Plan, cub: CubNo, heard: Micros) -> Cub<'a>
        requires inside { cub.0 < plan.now.params.cubs }
        requires heard { heard ≤ most_reading }
        ensures { result ≡ record {
          params = plan.now.params;
          cub = cub.0;
          store = opening_store plan.now.params heard;
          last = None;
        } }
    {
        Cub {
            alloc,
            site: Site { plan: *plan, cub },
            store: Store::new(alloc, plan, heard),
            last: None,
        }
    }

    /// Its records of visits, to be read.
    pub fn view(&self) -> &View
        ensures { result.now ≡ self.now.store.view }
    {
        self.store.view.view()
    }

    /// Takes a message that came on a link.
    pub fn take_in(
        &mut self,
        stamp: Stamp,
        link: LinkNo,
        msg: Msg<'a>,
        out: &mut Outbox<Msg<'a>>,
    ) -> Result<(), NoMemory>
        requires { stamp.reading ≤ most_reading }
        ensures { let s = self.old in
            OnOk result (Did (on_cub s (taking s.params s.cub stamp link msg.entry s.store))
            out.old out.new self.new) }
    {
        let done = hear(&self.site, stamp, link, msg, &mut self.store, out);
        // After an error nothing is known of the store; an empty one is a cub's.
        if done.is_err() {
            empty(self.alloc, &self.site, stamp.reading, &mut self.store);
        }
        done
    }

    /// Ends a beat. If the cub has not ticked in the beat before, it comes back by this tick.
    pub fn end_beat(&mut self, stamp: Stamp, out: &mut Outbox<Msg<'a>>) -> Result<(), NoMemory>
        requires { stamp.reading ≤ most_reading }
        ensures { let s = self.old in
            OnOk result (Did (ticked_cub s stamp.beat (ending s.params s.cub s.last stamp s.store))
            out.old out.new self.new) }
    {
        let done = end(
            self.alloc,
            &self.site,
            self.last,
            stamp,
            &mut self.store,
            out,
        );
        self.last = Some(stamp.beat);
        // After an error nothing is known of the store; an empty one is a cub's.
        if done.is_err() {
            empty(self.alloc, &self.site, stamp.reading, &mut self.store);
        }
        done
    }
}

/// Empties a store; the predecessor counts as heard at a reading.
// It stands apart, since a whole store that is made in its callers would have room in the frame of each event.
#[cold]
#[inline(never)]
fn empty<'a>(alloc: Global, site: &Site, heard: Micros, store: &mut Store<'a>)
    requires { heard ≤ most_reading }
    ensures { store.new ≡ opening_store site.now.plan.params heard }
{
    *store = Store::new(alloc, &site.plan, heard);
}

impl<'a> Node<Msg<'a>> for Cub<'a> {
    ghost use Rattle.cub_rules.specs.State.{IsCub};
    ghost use Rattle.cub_rules.specs.Cubs.{cub_step};

    ghost step = { cub_step };

    ghost stands_at = { IsCub };

    fn rests(&self, _stamp: Stamp) -> bool {
        false
    }

    fn take(
        &mut self,
        stamp: Stamp,
        link: LinkNo,
        msg: Msg<'a>,
        out: &mut Outbox<Msg<'a>>,
    ) -> Result<(), NoMemory> {
        self.take_in(stamp, link, msg, out)
    }

    fn tick(&mut self, stamp: Stamp, out: &mut Outbox<Msg<'a>>) -> Result<(), NoMemory> {
        self.end_beat(stamp, out)
    }
}
