//! The node of the viewers.
ghost use Rattle.std.specs.Prelude.{◌≡◌, [], OnOk};
ghost use Rattle.viewer_core.specs.Parts.{part_under, with_part};
ghost use Rattle.viewer_core.specs.Rules.{keeping};
ghost use Rattle.viewer_core.specs.Came.{first_came};

use node_kit::{Node, Outbox};
use std::alloc::Global;
use std::marker::Model;
use tiger_base::{Instance, LinkNo, Msg, NoMemory, Part, Stamp, Visit, Want};

/// What a part was asked for: an instance, a visit, and a piece, which is 0 for a whole block.
#[derive(Clone, Copy, Debug, PartialEq, Eq, PartialOrd, Ord)]
pub struct Key {
    pub instance: Instance,
    pub visit: Visit,
    pub piece: u32,
}

/// The viewers, seen as the parts that they keep, in the order of their keys.
#[derive(Drop)]
pub struct Viewers<'a> {
    // All that came, in its order. Each part is written behind the last one, which is in the cache:
    // in a table by key it would go to a page that was last touched a block play time ago.
    came: Vec<(Key, Part<'a>)>,
}

impl<'a> Model for Viewers<'a> {
    ghost use Rattle.viewer_core.specs.Parts.{KeptParts};
    ghost use Rattle.viewer_core.specs.Came.{kept_of};

    ghost Value = { KeptParts };

    ghost view = { λ v. kept_of v.came.items };
}

impl<'a> Viewers<'a> {
    /// Viewers who have got nothing yet. It takes no memory.
    pub fn new(alloc: Global) -> Viewers<'a>
        ensures { result ≡ [] }
    {
        Viewers {
            came: Vec::new(alloc),
        }
    }

    /// The first part that came for an instance, a visit and a piece, which is 0 for the whole block.
    /// `None` exactly where no such part came. It goes through all that came: no step of a run asks.
    #[tactic(auto, using(crate::proofs::Keeping::kept_first))]
    pub fn part_of(&self, instance: Instance, visit: Visit, piece: u32) -> Option<Part<'a>>
        ensures { result ≡
            part_under (record { instance = instance; visit = visit; piece = piece }) self.now }
    {
        let key = Key {
            instance,
            visit,
            piece,
        };
        first_of(&self.came, key)
    }

    /// Keeps a part behind those that came: of several under one key the first counts.
    #[tactic(auto, using(std::proofs::lemmas::List::Sums::fold_push))]
    fn keep(&mut self, key: Key, part: Part<'a>) -> Result<(), NoMemory>
        ensures { OnOk result (self.new ≡ with_part key part.entry self.old) }
    {
        self.came.push((key, part))?;
        Ok(())
    }

    /// Takes a message.
    #[tactic(auto, unfolding(crate::specs::Rules::keeping))]
    pub(crate) fn hear(&mut self, msg: Msg<'a>) -> Result<(), NoMemory>
        ensures { OnOk result (self.new ≡ keeping msg.entry self.old) }
    {
        match msg {
            Msg::Whole { want, part, .. } => self.keep(key_of(&want), part),
            Msg::Piece { want, part, .. } => self.keep(key_of(&want), part),
            _ => Ok(()),
        }
    }
}

/// The first part that came under a key.
fn first_of<'a>(came: &[(Key, Part<'a>)], key: Key) -> Option<Part<'a>>
    ensures { result ≡ first_came key came.now }
{
    for entry in came {
        if entry.0 == key {
            return Some(entry.1.again());
        }
    }
    None
}

ghost use Rattle.viewer_core.specs.Parts.{key_of};

/// The key of what was asked.
fn key_of(want: &Want) -> Key
    ensures { result ≡ key_of want.now }
{
    Key {
        instance: want.instance,
        visit: want.visit,
        piece: want.piece,
    }
}

impl<'a> Node<Msg<'a>> for Viewers<'a> {
    ghost use Rattle.viewer_core.specs.Parts.{AreViewers};
    ghost use Rattle.viewer_core.specs.Rules.{viewers_step};

    ghost step = { viewers_step };

    ghost stands_at = { AreViewers };

    fn rests(&self, _stamp: Stamp) -> bool {
        true
    }

    fn take(
        &mut self,
        _stamp: Stamp,
        _link: LinkNo,
        msg: Msg<'a>,
        _out: &mut Outbox<Msg<'a>>,
    ) -> Result<(), NoMemory> {
        self.hear(msg)
    }

    fn tick(&mut self, _stamp: Stamp, _out: &mut Outbox<Msg<'a>>) -> Result<(), NoMemory> {
        Ok(())
    }
}
