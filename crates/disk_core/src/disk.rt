//! The node of a disk.
ghost use Rattle.std.specs.Prelude.{◌≡◌, ◌<◌, ◌*◌, OnOk};
ghost use Rattle.node_kit.specs.Deeds.{Did};
ghost use Rattle.disk_core.specs.Rules.{is_faulty, part_for, read_part, asked};

use disk_image::DiskImage;
use node_kit::{Gate, Node, Out, Outbox, ReadFault, disk_answer_link, msg_in_form};
use slot_plan::Plan;
use std::marker::Model;
use tiger_base::{Beat, DiskNo, LinkNo, Msg, NoMemory, Part, Sequence, Stamp, Want};

/// A disk, whose reads go through a gate. It is seen as its plan's numbers, its number, its image and
/// the read faults that it was given.
#[derive(Drop)]
pub struct DiskNode<'a, G> {
    plan: Plan,
    disk: DiskNo,
    image: &'a DiskImage<'a>,
    faults: Sequence<ReadFault>,
    gate: &'a G,
}

impl<'a, G> Model for DiskNode<'a, G> {
    ghost use Rattle.std.specs.Prelude.{◌<◌, ◌*◌};
    ghost use Rattle.disk_core.specs.State.{DiskState};

    ghost Value = { DiskState };

    ghost view = { λ d. record {
      params = d.plan.params;
      disk = d.disk.0;
      image = d.image.now;
      faults = d.faults;
    } };

    ghost invariant = { λ d. d.disk.0 < d.plan.params.cubs * d.plan.params.disks };
}

impl<'a, G: Gate> DiskNode<'a, G> {
    /// A disk of a plan, with what it holds, and with read faults, of which those of other disks do
    /// not touch it. It takes no memory.
    pub fn new(
        plan: &Plan,
        disk: DiskNo,
        image: &'a DiskImage<'a>,
        faults: Sequence<ReadFault>,
        gate: &'a G,
    ) -> DiskNode<'a, G>
        requires { disk.0 < plan.now.params.cubs * plan.now.params.disks }
        ensures { result ≡ record {
          params = plan.now.params;
          disk = disk.0;
          image = image.now;
          faults = faults;
        } }
    {
        DiskNode {
            plan: *plan,
            disk,
            image,
            faults,
            gate,
        }
    }

    /// What the disk gives in a beat for what is asked.
    #[tactic(auto, unfolding(crate::specs::Rules::read_part))]
    fn read(&self, beat: Beat, want: &Want) -> Option<Part<'a>>
        ensures { result ≡ read_part self.now beat want.now }
    {
        if is_faulty(self.faults.as_slice(), self.disk, beat) {
            return None;
        }
        part_for(self.image, want)
    }

    /// What the disk does with a message.
    #[tactic(auto, unfolding(crate::specs::Rules::asked))]
    pub(crate) fn hear(
        &mut self,
        stamp: Stamp,
        msg: Msg<'a>,
        out: &mut Outbox<Msg<'a>>,
    ) -> Result<(), NoMemory>
        ensures { OnOk result (Did (asked stamp msg.entry self.old) out.old out.new self.new) }
    {
        if !msg_in_form(&self.plan, &msg) {
            return Ok(());
        }
        match msg {
            Msg::ReadAsk(want) => {
                self.gate.before_read(self.disk);
                let part = self.read(stamp.beat, &want);
                let link = disk_answer_link(&self.plan, self.disk);
                out.push(Out::Send(link, Msg::ReadDone { want, part }))
            }
            _ => Ok(()),
        }
    }
}

/// Whether a beat lies in a read fault of a disk.
#[tactic(auto, unfolding(crate::specs::Rules::is_faulty))]
fn is_faulty(faults: &[ReadFault], disk: DiskNo, beat: Beat) -> bool
    ensures { result ≡ is_faulty faults.now disk.0 beat }
{
    faults.iter().any(|fault| fault.disk.0 == disk.0 && fault.from <= beat && beat < fault.until)
}

/// What an image has of what is asked.
#[tactic(auto, unfolding(crate::specs::Rules::part_for))]
fn part_for<'a>(image: &'a DiskImage<'a>, want: &Want) -> Option<Part<'a>>
    ensures { result ≡ part_for image.now want.now }
{
    if want.piece == 0 {
        image.read_block(want.file, want.block)
    } else {
        image.read_piece(want.file, want.block, want.piece)
    }
}

impl<'a, G: Gate> Node<Msg<'a>> for DiskNode<'a, G> {
    ghost use Rattle.disk_core.specs.State.{IsDisk};
    ghost use Rattle.disk_core.specs.Rules.{disk_step};

    ghost step = { disk_step };

    ghost stands_at = { IsDisk };

    fn rests(&self, _stamp: Stamp) -> bool {
        true
    }

    fn take(
        &mut self,
        stamp: Stamp,
        _link: LinkNo,
        msg: Msg<'a>,
        out: &mut Outbox<Msg<'a>>,
    ) -> Result<(), NoMemory> {
        self.hear(stamp, msg, out)
    }

    fn tick(&mut self, _stamp: Stamp, _out: &mut Outbox<Msg<'a>>) -> Result<(), NoMemory> {
        Ok(())
    }
}
