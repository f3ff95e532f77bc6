//! The blocks and pieces that messages carry.
ghost use Rattle.std.specs.Prelude.{◌≡◌};
ghost use Rattle.node_kit.specs.Links.{links_of, viewers_of};
ghost use Rattle.audit_frame.specs.Lines.{noted_line};
ghost use Rattle.audit_blocks.specs.Cargo.{cargo_in, cargo_sent, cargo_got};

use crate::receipts::Receipt;
use audit_frame::Line;
use node_kit::{LinkTable, What};
use slot_plan::Plan;
use tiger_base::{LinkNo, NodeNo, Note};

/// A message with bytes of a block, and whether it is a whole block.
#[derive(Clone, Copy, Debug, PartialEq, Eq)]
pub struct Cargo {
    pub whole: bool,
    pub receipt: Receipt,
}

/// Whether it is a whole block.
pub fn is_whole(cargo: &Cargo) -> bool
    ensures { result ≡ cargo.now.whole }
{
    cargo.whole
}

/// What a message carries of a block, if it does.
fn cargo_in(link: LinkNo, note: &Note) -> Option<Cargo>
    ensures { result ≡ cargo_in link note.now }
{
    match note {
        Note::Whole { want, sent, part } => Some(Cargo {
            whole: true,
            receipt: Receipt {
                link,
                want: *want,
                sent: *sent,
                part: *part,
            },
        }),
        Note::Piece { want, sent, part } => Some(Cargo {
            whole: false,
            receipt: Receipt {
                link,
                want: *want,
                sent: *sent,
                part: *part,
            },
        }),
        _ => None,
    }
}

/// What is sent of a block in an entry.
pub fn cargo_sent(what: &What) -> Option<Cargo>
    ensures { result ≡ cargo_sent what.now }
{
    match what {
        What::Sent(link, note) => cargo_in(*link, note),
        _ => None,
    }
}

/// What the viewers get of a block in an entry.
pub fn cargo_got<'a>(plan: &Plan, line: &Line<'a>) -> Option<Cargo>
    ensures { result ≡ cargo_got plan.now.params (noted_line line.now) }
{
    if line.node != viewers_in(plan) {
        return None;
    }
    match line.entry.what {
        What::Got(link, note) => cargo_in(link, &note),
        _ => None,
    }
}

/// The node of the viewers.
fn viewers_in(plan: &Plan) -> NodeNo
    ensures { result.0 ≡ viewers_of (links_of plan.now.params) }
{
    let links = LinkTable::new(plan);
    links.viewers()
}
