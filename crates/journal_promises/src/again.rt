//! What is made of the text that `journal` writes: it is read as what was kept, and judged with Yes.
ghost use Rattle.std.specs.Prelude.{◌≡◌, IfErr, IfOk};
ghost use Rattle.audit_read.specs.Writable.{IsWritable};
ghost use Rattle.audit_read.specs.declared.read.TextStop.TheVariants as stops;
ghost use Rattle.audit_text.specs.Texts.{text_of};
ghost use Rattle.audit_verdict.specs.Clauses.{MeetsAllClauses};
ghost use Rattle.journal_promises.specs.Promises.{IsYes};

use audit_read::{TextStop, read_kept};
use audit_verdict::{Judgement, judge};
use node_kit::Kept;
use std::alloc::Global;
use tiger_base::NoMemory;

/// Reads the text of what was kept, as `audit` does: that is what is read. `NoMemory` is the only error.
pub fn read_again(alloc: Global, kept: &Kept, bytes: &[u8]) -> Result<Kept, TextStop>
    requires writable { IsWritable kept.now }
    requires text { bytes.now ≡ text_of kept.now }
    ensures same { IfOk result (λ again. again ≡ kept.now) }
    ensures cause { IfErr result (λ stop. stop ≡ stops.NoMemory) }
{
    read_kept(alloc, bytes)
}

/// Judges what was kept, as `audit` does: the answer is Yes. `NoMemory` is the only error.
pub fn judge_again(alloc: Global, kept: &Kept) -> Result<Judgement, NoMemory>
    requires writable { IsWritable kept.now }
    requires clauses { MeetsAllClauses kept.now }
    ensures { IfOk result IsYes }
{
    judge(alloc, kept)
}
