//! That the numbers of a kept value lie in the ranges of their types. Nothing is done here but that they are read: what
//! is read, or passed by value, is known to be in its type's range.
ghost use Rattle.std.specs.Prelude.{◌<◌, IfSome};
ghost use Rattle.std.specs.List.{AllByRecursion};
ghost use Rattle.audit_text.specs.Fields.{params_fields};
ghost use Rattle.audit_text.specs.Fits.{DigestFits, IsLong, ItemFits};
ghost use Rattle.audit_text.specs.declared.item.Item.TheVariants as item;
ghost use Rattle.journal_promises.specs.Numbers.{AreEntriesFit, HasNumbers};

use link_timing::Delay;
use node_kit::{Digest32, Entry, Journal, Kept, Order, ReadFault};
use slot_plan::Params;
use stripe_layout::FileInfo;

fn long_fits(n: u64)
    ensures { IsLong n }
{}

fn longs_fit(ns: &[u64])
    ensures { AllByRecursion IsLong ns.now }
{
    for n in ns {
        long_fits(*n);
    }
}

fn params_fit(p: Params)
    ensures { AllByRecursion IsLong (params_fields p) }
{}

fn delay_fits(delay: Delay)
    ensures { ItemFits (item.Delay delay) }
{}

fn fault_fits(f: ReadFault)
    ensures { ItemFits (item.Fault f) }
{}

fn faults_fit(faults: &[ReadFault])
    ensures { AllByRecursion (λ f. ItemFits (item.Fault f)) faults.now }
{
    for f in faults {
        fault_fits(*f);
    }
}

fn file_fits(f: FileInfo)
    ensures { ItemFits (item.File f) }
{}

fn files_fit(files: &[FileInfo])
    ensures { AllByRecursion (λ f. ItemFits (item.File f)) files.now }
{
    for f in files {
        file_fits(*f);
    }
}

fn order_fits(o: Order)
    ensures { ItemFits (item.Order o) }
{}

fn orders_fit(orders: &[Order])
    ensures { AllByRecursion (λ o. ItemFits (item.Order o)) orders.now }
{
    for o in orders {
        order_fits(*o);
    }
}

fn entry_fits(e: Entry)
    ensures { ItemFits (item.Entry e) }
{}

fn entries_fit(journal: &[Entry])
    ensures { AreEntriesFit journal.now }
{
    for e in journal {
        entry_fits(*e);
    }
}

fn journals_fit(journals: &[Journal])
    ensures { AllByRecursion AreEntriesFit journals.now }
{
    for journal in journals {
        entries_fit(journal.as_slice());
    }
}

fn byte_fits(b: u8)
    ensures { b < 256 }
{}

fn bytes_fit(bytes: &[u8])
    ensures { AllByRecursion (λ b. b < 256) bytes.now }
{
    for b in bytes {
        byte_fits(*b);
    }
}

fn digest_fits(d: &Digest32)
    ensures { DigestFits d.now }
{
    bytes_fit(d.0.as_slice());
}

fn digests_fit(digests: &[Digest32])
    ensures { AllByRecursion (λ d. ItemFits (item.Digest d)) digests.now }
{
    for d in digests {
        digest_fits(d);
    }
}

fn kept_fits(kept: &Kept)
    ensures { HasNumbers kept.now }
{
    params_fit(kept.course.plan.params);
    delay_fits(kept.course.delay);
    longs_fit(kept.course.offsets.as_slice());
    faults_fit(kept.course.faults.as_slice());
    files_fit(kept.catalogue.files.as_slice());
    orders_fit(kept.orders.as_slice());
    journals_fit(kept.journals.as_slice());
    digests_fit(kept.digests.as_slice());
}

/// Reads all numbers of what is kept, if anything is, but for those of deaths.
pub fn numbers_fit(kept: &Option<Kept>)
    ensures { IfSome kept.now HasNumbers }
{
    if let Some(kept) = kept {
        kept_fits(kept);
    }
}
