//! What stands at a place of a journal, of the journals or of the orders.
ghost use Rattle.std.specs.Prelude.{◌≡◌, ◌<◌, Some, length, slice_get, slice_index_or};
ghost use Rattle.node_kit.specs.declared.course.Order.{Order};
ghost use Rattle.node_kit.specs.declared.journal.Entry.{Entry};

use node_kit::{Entry, Journal, Order};

/// The entry at a place of a journal.
pub(crate) fn entry_at(journal: &[Entry], i: usize) -> Entry
    requires { i < length journal.now }
    ensures { (d : Entry) → slice_index_or journal.now i d ≡ result }
{
    journal[i]
}

/// The order at a place.
pub(crate) fn order_at(orders: &[Order], i: usize) -> Order
    requires { i < length orders.now }
    ensures { (d : Order) → slice_index_or orders.now i d ≡ result }
{
    orders[i]
}

/// The journal at a place, lent as a slice.
pub(crate) fn journal_at<'a>(journals: &'a [Journal], n: usize) -> &'a [Entry]
    requires { n < length journals.now }
    ensures { slice_get journals.now n ≡ Some result.now }
{
    journals[n].as_slice()
}
