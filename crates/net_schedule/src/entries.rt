//! Lists of entries by instance: those that were asked of a cub, and those that it keeps quanta for.
ghost use Rattle.std.specs.Prelude.{◌≡◌, OnOk, OnErr, find, filter, not, take, drop, ◌++◌, ◌∷◌};
ghost use Rattle.net_schedule.specs.Cubs.{is_of, is_for, is_kept, put_in, number_of, with_state};

use crate::ring::{Entry, NetState, Own};
use tiger_base::{Instance, NoMemory};

/// The entry that was asked for with an instance.
pub(crate) fn found(own: &[Own], v: Instance) -> Option<Own>
    ensures { result ≡ find (is_of v) own.now }
{
    own.iter().find(|o| o.entry.instance.0 == v.0).copied()
}

/// The entry of an instance that is kept.
pub(crate) fn found_kept(kept: &[Entry], v: Instance) -> Option<Entry>
    ensures { result ≡ find (is_for v) kept.now }
{
    kept.iter().find(|e| e.instance.0 == v.0).copied()
}

/// Whether an entry of an instance is kept.
pub(crate) fn is_kept(kept: &[Entry], v: Instance) -> bool
    ensures { result ≡ is_kept kept.now v }
{
    kept.iter().any(|e| e.instance.0 == v.0)
}

/// Puts the entry of an instance into another state.
pub(crate) fn set_state(own: &mut Vec<Own>, v: Instance, state: NetState)
    ensures { own.new.items ≡ with_state v state own.old.items }
{
    for place in 0..own.len() {
        let o = &mut own[place];
        if o.entry.instance.0 == v.0 {
            o.state = state;
            return;
        }
    }
}

/// Puts an entry in before the first of a greater instance. Without memory nothing changes.
pub(crate) fn put_own(own: &mut Vec<Own>, new: Own) -> Result<(), NoMemory>
    ensures ok { OnOk result (own.new.items ≡ put_in number_of new own.old.items) }
    ensures err { OnErr result (own.new.items ≡ own.old.items) }
{
    for place in 0..own.len() {
        if new.entry.instance.0 < own[place].entry.instance.0 {
            own.insert(place, new)?;
            return Ok(());
        }
    }
    own.push(new)?;
    Ok(())
}

/// Puts an entry that is kept in before the first of a greater instance. Without memory nothing changes.
pub(crate) fn put_kept(kept: &mut Vec<Entry>, new: Entry) -> Result<(), NoMemory>
    ensures ok { OnOk result (kept.new.items ≡ put_in (λ e. e.instance.0) new kept.old.items) }
    ensures err { OnErr result (kept.new.items ≡ kept.old.items) }
{
    for place in 0..kept.len() {
        if new.instance.0 < kept[place].instance.0 {
            kept.insert(place, new)?;
            return Ok(());
        }
    }
    kept.push(new)?;
    Ok(())
}

/// Drops what is kept of an instance.
pub(crate) fn drop_kept(kept: &mut Vec<Entry>, v: Instance)
    ensures { kept.new.items ≡ filter (λ e. not (is_for v e)) kept.old.items }
{
    let number = v.0;
    kept.retain(|e| e.instance.0 != number);
}
