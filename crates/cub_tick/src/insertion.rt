//! Insertion: starts that wait are put into free visits.
ghost use Rattle.std.specs.Prelude.{◌≡◌, ◌≤◌, ◌<◌, [], ◌∷◌, ◌++◌, true, OnOk, IfOk, IfErr};
ghost use Rattle.std.specs.List.{AllByRecursion};
ghost use Rattle.std.specs.Option.{ForSome};
ghost use Rattle.std.specs.Result.{result_ok};
ghost use Rattle.tiger_base.specs.Limits.{most_reading};
ghost use Rattle.node_kit.specs.Deeds.{Did, each_in_turn};
ghost use Rattle.partial_view.specs.Free.{HasEntered};
ghost use Rattle.partial_view.specs.Lines.{visit_of};
ghost use Rattle.slot_plan.specs.Keys.{IsKey};
ghost use Rattle.slot_plan.specs.Times.{disk_count};
ghost use Rattle.cub_rules.specs.State.{IsStoreOf, IsAsk};
ghost use Rattle.cub_rules.specs.Records.{took};
ghost use Rattle.cub_rules.specs.Ticks.{inserting, inserting_all, free_on, putting_on, disks_at, putting, putting_own, putting_for_dead, tenancy_from, told_placed};
ghost use Rattle.cub_tick.specs.Placing.{putting_by, WaitForFull};

use cub_rules::Store;
use node_kit::{Out, Outbox, Site, What};
use partial_view::Added;
use slot_owner::free_visit;
use tiger_base::{
    Ask, CubNo, DiskNo, Kind, Micros, Msg, NoMemory, Rec, SlotNo, Stamp, State, Tenancy, Visit,
};

/// Insertion: the starts that wait are put, but not by a cub that came back. After `NoMemory` nothing is claimed.
#[tactic(auto, unfolding(cub_rules::specs::Ticks::inserting))]
pub fn insert<'a>(
    site: &Site,
    stamp: Stamp,
    store: &mut Store<'a>,
    out: &mut Outbox<Msg<'a>>,
) -> Result<(), NoMemory>
    requires reading { stamp.reading ≤ most_reading }
    requires stored { IsStoreOf site.now.plan.params site.now.cub.0 store.old }
    ensures { OnOk result (Did
        (inserting site.now.plan.params site.now.cub.0 stamp store.old)
        out.old out.new store.new) }
{
    if store.comeback.is_some() {
        return Ok(());
    }
    insert_all(site, stamp, store, out)
}

/// On each disk of the cub's own and then, if the predecessor is believed dead, on each of that one's disks, the starts
/// that wait are put, the oldest first, each into the first visit that is free.
#[tactic(auto, unfolding(cub_rules::specs::Ticks::inserting_all))]
fn insert_all<'a>(
    site: &Site,
    stamp: Stamp,
    store: &mut Store<'a>,
    out: &mut Outbox<Msg<'a>>,
) -> Result<(), NoMemory>
    requires reading { stamp.reading ≤ most_reading }
    requires stored { IsStoreOf site.now.plan.params site.now.cub.0 store.old }
    ensures { OnOk result (Did
        (inserting_all site.now.plan.params site.now.cub.0 stamp store.old)
        out.old out.new store.new) }
{
    // Most ticks end here: no start waits, or those that do wait for full disks.
    if !store.starts.waits() || all_full(store, stamp.reading) {
        return Ok(());
    }
    put_at(site, stamp.reading, site.cub, Kind::Own, store, out)?;
    if store.believes && !all_full(store, stamp.reading) {
        put_at(
            site,
            stamp.reading,
            site.predecessor(),
            Kind::Backup,
            store,
            out,
        )?;
    }
    Ok(())
}

/// Puts starts on each disk of a cub.
fn put_at<'a>(
    site: &Site,
    reading: Micros,
    cub: CubNo,
    kind: Kind,
    store: &mut Store<'a>,
    out: &mut Outbox<Msg<'a>>,
) -> Result<(), NoMemory>
    requires reading { reading ≤ most_reading }
    requires cub { cub.0 < site.now.plan.params.cubs }
    requires plan { store.old.view.params ≡ site.now.plan.params }
    requires asks { AllByRecursion IsAsk store.old.starts.waiting }
    ensures did { let p = site.now.plan.params in
        let put_on_disk = putting_on (putting_by kind p site.now.cub.0) p reading in
        OnOk result (Did (each_in_turn put_on_disk (disks_at p cub.0) store.old)
        out.old out.new store.new) }
    ensures plan { OnOk result (store.new.view.params ≡ site.now.plan.params) }
    ensures asks { OnOk result (AllByRecursion IsAsk store.new.starts.waiting) }
{
    let p = &site.plan.params;
    for row in 0..p.disks {
        let disk = DiskNo((u64::from(cub.0) + row * p.cubs) as u32);
        put_on(site, reading, disk, kind, store, out)?;
    }
    Ok(())
}

/// Whether it is known of each disk for which a start waits that no visit of it is free.
fn all_full(store: &Store, reading: Micros) -> bool
    ensures { result ≡ true → WaitForFull reading store.now }
{
    for disk in store.starts.disks() {
        if !store.view.is_full(*disk, reading) {
            return false;
        }
    }
    true
}

/// Puts the starts that wait for a disk, as long as a visit of it is free. Once none is, the visits
/// are not looked at again until one may be, and then from behind those that are known to be taken;
/// once no start waits for the disk, the starts are not, until one does.
fn put_on<'a>(
    site: &Site,
    reading: Micros,
    disk: DiskNo,
    kind: Kind,
    store: &mut Store<'a>,
    out: &mut Outbox<Msg<'a>>,
) -> Result<(), NoMemory>
    requires reading { reading ≤ most_reading }
    requires disk { disk.0 < disk_count site.now.plan.params }
    requires plan { store.old.view.params ≡ site.now.plan.params }
    requires asks { AllByRecursion IsAsk store.old.starts.waiting }
    ensures did { let p = site.now.plan.params in
        let put_on_disk = putting_on (putting_by kind p site.now.cub.0) p reading in
        OnOk result (Did (put_on_disk disk.0 store.old) out.old out.new store.new) }
    ensures plan { OnOk result (store.new.view.params ≡ site.now.plan.params) }
    ensures asks { OnOk result (AllByRecursion IsAsk store.new.starts.waiting) }
{
    if store.view.is_full(disk, reading) {
        return Ok(());
    }
    while let Some(ask) = store.starts.next(disk) {
        let (slot, visit) = match free_on(site, reading, disk, store) {
            Ok(free) => free,
            Err(last) => {
                store.view.set_full(disk, reading, last);
                return Ok(());
            }
        };
        // The call tells that the instance has no other start.
        prove!(store.starts.is_asked(ask.instance));
        let tenancy = tenancy_from(ask, slot, visit);
        put(site, tenancy, kind, store, out)?;
    }
    store.starts.note_none(disk);
    Ok(())
}

/// The first visit of a disk that is free. An `Err` says that none is, and gives the last one of
/// those that are taken.
#[tactic(auto, unfolding(cub_rules::specs::Ticks::free_on))]
fn free_on<'a>(
    site: &Site,
    reading: Micros,
    disk: DiskNo,
    store: &Store<'a>,
) -> Result<(SlotNo, Visit), Option<(SlotNo, Visit)>>
    requires reading { reading ≤ most_reading }
    requires plan { store.now.view.params ≡ site.now.plan.params }
    ensures free { result_ok result ≡ free_on site.now.plan.params reading disk.0 store.now }
    ensures slot { IfOk result (λ k. k.0.0 < site.now.plan.params.slots) }
    ensures small { IfOk result (λ k. k.1 ≤ 2000000000) }
    ensures last { IfErr result (λ last. ForSome last (HasEntered site.now.plan.params reading)) }
{
    let taken_to = store.view.taken_to(disk, reading);
    free_visit(&site.plan, store.view.view(), reading, disk, taken_to)
}

/// The tenancy of a start from a visit on.
fn tenancy_from(ask: Ask, slot: SlotNo, visit: Visit) -> Tenancy
    requires count { IsAsk ask }
    requires visit { visit ≤ 2000000000 }
    ensures { result ≡ tenancy_from ask (slot, visit) }
{
    Tenancy {
        instance: ask.instance,
        file: ask.file,
        slot,
        first: visit,
        last: visit + (ask.count - 1),
    }
}

/// Puts a tenancy on one of the cub's own disks, or on one of its predecessor's.
fn put<'a>(
    site: &Site,
    tenancy: Tenancy,
    kind: Kind,
    store: &mut Store<'a>,
    out: &mut Outbox<Msg<'a>>,
) -> Result<(), NoMemory>
    requires slot { tenancy.slot.0 < site.now.plan.params.slots }
    requires visit { tenancy.first ≤ 2000000000 }
    requires plan { store.old.view.params ≡ site.now.plan.params }
    ensures { OnOk result (Did
        (putting_by kind site.now.plan.params site.now.cub.0 tenancy store.old)
        out.old out.new store.new) }
{
    match kind {
        Kind::Own => put_own(site, tenancy, store, out),
        Kind::Backup => put_for_dead(site, tenancy, store, out),
    }
}

/// Puts a tenancy on one of the cub's own disks.
#[tactic(auto, unfolding(cub_rules::specs::Ticks::putting_own))]
fn put_own<'a>(
    site: &Site,
    tenancy: Tenancy,
    store: &mut Store<'a>,
    out: &mut Outbox<Msg<'a>>,
) -> Result<(), NoMemory>
    requires slot { tenancy.slot.0 < site.now.plan.params.slots }
    requires visit { tenancy.first ≤ 2000000000 }
    requires plan { store.old.view.params ≡ site.now.plan.params }
    ensures { OnOk result (Did
        (putting_own site.now.plan.params site.now.cub.0 tenancy store.old)
        out.old out.new store.new) }
{
    start(tenancy, store, out)?;
    take(Rec::own(tenancy, tenancy.first), store, out)?;
    let state = State {
        tenancy,
        visit: tenancy.first,
    };
    out.push(Out::Send(site.ahead(1), Msg::ViewerState(state)))?;
    tell_placed(site, tenancy, out)
}

/// Puts a tenancy on one of the predecessor's disks.
#[tactic(auto, unfolding(cub_rules::specs::Ticks::putting_for_dead))]
fn put_for_dead<'a>(
    site: &Site,
    tenancy: Tenancy,
    store: &mut Store<'a>,
    out: &mut Outbox<Msg<'a>>,
) -> Result<(), NoMemory>
    requires slot { tenancy.slot.0 < site.now.plan.params.slots }
    requires visit { tenancy.first ≤ 2000000000 }
    requires plan { store.old.view.params ≡ site.now.plan.params }
    ensures { OnOk result (Did
        (putting_for_dead site.now.plan.params site.now.cub.0 tenancy store.old)
        out.old out.new store.new) }
{
    start(tenancy, store, out)?;
    take(Rec::backup(tenancy, tenancy.first), store, out)?;
    if tenancy.first < tenancy.last {
        take(Rec::own(tenancy, tenancy.first + 1), store, out)?;
    }
    tell_placed(site, tenancy, out)
}

/// Tells the controller where an instance was put.
fn tell_placed<'a>(site: &Site, tenancy: Tenancy, out: &mut Outbox<Msg<'a>>) -> Result<(), NoMemory>
    ensures { OnOk result (out.new ≡ out.old
        ++ told_placed site.now.plan.params site.now.cub.0 tenancy ∷ []) }
{
    out.push(Out::Send(site.to_controller(), Msg::Placed(tenancy)))
}

/// Writes down that a tenancy is put; its start waits no more.
fn start<'a>(
    tenancy: Tenancy,
    store: &mut Store<'a>,
    out: &mut Outbox<Msg<'a>>,
) -> Result<(), NoMemory>
    ensures { OnOk result (Did (putting tenancy store.old) out.old out.new store.new) }
{
    store.starts.drop_instance(tenancy.instance);
    out.push(Out::Act(What::Put(tenancy)))
}

/// Takes a record, unless the view has one of its slot and visit.
#[tactic(auto, unfolding(cub_rules::specs::Records::took))]
fn take<'a>(rec: Rec, store: &mut Store<'a>, out: &mut Outbox<Msg<'a>>) -> Result<(), NoMemory>
    requires key { IsKey store.old.view.params (visit_of rec) }
    requires visit { rec.visit ≤ 2000000001 }
    ensures did { OnOk result (Did (took rec store.old) out.old out.new store.new) }
    ensures plan { OnOk result (store.new.view.params ≡ store.old.view.params) }
{
    if let Added::New = store.view.add(rec)? {
        out.push(Out::Act(What::Took(rec)))?;
    }
    Ok(())
}
