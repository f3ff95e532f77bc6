//! The disks for which a start may wait: a short list of numbers.
ghost use Rattle.std.specs.Prelude.{◌≡◌, true, not, filter, OnOk};
ghost use Rattle.insert_queue.specs.Queues.{is_disk, has_disk, AllStay, AreFor};

use tiger_base::{Ask, DiskNo, NoMemory};

/// Whether a disk is one of these.
pub(crate) fn has_disk(disks: &[DiskNo], disk: DiskNo) -> bool
    ensures { result ≡ has_disk disks.now disk }
{
    disks.iter().any(|x| x.0 == disk.0)
}

/// Puts a disk in, unless it is there.
pub(crate) fn put_in(disks: &mut Vec<DiskNo>, disk: DiskNo) -> Result<(), NoMemory>
    ensures stay { AllStay disks.old.items disks.new.items }
    ensures ok { OnOk result (has_disk disks.new.items disk ≡ true) }
{
    if !has_disk(disks, disk) {
        disks.push(disk)?;
    }
    Ok(())
}

/// Puts the disk of each start in, unless it is there.
pub(crate) fn put_all_in(disks: &mut Vec<DiskNo>, asks: &[Ask]) -> Result<(), NoMemory>
    ensures stay { AllStay disks.old.items disks.new.items }
    ensures ok { OnOk result (AreFor disks.new.items asks.now) }
{
    for ask in asks {
        put_in(disks, ask.disk)?;
    }
    Ok(())
}

/// Takes a disk out.
pub(crate) fn take_out(disks: &mut Vec<DiskNo>, disk: DiskNo)
    ensures { disks.new.items ≡ filter (λ x. not (is_disk disk x)) disks.old.items }
{
    disks.retain(|x| x.0 != disk.0);
}
