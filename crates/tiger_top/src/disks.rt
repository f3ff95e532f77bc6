//! The command `disks NAME IMAGE`.
ghost use Rattle.std.specs.Prelude.{◌≡◌, ◌+◌, ◌^◌, ◌≤◌};
ghost use Rattle.outside.specs.Written.{most_faults};
ghost use Rattle.file_disk.specs.Devices.{OpensOnly, most_counted};
ghost use Rattle.tiger_input.specs.Inputs.{most_earlier, most_reads};
ghost use Rattle.tiger_disks.specs.Ends.{OfInputs, InputEnd, DeviceEnd, SinkEnd, IsInputRefusal};
ghost use Rattle.tiger_top.specs.Statuses.{IfDisksStopped, IsDone, IsTopRefusal, status_of};
ghost use Rattle.tiger_top.specs.Ends.{AreStored};

use crate::status::TopStatus;
use file_disk::Device;
use outside::{Files, Sink};
use std::alloc::Global;
use tiger_disks::write_disks;

/// Stores the disks of a scenario in an image, and writes a line for each. An `Err` says why not all of that was done.
pub(crate) fn write_image<F: Files, K: Sink, V: Device>(
    alloc: Global,
    name: &str,
    image: &str,
    over: bool,
    files: &mut F,
    out: &mut K,
    dev: &mut V,
) -> Result<(), TopStatus>
    requires calls { (F.state files.old).counts.calls ≤ most_earlier }
    requires faults { (K.state out.old).faults ≤ most_faults }
    requires device_faults { (V.state dev.old).faults ≤ most_counted }
    requires device_reads { (V.state dev.old).reads ≤ 2 ^ 63 }
    requires refusals { (V.state dev.old).refusals ≤ most_counted }
    ensures done { let old = V.state dev.old in let out_old = K.state out.old in
        IsDone (status_of result) → OfInputs (F.state files.old) (F.state files.new) name.now
        (AreStored image.now old (V.state dev.new) out_old (K.state out.new)) }
    ensures input { let old = F.state files.old in IfDisksStopped
        (InputEnd name.now old (F.state files.new)) (status_of result) }
    ensures device { let old = F.state files.old in let dev_old = V.state dev.old in IfDisksStopped
        (DeviceEnd name.now image.now old (F.state files.new) over dev_old (V.state dev.new))
        (status_of result) }
    ensures names { OpensOnly image.now (V.state dev.old) (V.state dev.new) }
    ensures sink { let old = F.state files.old in let out_old = K.state out.old in IfDisksStopped
        (SinkEnd name.now old (F.state files.new) out_old (K.state out.new))
        (status_of result) }
    ensures untouched { IfDisksStopped (λ end. IsInputRefusal end →
        V.state dev.new ≡ V.state dev.old) (status_of result) }
    ensures silent { IsTopRefusal (status_of result) → out.new ≡ out.old }
    ensures same { (F.state files.new).told ≡ (F.state files.old).told }
    ensures few_calls { let old = F.state files.old in
        (F.state files.new).counts.calls ≤ old.counts.calls + most_reads }
    ensures one_fault { (K.state out.new).faults ≤ (K.state out.old).faults + 1 }
{
    write_disks(alloc, name, image, over, files, out, dev)?;
    Ok(())
}
