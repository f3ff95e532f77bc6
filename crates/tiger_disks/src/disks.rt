//! Reads a scenario and its files, and keeps its disks in an image.
ghost use Rattle.std.specs.Prelude.{◌≡◌, ◌+◌, ◌^◌, ◌≤◌, OnOk, IfErr};
ghost use Rattle.outside.specs.Written.{most_faults};
ghost use Rattle.file_disk.specs.Devices.{OpensOnly, most_counted};
ghost use Rattle.scenario_disks.specs.Images.{AreInImage, all_lines};
ghost use Rattle.tiger_input.specs.Inputs.{most_earlier, most_reads};
ghost use Rattle.tiger_input.specs.Ending.{IsWritten};
ghost use Rattle.tiger_disks.specs.Ends.{OfInputs, InputEnd, DeviceEnd, SinkEnd, IsInputRefusal, IsSilent};

use crate::status::DisksStatus;
use file_disk::Device;
use outside::{Files, Sink};
use scenario_disks::keep_disks;
use std::alloc::Global;
use tiger_input::{put_lines, read_inputs};

/// Reads the scenario of a name and its files, as `run` does, stores its disks in an image of the device, one behind the
/// other, reads each of their parts once, and writes a line for each disk. An `Err` says why not all of that was done.
pub fn write_disks<F: Files, K: Sink, V: Device>(
    alloc: Global,
    name: &str,
    image: &str,
    over: bool,
    files: &mut F,
    out: &mut K,
    dev: &mut V,
) -> Result<(), DisksStatus>
    requires calls { (F.state files.old).counts.calls ≤ most_earlier }
    requires faults { (K.state out.old).faults ≤ most_faults }
    requires device_faults { (V.state dev.old).faults ≤ most_counted }
    requires device_reads { (V.state dev.old).reads ≤ 2 ^ 63 }
    requires refusals { (V.state dev.old).refusals ≤ most_counted }

    // All was done: the scenario and its files were read, all of its disks are in the image of this name, each part was
    // read once and is as it was stored, and the lines of the disks were written.
    ensures done { let device = V.state dev.old in let out_old = K.state out.old in
        OnOk result (OfInputs (F.state files.old) (F.state files.new) name.now
        (λ disks. AreInImage image.now disks device (V.state dev.new)
        × IsWritten out_old (K.state out.new) (all_lines disks))) }

    // Why an input was refused: it is the first, in the order of work, that is not as it should be.
    ensures input { let old = F.state files.old in
        IfErr result (InputEnd name.now old (F.state files.new)) }

    // A device ends the command for its cause alone: one of its calls failed, which it counts; the image exists, which it
    // counts too; or what it gave of a part is other than what was stored there, and it does not tell its bytes. If only
    // the lines could not be written, all disks are in the image.
    ensures device { let old = F.state files.old in let device = V.state dev.old in
        let new = F.state files.new in
        IfErr result (DeviceEnd name.now image.now old new over device (V.state dev.new)) }

    // No image is opened but that of the name.
    ensures names { OpensOnly image.now (V.state dev.old) (V.state dev.new) }

    // What was written with each status.
    ensures sink { let old = F.state files.old in let out_old = K.state out.old in
        IfErr result (SinkEnd name.now old (F.state files.new) out_old (K.state out.new)) }

    // Nothing is put before all parts were read, and no image is opened before the inputs are good.
    ensures silent { IfErr result (λ end. IsSilent end → out.new ≡ out.old) }
    ensures untouched { IfErr result (λ end.
        IsInputRefusal end → V.state dev.new ≡ V.state dev.old) }

    // What is told of the files stays, few calls were made, and at most one put failed.
    ensures same { (F.state files.new).told ≡ (F.state files.old).told }
    ensures few_calls { let old = F.state files.old in
        (F.state files.new).counts.calls ≤ old.counts.calls + most_reads }
    ensures one_fault { (K.state out.new).faults ≤ (K.state out.old).faults + 1 }
{
    let inputs = read_inputs(alloc, files, name)?;
    let text = keep_disks(alloc, &inputs.scenario, &inputs.library, image, over, dev)?;
    put_lines(out, text.as_bytes())?;
    Ok(())
}
