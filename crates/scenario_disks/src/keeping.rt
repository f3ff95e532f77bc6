//! Stores the disks of a scenario in an image, and reads each of their parts once.
ghost use Rattle.std.specs.Prelude.{◌≡◌, ◌+◌, ◌^◌, ◌≤◌, All, length, IfOk, IfErr, string_bytes};
ghost use Rattle.tiger_base.specs.Limits.{most_file};
ghost use Rattle.disk_image.specs.Image.{HasLengths};
ghost use Rattle.scenario_read.specs.Sound.{IsScenario};
ghost use Rattle.file_disk.specs.Devices.{OpensOnly, most_counted};
ghost use Rattle.stored_disks.specs.Disks.{disks_of, part_count};
ghost use Rattle.scenario_disks.specs.Images.{OfScenario, AreInImage, all_lines, most_parts};
ghost use Rattle.scenario_disks.specs.Stops.{ImageCause, KeepCause};

use crate::stop::DisksStop;
use file_disk::Device;
use scenario_read::{Scenario, catalogue_of};
use std::alloc::Global;
use stored_disks::{part_count, store_disks};
use stripe_layout::Catalogue;
use tiger_base::Library;

/// The most parts that all disks of a scenario may have.
pub const MOST_PARTS: u64 = 4_000_000;

/// Stores the disks of a scenario in the image of a name, one behind the other, and reads each part
/// once. An image that exists is written over only if that is asked for. The text has a line for
/// each disk.
pub fn keep_disks<V: Device>(
    alloc: Global,
    scenario: &Scenario,
    library: &Library,
    image: &str,
    over: bool,
    dev: &mut V,
) -> Result<String, DisksStop>
    requires scenario { IsScenario scenario.now }
    requires files { length library.now ≡ length scenario.now.files }
    requires filled { All (λ bytes. 1 ≤ length bytes) library.now }
    requires short { All (λ bytes. length bytes ≤ most_file) library.now }
    requires faults { (V.state dev.old).faults ≤ most_counted }
    requires reads { (V.state dev.old).reads ≤ 2 ^ 63 }
    requires refusals { (V.state dev.old).refusals ≤ most_counted }

    // All disks of the scenario are in the image, and the text tells of each.
    ensures kept { let old = V.state dev.old in let new = V.state dev.new in
        IfOk result (λ text. OfScenario scenario.now library.now
        (λ disks. AreInImage image.now disks old new × (string_bytes text ≡ all_lines disks))) }

    // An error comes for its cause alone.
    ensures cause { let old = V.state dev.old in
        IfErr result (KeepCause image.now scenario.now library.now over old (V.state dev.new)) }

    // No image is opened but that of the name.
    ensures names { OpensOnly image.now (V.state dev.old) (V.state dev.new) }
{
    let cat = catalogue_of(alloc, scenario, library)?;
    let pieces = scenario.course.plan.params.pieces as u32;
    let parts = part_count(&cat, pieces);
    if parts > MOST_PARTS {
        return Err(DisksStop::TooMany { parts });
    }
    in_image(alloc, library, &cat, pieces, image, over, dev)
}

/// The same with disks that have no more parts than they may.
fn in_image<V: Device>(
    alloc: Global,
    library: &Library,
    cat: &Catalogue,
    pieces: u32,
    image: &str,
    over: bool,
    dev: &mut V,
) -> Result<String, DisksStop>
    requires lengths { HasLengths library.now cat.now }
    requires short { All (λ info. info.len ≤ most_file) cat.now.files }
    requires few_files { length cat.now.files ≤ 64 }
    requires some_pieces { 1 ≤ pieces }
    requires few_pieces { pieces ≤ 8 }
    requires few_parts { part_count cat.now pieces ≤ most_parts }
    requires faults { (V.state dev.old).faults ≤ most_counted }
    requires reads { (V.state dev.old).reads ≤ 2 ^ 63 }
    requires refusals { (V.state dev.old).refusals ≤ most_counted }
    ensures kept { let disks = disks_of library.now cat.now pieces in
        IfOk result (λ _. AreInImage image.now disks (V.state dev.old) (V.state dev.new)) }
    ensures lines { let disks = disks_of library.now cat.now pieces in
        IfOk result (λ text. string_bytes text ≡ all_lines disks) }
    ensures cause { let disks = disks_of library.now cat.now pieces in
        IfErr result (ImageCause image.now disks over (V.state dev.old) (V.state dev.new)) }
    ensures names { OpensOnly image.now (V.state dev.old) (V.state dev.new) }
{
    dev.open(image, over)?;
    Ok(store_disks(alloc, library, cat, pieces, dev)?)
}
