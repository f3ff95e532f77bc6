//! What a share begins with: the clocks, lives and journals of its members, by place.
ghost use Rattle.std.specs.Prelude.{◌≡◌, ◌+◌, [], ◌∷◌, map, length, IfOk};
ghost use Rattle.node_kit.specs.Courses.{IsCourse, setting_of};
ghost use Rattle.node_kit.specs.Life.{lifetime_of};
ghost use Rattle.node_kit.specs.Rows.{each_below};

use node_kit::{Course, Dial, Journal, Life};
use std::alloc::Global;
use tiger_base::{NoMemory, NodeNo};

/// The clocks of the nodes of these numbers.
pub(crate) fn dials_of(
    alloc: Global,
    course: &Course,
    numbers: &[NodeNo],
) -> Result<Vec<Dial>, NoMemory>
    requires { IsCourse course.now }
    ensures { IfOk result (λ r. r.items ≡ map (λ n. setting_of course.now n.0) numbers.now) }
{
    let mut dials = Vec::new(alloc);
    for number in numbers {
        dials.push(course.dial(*number))?;
    }
    Ok(dials)
}

/// The lives of the nodes of these numbers.
pub(crate) fn lives_of(
    alloc: Global,
    course: &Course,
    numbers: &[NodeNo],
) -> Result<Vec<Life>, NoMemory>
    ensures { IfOk result (λ r. r.items ≡ map (λ n. lifetime_of course.now n.0) numbers.now) }
{
    let mut lives = Vec::new(alloc);
    for number in numbers {
        lives.push(Life::new(course, *number))?;
    }
    Ok(lives)
}

/// So many journals with no entry.
#[tactic(auto, using(node_kit::proofs::Rows::each_below_more))]
pub(crate) fn new_journals(alloc: Global, count: usize) -> Result<Vec<Journal>, NoMemory>
    ensures { IfOk result (λ r. r.items ≡ each_below (λ _. []) count) }
{
    let mut journals = Vec::new(alloc);
    for _member in 0..count {
        journals.push(Journal::new(alloc))?;
    }
    Ok(journals)
}
