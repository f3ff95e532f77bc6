//! Whether each reading of a log is what the clock of its node shows.
ghost use Rattle.std.specs.Prelude.{◌↔◌, IsTrue};
ghost use Rattle.std.specs.List.{AllByRecursion};
ghost use Rattle.audit_frame.specs.First.{Decides};
ghost use Rattle.audit_frame.specs.Lines.{noted_line, told_by};
ghost use Rattle.node_kit.specs.Courses.{IsCourse};
ghost use Rattle.audit_verdict.specs.Clocks.{IsOfBeats, ShowClocks, ShowsClock};

use audit_frame::{Line, line_at};
use node_kit::Course;

/// The first entry of a log whose reading is not what its node's clock shows; `None` if there is none.
pub(crate) fn first_false_reading<'a>(course: &Course, log: &[Line<'a>]) -> Option<usize>
    requires course { IsCourse course.now }
    requires beats { AllByRecursion IsOfBeats log.now }
    ensures { Decides (ShowClocks course.now) (told_by log.now) result }
{
    for i in 0..log.len() {
        if !shows_clock(course, &line_at(log, i)) {
            return Some(i);
        }
    }
    None
}

/// Whether the reading of an entry is what its node's clock shows in its beat.
fn shows_clock<'a>(course: &Course, line: &Line<'a>) -> bool
    requires course { IsCourse course.now }
    requires beat { IsOfBeats line.now }
    ensures { IsTrue result ↔ ShowsClock course.now (noted_line line.now) }
{
    let stamp = line.entry.stamp;
    course.stamp(line.node, stamp.beat).reading == stamp.reading
}
