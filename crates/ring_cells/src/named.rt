//! The names of a run.

use std::marker::Brand;

/// Names a run by its course, the openings of its nodes, the line of each link, and the share in which each node is. The
/// course is in a list of one, since there is no course to be the name's without a run.
pub trait Named<T> {
    ghost use Rattle.std.specs.Prelude.{ℕ, List};
    ghost use Rattle.node_kit.specs.declared.course.Course.{Course};
    ghost use Rattle.ring_links.specs.Ends.{LineId};

    ghost course: { List Course };

    ghost opening: { List T };

    ghost line: { ℕ → LineId };

    ghost home: { ℕ → ℕ };
}

impl<T> Named<T> for Brand {
    ghost use Rattle.std.specs.Prelude.{[]};
    ghost use Rattle.ring_cells.specs.Opens.{no_line};

    ghost course = { [] };

    ghost opening = { [] };

    ghost line = { λ l. no_line };

    ghost home = { λ n. 0 };
}
