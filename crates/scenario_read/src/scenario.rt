//! What a scenario says.

use node_kit::Course;
use std::marker::Model;
use tiger_base::{Beat, DiskNo, FileNo, Instance, Sequence};

/// A file's name, seen as its bytes.
#[derive(Debug, Drop)]
pub struct Name(pub String);

impl Model for Name {
    ghost use Rattle.std.specs.Prelude.{ℕ, List, string_bytes};

    ghost Value = { List ℕ };

    ghost view = { λ n. string_bytes n.0 };
}

impl Name {
    ghost use Rattle.std.specs.Prelude.{◌≡◌};

    /// The name as a text.
    pub fn as_str(&self) -> &str
        ensures { result.now ≡ self.now }
    {
        self.0.as_str()
    }
}

/// A file's name, and the disk of its first block.
#[derive(Debug, Drop)]
pub struct FileLine {
    pub name: Name,
    pub disk: DiskNo,
}

/// What happens in a beat.
#[derive(Clone, Copy, Debug, PartialEq, Eq)]
pub enum ScEvent {
    /// A file is started, by the next instance.
    Begin { beat: Beat, file: FileNo },
    /// An instance is stopped.
    Finish { beat: Beat, instance: Instance },
}

/// A scenario: the course of its run, its files and its events, in order.
#[derive(Drop)]
pub struct Scenario {
    pub course: Course,
    pub files: Sequence<FileLine>,
    pub events: Sequence<ScEvent>,
}
