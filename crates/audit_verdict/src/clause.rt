//! The twelve clauses by which a kept run is judged.
ghost use Rattle.std.specs.Prelude.{◌≡◌, ◌≤◌};
ghost use Rattle.audit_verdict.specs.Clauses.{number_of_clause};

/// What is asked of a kept run, in the order in which it is decided.
#[derive(Clone, Copy, Debug, PartialEq, Eq)]
pub enum Clause {
    /// What each node got is what was sent to it, in time.
    Carried,
    /// Each entry was written at its time, by its node's clock, and each death is the course's.
    Timed,
    /// The controller's journal follows the orders.
    Commanded,
    /// Each Put finds its slot free, and is rightly put.
    FreePuts,
    /// Each cub's view is part of the schedule, and what a cub takes and sends follows from what it has.
    PartViews,
    /// No stopped instance comes back.
    NoReturn,
    /// A visit of a slot is of one instance, and each read is asked for once.
    OnePerVisit,
    /// A cub that is believed dead has died.
    TrueBelief,
    /// A read that is reported to have failed met a fault of its disk.
    TrueFaults,
    /// Each settled block of each viewer that was put came or is excused, and nothing else came.
    FullDelivery,
    /// The blocks of a viewer come in order.
    VisitsInOrder,
    /// No start that waits is passed over.
    FairStarts,
}

impl Clause {
    /// Its number, from 1 to 12.
    pub fn number(self) -> u32
        ensures { result ≡ number_of_clause self }
    {
        match self {
            Clause::Carried => 1,
            Clause::Timed => 2,
            Clause::Commanded => 3,
            Clause::FreePuts => 4,
            Clause::PartViews => 5,
            Clause::NoReturn => 6,
            Clause::OnePerVisit => 7,
            Clause::TrueBelief => 8,
            Clause::TrueFaults => 9,
            Clause::FullDelivery => 10,
            Clause::VisitsInOrder => 11,
            Clause::FairStarts => 12,
        }
    }

    /// The clause of a number from 1 to 12.
    pub(crate) fn numbered(number: u32) -> Clause
        requires low { 1 ≤ number }
        requires high { number ≤ 12 }
        ensures { number_of_clause result ≡ number }
    {
        match number {
            1 => Clause::Carried,
            2 => Clause::Timed,
            3 => Clause::Commanded,
            4 => Clause::FreePuts,
            5 => Clause::PartViews,
            6 => Clause::NoReturn,
            7 => Clause::OnePerVisit,
            8 => Clause::TrueBelief,
            9 => Clause::TrueFaults,
            10 => Clause::FullDelivery,
            11 => Clause::VisitsInOrder,
            _ => Clause::FairStarts,
        }
    }
}
