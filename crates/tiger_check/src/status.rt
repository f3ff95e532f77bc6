//! How the command ended.
ghost use Rattle.std.specs.Prelude.{◌≡◌};
ghost use Rattle.tiger_check.specs.Statuses.{as_run};
ghost use Rattle.tiger_check.specs.declared.status.CheckStatus.TheVariants as ends;
ghost use Rattle.tiger_check.specs.declared.status.Refusal.TheVariants as refusals;

use scenario_read::ScenarioFault;
use tiger_input::Status;

/// How the command ended.
#[derive(Clone, Copy, Debug, PartialEq, Eq)]
pub enum CheckStatus {
    /// In one of the ways in which `run` ends.
    Run(Status),
    /// The scenario is refused for a condition of its plan, and a line of each false one was written.
    Unsound(ScenarioFault),
}

/// Why a scenario or one of its files was refused.
#[derive(Debug, Drop)]
pub enum Refusal {
    /// As `run` refuses it, for no condition of its plan.
    Input(Status),
    /// For a condition of the plan: the refusal of `run`, and the scenario's bytes.
    Plan {
        fault: ScenarioFault,
        bytes: Vec<u8>,
    },
}

impl From<Status> for Refusal {
    ghost from_gives = { λ status refusal. refusal ≡ refusals.Input status };

    fn from(status: Status) -> Refusal {
        Refusal::Input(status)
    }
}

impl CheckStatus {
    ghost use Rattle.std.specs.Prelude.{◌≡◌};
    ghost use Rattle.tiger_check.specs.Statuses.{as_run};

    /// How `run` ends with the same scenario, if it does not come to run it.
    pub fn as_run(self) -> Status
        ensures { result ≡ as_run self }
    {
        match self {
            CheckStatus::Run(status) => status,
            CheckStatus::Unsound(fault) => Status::Scenario(fault),
        }
    }
}
