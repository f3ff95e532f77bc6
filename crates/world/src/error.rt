//! Why a machine that runs makes no step.

use ring_world::StepFault;

/// Why no step was made.
#[derive(Clone, Copy, Debug, PartialEq, Eq)]
pub enum StepError {
    /// An earlier step had no memory.
    Spoilt,
    /// The event may not happen.
    Fault(StepFault),
    /// There was no memory. Journals and events are as before, and each later step is `Spoilt`.
    NoMemory,
}
