//! Makes the outcomes of the steps of an apply's stream, and finds which diagnostic is of which.
#![tactic(auto)]

mod assignment;
mod circumstances;
mod copies;
mod fate;
mod fit;
mod last_provisioner;
mod notes;
mod outcome;
mod provisioner_run;
mod provisioners;
mod recorded_step;
mod recording;
mod sharing;
mod step_warning;
mod taker;
mod timed_fact;
mod took;
mod turn;
mod warnings;

pub use circumstances::Circumstances;
pub use fate::Fate;
pub use recorded_step::RecordedStep;
pub use recording::{RecordedOutcomes, outcomes};
pub use step_warning::{StepWarning, StepWarnings};
