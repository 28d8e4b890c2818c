//! What each step of a recorded script waits for, and which steps of it are skipped.
#![tactic(auto)]

mod basis;
mod behind;
mod choices;
mod course;
mod first_earliest;
mod found_waits;
mod graph_waits;
mod guess;
mod joined;
mod lane_time;
mod limits;
mod no_waits;
mod pins;
mod reached;
mod readiness;
mod ready_turns;
mod recorded;
mod rounds;
mod schedule;
mod states;
mod step_graph_waits;
mod step_of_plan;
mod step_state;
mod steps;
mod waiters;
mod waits_fault;

pub use choices::Choices;
pub use limits::MAX_WAITS;
pub use recorded::{RecordedWaits, recorded_waits};
pub use step_of_plan::{RunFate, StepOfPlan, StepRun};
pub use step_state::StepState;
pub use waits_fault::WaitsFault;
