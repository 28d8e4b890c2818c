//! Finds which step of the plan each line of an apply's stream is of.
#![tactic(auto)]

mod begun_step;
mod begun_steps;
mod kinds;
mod plan_index;
mod planned_step;
mod slots;
mod sought;
mod starts;
mod step_facts;
mod strays;
mod tally;
mod under_way;

pub use begun_step::{BegunStep, EndResult, StepEnd};
pub use begun_steps::BegunSteps;
pub use planned_step::{PlannedStep, planned_steps};
pub use step_facts::{Stated, StepFact, StepFacts};
pub use strays::{Stray, Strays};
pub use tally::Tally;
