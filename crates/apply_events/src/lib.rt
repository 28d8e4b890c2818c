//! The events of an apply: what happens to each step and when, by workers or in lanes.
#![tactic(auto)]

mod applied;
mod counts;
mod event;
mod fitting;
mod lanes;
mod laws;
mod mid_step;
mod partition;
mod runner;
mod running_provisioners;
mod stage;
mod step_facts;
mod what;

pub use counts::Counts;
pub use event::{Event, LATEST};
pub use fitting::{fits, is_of_plan};
pub use lanes::free::first_earliest;
pub use lanes::lane_time::LaneTime;
pub use lanes::queue::{Queue, ReadyTurn};
pub use lanes::turn::{StartedTurn, Turn};
pub use lanes::{Lanes, MAX_LANES};
pub use laws::{
    a_change_whose_first_step_is_skipped_has_no_event, a_further_change_comes_after,
    an_interleaving_of_one_worker_is_its_list, no_event_is_of_a_skipped_step,
    outputs_in_time_come_at_their_seconds, there_is_a_time_line, totals_of_joined_lists_add_up,
    where_no_step_is_skipped_all_are_applied,
};
pub use partition::{
    a_partition_for_one_worker_is_all_numbers_in_order, a_rising_list_fits_below_its_limit,
    a_rising_list_rises_on, workers_in_order_stand_once,
};
pub use runner::Runner;
pub use what::What;
