//! Laws of a run: what holds of plans, scripts, hooks, events, lines, time lines and secrets.
//!
//! The contract of each function is the law. The function itself does nothing, or calls the laws that
//! its own law follows from. No program links this crate.
#![tactic(auto)]

mod events;
mod examples;
mod hooks;
mod lines;
mod partitions;
mod planned_changes;
mod plans;
mod runs;
mod scripts;
mod sensitive;
mod time_lines;
mod time_lines_without_waits;

pub use events::{
    a_change_ends_with_its_span, a_change_starts_with_its_first_event,
    a_change_takes_at_most_two_days, a_step_ends_at_most_once,
    a_step_without_newer_members_has_plain_events, each_event_of_a_worker_names_it,
    events_of_a_worker_concatenate, every_event_can_happen, every_event_is_of_a_step_of_the_plan,
    every_event_of_a_time_line_can_happen, no_event_comes_after_latest,
    skipped_steps_have_no_events, steps_of_a_change_come_in_order, times_of_a_change_never_fall,
};
pub use examples::worked_examples;
pub use hooks::{
    a_hook_at_the_end_changes_no_halt, the_first_hook_that_halts_is_named,
    without_hooks_nothing_is_halted,
};
pub use lines::{
    a_hook_message_has_the_time_of_its_event, a_line_has_one_line_feed,
    the_default_form_is_the_plain_stream, the_order_of_writing_loses_no_event,
    the_summary_counts_the_lines_of_completion, times_of_lines_never_fall,
    whole_units_are_written_with_zeros,
};
pub use partitions::{
    a_list_of_a_partition_names_each_number_once, an_interleaving_has_the_summed_length,
    changes_that_are_dealt_out_have_few_events, numbers_can_be_dealt_out,
    totals_of_an_interleaving_add_up,
};
pub use planned_changes::{
    all_but_no_ops_are_planned, each_planned_change_has_one_line,
    only_planned_changes_have_type_planned_change, planned_changes_name_the_action_of_the_plan,
};
pub use plans::{
    each_object_is_named_once, relative_addresses_join_their_module,
    unknown_members_of_a_plan_are_ignored,
};
pub use runs::{
    a_time_line_is_applied_by_workers, lines_of_a_step_are_its_seconds_apart,
    what_lanes_stream_is_a_run_of_workers,
};
pub use scripts::{
    a_read_script_leaves_out_what_waits_in_vain, lanes_leave_out_what_waits_in_vain,
    steps_that_could_begin_are_the_least_set, steps_that_were_read_could_begin,
    what_was_read_is_within_limits,
};
pub use sensitive::{
    no_byte_in_lanes_depends_on_a_sensitive_value, no_run_depends_on_a_sensitive_value,
    no_stream_depends_on_a_sensitive_value,
};
pub use time_lines::{
    a_step_begins_exactly_where_its_waits_are_done, a_step_comes_after_what_it_waits_for,
    a_step_that_only_warns_is_done, a_time_line_ends_by_the_sum_of_all_times,
    a_time_line_has_few_events, a_time_line_is_applied_in_turns,
    any_number_of_lanes_begins_the_same_steps, no_more_steps_are_under_way_than_lanes,
    no_more_turns_are_under_way_than_lanes, no_step_ends_before_its_chain_of_waits,
    steps_are_whole, the_schedule_starts_each_turn_that_can_begin,
    the_turn_that_is_ready_first_starts_first, there_is_a_time_line, time_lines_are_unique,
    times_of_a_time_line_never_fall, what_waits_in_vain_is_left_out,
    without_waits_changes_are_dealt_out,
};
pub use time_lines_without_waits::{
    a_step_takes_the_seconds_that_its_end_names, a_time_line_ends_by_the_sum_of_all_spans,
    lanes_deal_out_the_changes, no_lane_is_idle_while_a_change_waits,
    no_more_changes_are_under_way_than_lanes, no_time_line_ends_before_the_mean,
    one_lane_has_all_changes_in_order, time_lines_without_waits_are_unique,
    times_never_fall_without_waits,
};
