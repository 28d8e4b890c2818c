//! `applystream check`: decides whether a stream is whole, and reports what is missing.
#![tactic(auto)]

mod command;
mod messages;
mod rules;
mod verdict;

pub use command::checked::Checked;
pub use command::findings::finding_words;
pub use command::keeping::write_messages;
pub use command::settings::{Form, Settings};
pub use command::texts::whole_text;
pub use command::tool::Check;
pub use command::unreported::Unreported;
pub use messages::action::Action;
pub use messages::member_fault::MemberFault;
pub use messages::path::Path;
pub use messages::timed_stage::TimedStage;
pub use messages::totals::Totals;
pub use rules::address_state::{AddressState, Failures};
pub use rules::checker::Checker;
pub use rules::fault::Fault;
pub use rules::limits::{MAX_BYTES, MAX_LINES};
pub use rules::mode::Mode;
pub use rules::open_entry::{OpenEntry, OpenKind};
pub use rules::pending::Pending;
pub use stream_lines::{FailedRead, Line, drain};
pub use verdict::finding::Finding;
pub use verdict::from_lines::check_lines;
pub use verdict::from_reader::{check, check_with};
pub use verdict::judge::{Judge, Unjudged, Verdict};
pub use verdict::laws::{
    a_stream_without_errors_is_summed_up, each_step_ends_once, no_start_or_end_is_one_too_many,
};
pub use verdict::read_fault::{FailedCreation, ReadFault};
pub use verdict::whole::Whole;
