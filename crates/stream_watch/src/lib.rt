//! Tells an apply to people, line by line of its stream.
#![tactic(auto)]

mod clock;
mod counts;
mod ending;
mod lengths;
mod lines;
mod looks;
mod mark;
mod message;
mod printer;
mod progress;
mod refreshes;
mod rows;
mod steps;
mod telling;
mod verdict;
mod watcher;
mod watcher_state;
mod words;

pub use clock::{Clock, gap};
pub use counts::Counts;
pub use lengths::{KindLengths, Lengths};
pub use lines::push_time;
pub use looks::Looks;
pub use mark::Mark;
pub use message::laws::a_line_has_a_message_where_check_finds_one;
pub use steps::{OpenStep, Provisioner};
pub use watcher::Watcher;
pub use words::{push_provisioner_of, push_step};
