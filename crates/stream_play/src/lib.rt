//! `applystream play`: writes the lines of a stream at the times that their timestamps state.
#![tactic(auto)]

mod command;
mod laws;
mod pace;
mod play_fault;
mod playing;
mod speed;
mod timestamp;
mod timing;
mod watch;

pub use command::settings::Settings;
pub use command::tool::Play;
pub use laws::{
    at_speed_1_a_due_is_the_time_from_the_first, dues_never_fall, greater_speed_gives_no_later_due,
};
pub use pace::Pace;
pub use play_fault::PlayFault;
pub use playing::play;
pub use speed::Speed;
pub use timestamp::timestamp_of;
