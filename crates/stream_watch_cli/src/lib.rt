//! `applystream watch`: shows an apply to people while it is under way, and judges its stream.
#![tactic(auto)]

mod command;
mod display;
mod panel;
mod screen;
mod terminal;
mod watch_fault;
mod watching;

pub use command::settings::Settings;
pub use command::tool::{Watch, has_panel};
pub use command::when::When;
pub use display::Display;
pub use panel::Panel;
pub use screen::Screen;
pub use terminal::Terminal;
pub use watch_fault::WatchFault;
pub use watching::watch;
