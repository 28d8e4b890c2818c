//! The panel below the lines of `applystream watch`: what is under way, and how far the apply is.
#![tactic(auto)]

mod bar;
mod canvas;
mod frame;
mod laws;
mod others;
mod panel;
mod row;
mod size;
mod status;
mod stretch;
mod view;

pub use canvas::Canvas;
pub use frame::{push_frame, rows_taken};
pub use laws::{
    a_broken_row_stays_whole, a_frame_replaces_the_panel, a_panel_has_few_lines,
    no_line_is_too_wide, nothing_planned_is_forgotten,
};
pub use panel::push_panel;
pub use size::{Size, has_room};
pub use view::View;
