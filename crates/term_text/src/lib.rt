//! Text for a terminal: escapes control characters, measures columns, and fits, wraps and marks up.
#![tactic(auto)]

mod breaking;
mod columns;
mod command_start;
mod controls;
mod cutting;
mod fitting;
mod fronts;
mod hidden;
mod laws;
mod line;
mod markup;
mod piece;
mod readable_text;
mod rendition;
mod shown_text;
mod splitting;
mod wrapping;

pub use breaking::broken;
pub use columns::width_of;
pub use controls::{escape_controls, push_controls_escaped};
pub use cutting::escape_controls_within;
pub use fitting::fitted;
pub use fronts::front;
pub use laws::{
    a_cut_text_has_room, a_front_of_text_is_text, each_byte_of_no_character_stands_for_itself,
    no_command_is_shown, nothing_hidden_is_shown, text_stands_as_it_is,
    what_is_escaped_is_no_markup,
};
pub use line::line_text;
pub use markup::push_markup_escaped;
pub use readable_text::readable;
pub use rendition::Rendition;
pub use shown_text::{ShownText, without_blanks};
pub use splitting::text_lines;
pub use wrapping::wrapped;
