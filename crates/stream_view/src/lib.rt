//! `applystream view`: draws the time line of a stream as text, one SVG, JSON or Markdown.
#![tactic(auto)]

mod captions;
mod column;
mod command;
mod draw_fault;
mod json;
mod kind;
mod laws;
mod markdown;
mod picture;
mod row_choice;
mod svg;
mod text;
mod words;
mod writing;

pub use command::colour::Colour;
pub use command::drawn::Drawn;
pub use command::picture_fault::PictureFault;
pub use command::settings::{Form, Settings};
pub use command::tool::View;
pub use draw_fault::DrawFault;
pub use json::drawing::draw_json;
pub use laws::{
    colours_are_sequences_alone, fence_is_longer_than_each_run, markdown_has_room,
    no_line_has_a_control, what_comes_no_later_has_its_bar_no_further,
    whole_lines_are_cut_and_counted,
};
pub use markdown::drawing::draw_markdown;
pub use picture::Picture;
pub use row_choice::{RowChoice, Sort};
pub use svg::drawing::draw_svg;
pub use svg::fragment::Fragment;
pub use svg::markup_part::MarkupPart;
pub use text::drawing::draw_text;
pub use text::line_piece::LinePiece;
pub use text::rendition::Rendition;
