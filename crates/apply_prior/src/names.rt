//! What names an object in a tree.

ghost use Rattle.std.specs.Prelude.{◌≡◌, option_map};
ghost use Rattle.serde_json.specs.View.{view};
ghost use Rattle.apply_plan.specs.Plan.Element.{mode_named};
ghost use Rattle.apply_prior.specs.Elements.{names_of};
ghost use Rattle.apply_prior.specs.Views.{names_view};

use crate::index::Index;
use apply_json::is_text;
use apply_json_tree::members::{member, non_empty_text_member, text_member};
use apply_model::Mode;
use serde_json::Value;

/// The address of an object and its parts.
#[derive(Clone, Copy)]
pub struct Names<'a> {
    pub address: &'a str,
    pub mode: Mode,
    pub kind_name: &'a str,
    pub name: &'a str,
    pub key: Index<'a>,
}

impl<'a> Names<'a> {
    /// The names in an element. `None` means that a member is invalid or missing.
    pub fn of(element: &'a Value) -> Option<Names<'a>>
        ensures { option_map names_view result ≡ names_of (view element.now) }
    {
        Some(Names {
            address: text_member(element, "address")?,
            mode: mode_named(text_member(element, "mode")?)?,
            kind_name: non_empty_text_member(element, "type")?,
            name: non_empty_text_member(element, "name")?,
            key: Index::of(member(element, "index"))?,
        })
    }
}

fn mode_named(word: &str) -> Option<Mode>
    ensures { result ≡ mode_named word.now }
{
    if is_text(word, "managed") {
        Some(Mode::Managed)
    } else if is_text(word, "data") {
        Some(Mode::DataSource)
    } else {
        None
    }
}
