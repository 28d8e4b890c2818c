//! The kinds of steps, which decide their colours and signs.

ghost use Rattle.std.specs.Prelude.{◌≡◌};
ghost use Rattle.stream_view.specs.Kinds.{kind_name, kind_of, kind_rendition};

use crate::svg::fragment::Fragment;
use crate::text::rendition::Rendition;

/// What a step does, by its action.
#[derive(Clone, Copy, PartialEq)]
pub enum Kind {
    Create,
    Update,
    Delete,
    Read,
    Refresh,
    Other,
}

impl Kind {
    /// The kind of an action.
    pub fn of(action: &str) -> Kind
        ensures { result ≡ kind_of action.now }
    {
        match action {
            "create" => Kind::Create,
            "update" => Kind::Update,
            "delete" => Kind::Delete,
            "read" => Kind::Read,
            "refresh" => Kind::Refresh,
            _ => Kind::Other,
        }
    }

    /// The name of the kind in the SVG, which is also its CSS class.
    pub fn name(self) -> Fragment
        ensures { result ≡ kind_name self }
    {
        match self {
            Kind::Create => Fragment::Create,
            Kind::Update => Fragment::Update,
            Kind::Delete => Fragment::Delete,
            Kind::Read => Fragment::Read,
            Kind::Refresh => Fragment::Refresh,
            Kind::Other => Fragment::Other,
        }
    }

    /// The sign of the kind, as in Terraform's plans.
    pub fn sign(self) -> char {
        match self {
            Kind::Create => '+',
            Kind::Update => '~',
            Kind::Delete => '-',
            Kind::Read | Kind::Refresh => '<',
            Kind::Other => '*',
        }
    }

    /// How a text shows steps of this kind.
    pub fn rendition(self) -> Rendition
        ensures { result ≡ kind_rendition self }
    {
        match self {
            Kind::Create => Rendition::Green,
            Kind::Update => Rendition::Yellow,
            Kind::Delete => Rendition::Magenta,
            Kind::Read | Kind::Refresh => Rendition::Cyan,
            Kind::Other => Rendition::White,
        }
    }
}
