//! When a text has colours.

ghost use Rattle.std.specs.Prelude.{◌≡◌};

/// When a text has colours.
#[derive(Clone, Copy, Debug, PartialEq, Eq)]
pub enum Colour {
    /// If standard output is a terminal, and `NO_COLOR` is absent or empty.
    Auto,
    Always,
    Never,
}

impl Colour {
    ghost use Rattle.stream_view.specs.Viewed.{is_on};

    /// Whether the text has colours. `is_wanted` is the answer for `Auto`.
    pub fn is_on(self, is_wanted: bool) -> bool
        ensures { result ≡ is_on is_wanted self }
    {
        match self {
            Colour::Auto => is_wanted,
            Colour::Always => true,
            Colour::Never => false,
        }
    }
}
