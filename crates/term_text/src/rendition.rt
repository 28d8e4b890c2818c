//! How a stretch of a text is rendered.

ghost use Rattle.std.specs.Prelude.{◌≡◌, codes};
ghost use Rattle.term_text.specs.Renditions.{rendition_codes, sequence};

/// How a stretch of a text is rendered (ECMA-48, section 8.3.117, "Select Graphic Rendition").
#[derive(Clone, Copy, Debug, PartialEq, Eq)]
pub enum Rendition {
    Bold,
    Dim,
    Red,
    Green,
    Yellow,
    Magenta,
    Cyan,
    White,
}

impl Rendition {
    /// The sequence that starts the stretch.
    pub fn sequence(self) -> &'static str
        ensures { result.now ≡ sequence (rendition_codes self) }
    {
        match self {
            Rendition::Bold => "\u{1b}[1m",
            Rendition::Dim => "\u{1b}[2m",
            Rendition::Red => "\u{1b}[31m",
            Rendition::Green => "\u{1b}[32m",
            Rendition::Yellow => "\u{1b}[33m",
            Rendition::Magenta => "\u{1b}[35m",
            Rendition::Cyan => "\u{1b}[36m",
            Rendition::White => "\u{1b}[37m",
        }
    }

    /// The sequence that ends any stretch.
    pub fn end() -> &'static str
        ensures { result.now ≡ sequence (codes "0") }
    {
        "\u{1b}[0m"
    }
}
