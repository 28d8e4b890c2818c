//! The marks of lines.

ghost use Rattle.std.specs.Prelude.{◌≡◌};
ghost use Rattle.stream_watch.specs.Marks.{bar_of, coloured_sign, is_in_panel, plain_sign, planned_mark, sign_of, text_rendition};

use term_text::Rendition;

/// The mark of a line: what the line says, at a glance. A mark has a sign, and colours of the sign
/// and of the text.
#[derive(Clone, Copy, Debug, PartialEq, Eq)]
pub enum Mark {
    /// `▸`: a step starts.
    Begin,
    /// `✓`: a step succeeded.
    Done,
    /// `✓`: the stream is whole, and it reports no error.
    Whole,
    /// `✗`: a step failed, an error, or the verdict on any other stream.
    Failed,
    /// `!`: a warning.
    Warning,
    /// `!`: an object was changed outside.
    Drift,
    /// `…`: steps that are under way.
    UnderWay,
    /// `…`: a step without an end.
    NoEnd,
    /// `+`: an object is planned to be created.
    Create,
    /// `~`: an object is planned to be updated.
    Update,
    /// `-`: an object is planned to be deleted.
    Delete,
    /// `±`: an object is planned to be replaced.
    Replace,
    /// `<`: an object is planned to be read.
    Read,
    /// `.`: an object is planned to be removed from the state.
    Remove,
    /// `→`: an object is planned to be moved.
    Move,
    /// `←`: an object is planned to be imported.
    Import,
    /// `*`: another action is planned.
    OtherPlan,
    /// A blank: the version, or a sum.
    Sum,
    /// `│`: the output of a provisioner.
    Output,
    /// `·`: a message without a rule of its own.
    Other,
    /// `|`: a line that is no message.
    Passed,
}

/// A sign of a line, and how it is rendered where lines have colours.
#[derive(Clone, Copy)]
pub(crate) struct Sign {
    pub(crate) character: char,
    pub(crate) rendition: Option<Rendition>,
}

impl Sign {
    /// A sign without a colour.
    fn plain(character: char) -> Sign
        ensures { result ≡ plain_sign character }
    {
        Sign {
            character,
            rendition: None,
        }
    }

    /// A sign with a colour.
    fn coloured(character: char, rendition: Rendition) -> Sign
        ensures { result ≡ coloured_sign character rendition }
    {
        Sign {
            character,
            rendition: Some(rendition),
        }
    }
}

impl Mark {
    /// The mark of a planned action.
    pub fn planned(action: &str) -> Mark
        ensures { result ≡ planned_mark action.now }
    {
        match action {
            "create" => Mark::Create,
            "update" => Mark::Update,
            "delete" => Mark::Delete,
            "replace" => Mark::Replace,
            "read" => Mark::Read,
            "remove" => Mark::Remove,
            "move" => Mark::Move,
            "import" => Mark::Import,
            _ => Mark::OtherPlan,
        }
    }

    /// Whether the panel shows what lines with the mark tell.
    pub(crate) fn is_in_panel(self) -> bool
        ensures { result ≡ is_in_panel self }
    {
        matches!(self, Mark::Begin | Mark::UnderWay)
    }

    /// The sign of a line with the mark.
    pub(crate) fn sign(self) -> Sign
        ensures { result ≡ sign_of self }
    {
        match self {
            Mark::Begin => Sign::coloured('▸', Rendition::Dim),
            Mark::Done => Sign::coloured('✓', Rendition::Green),
            Mark::Whole => Sign::coloured('✓', Rendition::Green),
            Mark::Failed => Sign::coloured('✗', Rendition::Red),
            Mark::Warning => Sign::coloured('!', Rendition::Yellow),
            Mark::Drift => Sign::coloured('!', Rendition::Yellow),
            Mark::UnderWay => Sign::coloured('…', Rendition::Dim),
            Mark::NoEnd => Sign::coloured('…', Rendition::Yellow),
            Mark::Create => Sign::coloured('+', Rendition::Green),
            Mark::Update => Sign::coloured('~', Rendition::Yellow),
            Mark::Delete => Sign::coloured('-', Rendition::Magenta),
            Mark::Replace => Sign::coloured('±', Rendition::Magenta),
            Mark::Read => Sign::coloured('<', Rendition::Cyan),
            Mark::Remove => Sign::coloured('.', Rendition::White),
            Mark::Move => Sign::coloured('→', Rendition::White),
            Mark::Import => Sign::coloured('←', Rendition::White),
            Mark::OtherPlan => Sign::coloured('*', Rendition::White),
            Mark::Sum => Sign::plain(' '),
            Mark::Output => Sign::coloured('│', Rendition::Dim),
            Mark::Other => Sign::plain('·'),
            Mark::Passed => Sign::coloured('|', Rendition::Dim),
        }
    }

    /// What stands in place of a sign in a line that belongs to one with the mark.
    pub(crate) fn bar(self) -> Sign
        ensures { result ≡ bar_of self }
    {
        match self {
            Mark::Failed => Sign::coloured('│', Rendition::Red),
            Mark::Warning => Sign::coloured('│', Rendition::Yellow),
            _ => Sign::coloured('│', Rendition::Dim),
        }
    }

    /// How the text after the sign is rendered where a line has colours.
    pub(crate) fn text_rendition(self) -> Option<Rendition>
        ensures { result ≡ text_rendition self }
    {
        match self {
            Mark::Begin | Mark::UnderWay => Some(Rendition::Dim),
            Mark::Whole | Mark::Sum => Some(Rendition::Bold),
            Mark::Failed => Some(Rendition::Red),
            Mark::Warning | Mark::NoEnd => Some(Rendition::Yellow),
            _ => None,
        }
    }
}
