//! The start of a command to a runner of jobs.

ghost use Rattle.std.specs.Prelude.{◌≡◌};
ghost use Rattle.term_text.specs.Commands.{after_character, after_hash, after_piece, is_named};

/// How much of a command stands before a character. A command is `##`, letters of ASCII or none,
/// and `[`.
#[derive(Clone, Copy)]
pub enum CommandStart {
    Nothing,
    OneHash,
    TwoHashes,
    /// `##` and letters.
    Name,
}

impl CommandStart {
    /// Whether a `[` after it completes a command.
    pub(crate) fn is_named(self) -> bool
        ensures { result ≡ is_named self }
    {
        matches!(self, CommandStart::TwoHashes | CommandStart::Name)
    }

    /// How much of a command stands before what follows the piece.
    pub(crate) fn after(self, piece: Option<char>) -> CommandStart
        ensures { result ≡ after_piece self piece }
    {
        match piece {
            None => CommandStart::Nothing,
            Some(character) => self.after_character(character),
        }
    }

    fn after_character(self, character: char) -> CommandStart
        ensures { result ≡ after_character self character }
    {
        if character == '#' {
            return self.after_hash();
        }
        if character.is_ascii_alphabetic() && self.is_named() {
            return CommandStart::Name;
        }
        CommandStart::Nothing
    }

    fn after_hash(self) -> CommandStart
        ensures { result ≡ after_hash self }
    {
        match self {
            CommandStart::OneHash | CommandStart::TwoHashes => CommandStart::TwoHashes,
            CommandStart::Nothing | CommandStart::Name => CommandStart::OneHash,
        }
    }
}
