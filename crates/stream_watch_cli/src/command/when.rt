//! When something is shown.

ghost use Rattle.std.specs.Prelude.{◌≡◌};

/// When something is shown: the value of `--color` or `--panel`.
#[derive(Clone, Copy, Debug, PartialEq, Eq)]
pub enum When {
    /// If the terminal is fit for it.
    Auto,
    Always,
    Never,
}

impl When {
    ghost use Rattle.stream_watch_cli.specs.CommandLine.{is_on};

    /// Whether it is shown. `is_wanted` is the answer for `Auto`.
    pub fn is_on(self, is_wanted: bool) -> bool
        ensures { result ≡ is_on is_wanted self }
    {
        match self {
            When::Auto => is_wanted,
            When::Always => true,
            When::Never => false,
        }
    }
}
