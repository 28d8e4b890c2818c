//! How long a text is, and how long its runs of backticks are.

ghost use Rattle.std.specs.Prelude.{◌≡◌, ◌≤◌};
ghost use Rattle.stream_view.specs.Markdown.{IsSmall, extent_after, extent_of, fence_len, lines_after, no_extent, run_after};

/// How long a text is, and how long its runs of backticks are.
#[derive(Clone, Copy, Debug, PartialEq, Eq)]
pub struct Extent {
    /// How many bytes the text has.
    pub len: usize,
    /// How many lines end in it.
    pub lines: usize,
    /// How many backticks stand at its end.
    pub run: usize,
    /// The longest run of backticks in it.
    pub longest: usize,
}

/// The extent of a text.
pub fn extent_of(text: &[u8]) -> Extent
    ensures { result ≡ extent_of text.now }
{
    let mut extent = no_extent();
    for byte in text {
        extent = extent_after(extent, *byte);
    }
    extent
}

/// The extent of an empty text.
pub fn no_extent() -> Extent
    ensures { result ≡ no_extent }
{
    Extent {
        len: 0,
        lines: 0,
        run: 0,
        longest: 0,
    }
}

/// The extent of a text with one byte more.
pub fn extent_after(extent: Extent, byte: u8) -> Extent
    requires { IsSmall extent }
    ensures { result ≡ extent_after extent byte }
{
    let run = run_after(extent.run, byte);
    Extent {
        len: extent.len + 1,
        lines: lines_after(extent.lines, byte),
        run,
        longest: extent.longest.max(run),
    }
}

/// How many backticks stand at the end of a text with one byte more.
fn run_after(run: usize, byte: u8) -> usize
    requires { run ≤ 18446744073709551614 }
    ensures { result ≡ run_after run byte }
{
    if byte == b'`' { run + 1 } else { 0 }
}

/// How many lines end in a text with one byte more.
fn lines_after(lines: usize, byte: u8) -> usize
    requires { lines ≤ 18446744073709551614 }
    ensures { result ≡ lines_after lines byte }
{
    if byte == b'\n' { lines + 1 } else { lines }
}

/// How many backticks the fence of a text has: one more than the longest run in it, three at least.
pub fn fence_len(extent: Extent) -> usize
    requires { IsSmall extent }
    ensures { result ≡ fence_len extent.longest }
{
    (extent.longest + 1).max(3)
}
