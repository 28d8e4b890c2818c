//! A message that is put together piece by piece.

ghost use Rattle.std.specs.Prelude.{◌≡◌, ◌<◌, ◌++◌, [], IfOk, codes, encode_utf8_all, false, replicate, string_bytes};
ghost use Rattle.std.specs.Fmt.{decimal};
ghost use Rattle.serde_json.specs.Data.{string};
ghost use Rattle.serde_json.specs.Written.{compact_text};
ghost use Rattle.term_text.specs.Fitting.{fitted};
ghost use Rattle.term_text.specs.Fitted.{shown_characters};
ghost use Rattle.term_text.specs.Fronts.{cut_text};
ghost use Rattle.term_text.specs.Shown.{shown_text};
ghost use Rattle.term_words.specs.MessageTexts.{HasText, AppendsText, blanks_before, fitted_text, is_whole_text, right_text, text_bytes};
ghost use Rattle.term_words.specs.Words.{counted_words, duration_words, grouped, grouped_within, long_words, more_words, number_words, short_words, three_digits, two_digits};

use serde_json::Value;
use std::alloc::{AllocError, Global};
use term_text::{ShownText, escape_controls, escape_controls_within, fitted};

/// A number of 64 bits has at most six groups of three digits after the first.
const GROUPS: u32 = 6;

/// How many microseconds a second has.
const SECOND: u128 = 1_000_000;

/// A message that is put together piece by piece. If memory is refused, `is_whole` records that
/// until the message is shown, so that adding to a message can't fail.
#[derive(Drop)]
pub struct MessageText {
    alloc: Global,
    bytes: Vec<u8>,
    /// Whether nothing was lost for want of memory.
    is_whole: bool,
}

impl MessageText {
    /// An empty message.
    pub fn new(alloc: Global) -> MessageText
        ensures { HasText result [] }
    {
        MessageText {
            alloc,
            bytes: Vec::new(alloc),
            is_whole: true,
        }
    }

    /// The allocator of the message.
    pub fn alloc(&self) -> Global {
        self.alloc
    }

    /// The bytes of the message.
    pub fn as_bytes(&self) -> &[u8]
        ensures { result.now ≡ text_bytes self.now }
    {
        self.bytes.as_slice()
    }

    /// Whether nothing was lost for want of memory.
    pub fn is_whole(&self) -> bool
        ensures { result ≡ is_whole_text self.now }
    {
        self.is_whole
    }

    /// The message as it is shown. `Err` means that memory is refused, or was while the message was
    /// made.
    pub fn shown(&self) -> Result<ShownText, AllocError>
        ensures { (words : _) → HasText self.now words → IfOk result (λ text. text ≡ shown_characters words) }
    {
        if self.is_whole {
            ShownText::of(self.alloc, &self.bytes)
        } else {
            Err(AllocError)
        }
    }

    /// The message as it is shown, fitted to `columns` columns. The error is that of `shown`.
    pub fn within(&self, columns: usize) -> Result<ShownText, AllocError>
        ensures { (words : _) → HasText self.now words → IfOk result (λ text. text ≡ fitted columns (shown_characters words)) }
    {
        let text = self.shown()?;
        fitted(self.alloc, &text, columns)
    }

    /// Adds bytes.
    pub fn bytes(&mut self, bytes: &[u8])
        ensures { AppendsText self.old self.new bytes.now }
    {
        self.is_whole &= self.bytes.extend_from_slice(bytes).is_ok();
    }

    /// Adds another message. If the other one lost something, so has this one.
    pub fn add(&mut self, other: &MessageText)
        ensures { (words : _) → HasText other.now words → AppendsText self.old self.new words }
    {
        self.bytes(&other.bytes);
        self.is_whole &= other.is_whole;
    }

    /// Adds a text.
    pub fn text(&mut self, text: &str)
        ensures { AppendsText self.old self.new text.now }
    {
        self.bytes(text.as_bytes());
    }

    /// Takes all words away. If memory was refused, the message stays without being whole.
    pub fn clear(&mut self)
        ensures words { text_bytes self.new ≡ [] }
        ensures whole { is_whole_text self.new ≡ is_whole_text self.old }
    {
        self.bytes.clear();
    }

    /// Records that something is missing, as if memory had been refused.
    pub fn lose(&mut self)
        ensures { is_whole_text self.new ≡ false }
    {
        self.is_whole = false;
    }

    /// Adds characters.
    pub fn characters(&mut self, characters: &[char])
        ensures { AppendsText self.old self.new (encode_utf8_all characters.now) }
    {
        match text_of(self.alloc, characters) {
            Ok(text) => self.text(text.as_str()),
            Err(_) => self.is_whole = false,
        }
    }

    /// Adds blanks.
    pub fn blanks(&mut self, count: usize)
        ensures { AppendsText self.old self.new (replicate count 32) }
    {
        'blanks: for _blank in 0..count {
            self.text(" ");
        }
    }

    /// Adds another message as it is, right in `columns` columns: after blanks, where it is shown
    /// in fewer.
    pub fn add_right(&mut self, columns: usize, other: &MessageText)
        ensures { (words : _) → HasText other.now words → AppendsText self.old self.new (right_text columns words) }
    {
        self.blanks_before(columns, other);
        self.add(other);
    }

    /// Adds the blanks that fill `columns` columns with another message as it is shown.
    fn blanks_before(&mut self, columns: usize, other: &MessageText)
        ensures { (words : _) → HasText other.now words → AppendsText self.old self.new (blanks_before columns words) }
    {
        match other.shown() {
            Ok(text) => self.blanks(columns.saturating_sub(text.columns())),
            Err(_) => self.is_whole = false,
        }
    }

    /// Adds another message as it is shown, fitted to `columns` columns.
    pub fn add_within(&mut self, columns: usize, other: &MessageText)
        ensures { (words : _) → HasText other.now words → AppendsText self.old self.new (fitted_text columns words) }
    {
        match other.within(columns) {
            Ok(text) => self.characters(text.characters()),
            Err(_) => self.is_whole = false,
        }
    }

    /// Adds bytes with control characters escaped (see
    /// [`push_controls_escaped`](term_text::push_controls_escaped)).
    pub fn escaped(&mut self, bytes: &[u8])
        ensures { AppendsText self.old self.new (shown_text bytes.now) }
    {
        match escape_controls(self.alloc, bytes) {
            Ok(text) => self.text(text.as_str()),
            Err(_) => self.is_whole = false,
        }
    }

    /// Adds bytes with control characters escaped, cut to at most `limit` bytes (see
    /// [`escape_controls_within`](term_text::escape_controls_within)).
    pub fn escaped_within(&mut self, limit: usize, bytes: &[u8])
        ensures { AppendsText self.old self.new (cut_text limit (shown_text bytes.now)) }
    {
        match escape_controls_within(self.alloc, limit, bytes) {
            Ok(text) => self.text(text.as_str()),
            Err(_) => self.is_whole = false,
        }
    }

    /// Adds a number.
    pub fn number(&mut self, number: u64)
        ensures { AppendsText self.old self.new (decimal number) }
    {
        match format!(in self.alloc; "{number}") {
            Ok(text) => self.text(text.as_str()),
            Err(_) => self.is_whole = false,
        }
    }

    /// Adds a number of up to 128 bits.
    pub fn wide_number(&mut self, number: u128)
        ensures { AppendsText self.old self.new (decimal number) }
    {
        match format!(in self.alloc; "{number}") {
            Ok(text) => self.text(text.as_str()),
            Err(_) => self.is_whole = false,
        }
    }

    /// Adds a text as a JSON string (RFC 8259, section 7).
    pub fn json_string(&mut self, text: &str)
        ensures { AppendsText self.old self.new (compact_text (string text.now)) }
    {
        match json_string(self.alloc, text) {
            Ok(text) => self.text(text.as_str()),
            Err(_) => self.is_whole = false,
        }
    }

    /// Adds a number and its unit.
    pub fn quantity(&mut self, number: u64, unit: &str)
        ensures { AppendsText self.old self.new (decimal number ++ unit.now) }
    {
        self.number(number);
        self.text(unit);
    }

    /// Adds a number below 100 with two digits.
    pub(crate) fn two_digits(&mut self, number: u64)
        ensures { AppendsText self.old self.new (two_digits number) }
    {
        self.number(number / 10);
        self.number(number % 10);
    }

    /// Adds a number below 1,000 with three digits.
    pub(crate) fn three_digits(&mut self, number: u64)
        ensures { AppendsText self.old self.new (three_digits number) }
    {
        self.number(number / 100);
        self.number(number / 10 % 10);
        self.number(number % 10);
    }

    /// Adds a number, with a comma at each thousand.
    #[tactic(auto, unfolding(crate::specs::Words::grouped))]
    pub fn count(&mut self, number: u64)
        ensures { AppendsText self.old self.new (grouped number) }
    {
        self.groups(GROUPS, number);
    }

    /// Adds a number that has at most `groups` groups of three digits after the first.
    fn groups(&mut self, groups: u32, number: u64)
        ensures { AppendsText self.old self.new (grouped_within groups number) }
    {
        if groups == 0 || number < 1_000 {
            return self.number(number);
        }
        self.groups(groups - 1, number / 1_000);
        self.text(",");
        self.three_digits(number % 1_000);
    }

    /// Adds a count and a noun, as `1 step` or `2 steps`. The noun is given in the singular.
    #[tactic(auto, unfolding(crate::specs::Words::number_words))]
    pub fn things(&mut self, count: u64, noun: &str)
        ensures { AppendsText self.old self.new (number_words count noun.now) }
    {
        self.counted(count, " ", noun);
    }

    /// Adds a count, `more` and a noun, as `1 more step` or `2 more steps`. The noun is given in
    /// the singular.
    #[tactic(auto, unfolding(crate::specs::Words::more_words))]
    pub fn more_things(&mut self, count: u64, noun: &str)
        ensures { AppendsText self.old self.new (more_words count noun.now) }
    {
        self.counted(count, " more ", noun);
    }

    /// Adds a count, the text `between`, and a noun, in the plural unless the count is 1.
    fn counted(&mut self, count: u64, between: &str, noun: &str)
        ensures { AppendsText self.old self.new (counted_words count between.now noun.now) }
    {
        self.count(count);
        self.text(between);
        self.text(noun);
        if count != 1 {
            self.text("s");
        }
    }

    /// Adds a duration of so many microseconds, rounded down, as `950ms`, `1.5s`, `1m05s` or
    /// `2h10m`.
    #[tactic(auto, unfolding(crate::specs::Words::duration_words))]
    pub fn duration(&mut self, microseconds: u128)
        ensures { AppendsText self.old self.new (duration_words microseconds) }
    {
        let seconds = u64::try_from(microseconds / SECOND).unwrap_or(u64::MAX);
        if seconds < 10 {
            self.short(seconds, (microseconds % SECOND / 1_000) as u64);
        } else {
            self.long(seconds);
        }
    }

    /// Adds a duration of less than ten seconds.
    fn short(&mut self, seconds: u64, milliseconds: u64)
        ensures { AppendsText self.old self.new (short_words seconds milliseconds) }
    {
        let tenths = milliseconds / 100;
        match (seconds, milliseconds) {
            (0, 0) => self.text("0s"),
            (0, _) => self.quantity(milliseconds, "ms"),
            _ if tenths == 0 => self.quantity(seconds, "s"),
            _ => {
                self.quantity(seconds, ".");
                self.number(tenths);
                self.text("s");
            }
        }
    }

    /// Adds a duration of ten seconds or more.
    fn long(&mut self, seconds: u64)
        ensures { AppendsText self.old self.new (long_words seconds) }
    {
        let minutes = seconds / 60;
        let hours = minutes / 60;
        if minutes == 0 {
            self.quantity(seconds % 60, "s");
        } else if hours == 0 {
            self.quantity(minutes % 60, "m");
            self.two_digits(seconds % 60);
            self.text("s");
        } else {
            self.quantity(hours, "h");
            self.two_digits(minutes % 60);
            self.text("m");
        }
    }
}

/// The characters as a text. `Err` means that memory was refused.
fn text_of(alloc: Global, characters: &[char]) -> Result<String, AllocError>
    ensures { IfOk result (λ text. string_bytes text ≡ encode_utf8_all characters.now) }
{
    characters.iter().copied().collect(alloc)
}

/// The text as a JSON string. `Err` means that memory was refused.
fn json_string(alloc: Global, text: &str) -> Result<String, AllocError>
    ensures { IfOk result (λ quoted. string_bytes quoted ≡ compact_text (string text.now)) }
{
    Value::try_from_str(alloc, text)?.to_string(alloc)
}
