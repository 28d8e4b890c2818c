//! Times of ticks, which are exact.

ghost use Rattle.term_words.specs.MessageTexts.{AppendsText};
ghost use Rattle.term_words.specs.Words.{fraction_words, parts_words, tick_of_seconds_words, tick_words};

use crate::message_text::MessageText;

impl MessageText {
    /// Adds the exact time of a tick, in milliseconds.
    #[tactic(auto, unfolding(crate::specs::Words::tick_words))]
    pub fn tick(&mut self, milliseconds: u64)
        ensures { AppendsText self.old self.new (tick_words milliseconds) }
    {
        let seconds = milliseconds / 1_000;
        let minutes = seconds / 60;
        let hours = minutes / 60;
        if minutes == 0 {
            self.tick_of_seconds(seconds, milliseconds % 1_000);
        } else if hours == 0 {
            self.parts(minutes, "m", seconds % 60, "s");
        } else {
            self.parts(hours, "h", minutes % 60, "m");
        }
    }

    /// Adds `whole` with its unit and, unless it is 0, `rest` with two digits and the next unit.
    fn parts(&mut self, whole: u64, unit: &str, rest: u64, next: &str)
        ensures { AppendsText self.old self.new (parts_words whole unit.now rest next.now) }
    {
        self.quantity(whole, unit);
        if rest > 0 {
            self.two_digits(rest);
            self.text(next);
        }
    }

    /// Adds a time of less than a minute, without zeros at the end of its fraction.
    fn tick_of_seconds(&mut self, seconds: u64, milliseconds: u64)
        ensures { AppendsText self.old self.new (tick_of_seconds_words seconds milliseconds) }
    {
        if milliseconds == 0 {
            self.quantity(seconds, "s");
        } else if seconds == 0 {
            self.quantity(milliseconds, "ms");
        } else {
            self.quantity(seconds, ".");
            self.fraction(milliseconds);
        }
    }

    /// Adds the digits of a fraction of a second, and its unit.
    fn fraction(&mut self, thousandths: u64)
        ensures { AppendsText self.old self.new (fraction_words thousandths) }
    {
        if thousandths % 100 == 0 {
            self.number(thousandths / 100);
        } else if thousandths % 10 == 0 {
            self.two_digits(thousandths / 10);
        } else {
            self.three_digits(thousandths);
        }
        self.text("s");
    }
}
