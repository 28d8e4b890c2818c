//! Numbers for people.

use std::fmt;

/// The powers of 1,000, the greatest first.
const UNITS: [u64; 7] = [
    1_000_000_000_000_000_000,
    1_000_000_000_000_000,
    1_000_000_000_000,
    1_000_000_000,
    1_000_000,
    1_000,
    1,
];

/// A number that is printed with a comma at each thousand.
#[derive(Clone, Copy)]
pub struct Count(pub u64);

impl fmt::Display for Count {
    fn fmt<W: fmt::Write>(&self, f: &mut fmt::Formatter<W>) -> fmt::Result {
        let mut has_begun = false;
        for unit in UNITS {
            let group = self.0 / unit.max(1) % 1_000;
            if has_begun {
                write!(f, ",{group:03}")?;
            } else if group > 0 || unit == 1 {
                write!(f, "{group}")?;
                has_begun = true;
            }
        }
        Ok(())
    }
}
