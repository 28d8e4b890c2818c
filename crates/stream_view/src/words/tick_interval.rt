//! The distance of the ticks of an axis.

const MILLISECOND: u64 = 1_000;

const SECOND: u64 = 1_000 * MILLISECOND;

const MINUTE: u64 = 60 * SECOND;

const HOUR: u64 = 60 * MINUTE;

const WEEK: u64 = 168 * HOUR;

/// The distances up to a week, in microseconds.
const STEPS: [u64; 28] = [
    MILLISECOND,
    2 * MILLISECOND,
    5 * MILLISECOND,
    10 * MILLISECOND,
    20 * MILLISECOND,
    50 * MILLISECOND,
    100 * MILLISECOND,
    200 * MILLISECOND,
    500 * MILLISECOND,
    SECOND,
    2 * SECOND,
    5 * SECOND,
    10 * SECOND,
    15 * SECOND,
    30 * SECOND,
    MINUTE,
    2 * MINUTE,
    5 * MINUTE,
    10 * MINUTE,
    15 * MINUTE,
    30 * MINUTE,
    HOUR,
    2 * HOUR,
    6 * HOUR,
    12 * HOUR,
    24 * HOUR,
    48 * HOUR,
    WEEK,
];

/// The least of these distances of which at most `most` multiples above 0 fit into the span. Beyond
/// a week, the distance is a whole number of weeks. Span and distance are in microseconds.
pub fn tick_interval(span: u64, most: u64) -> u64 {
    for step in STEPS {
        if span / step.max(1) <= most {
            return step;
        }
    }
    let weeks = span / most.saturating_add(1).saturating_mul(WEEK) + 1;
    weeks.saturating_mul(WEEK)
}
