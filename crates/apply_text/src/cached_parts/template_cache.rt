//! Which slot of the cache belongs to which change.

ghost use Rattle.std.specs.Prelude.{◌<◌, ◌≤◌, IfSome};

/// How many slots there are.
pub const CACHE_LEN: usize = 64;

/// How many rows the slots form. A change belongs to the row `number % ROWS`.
const ROWS: usize = 8;

/// How many slots a row has.
const WIDTH: usize = 8;

/// Which changes have slots. When a row is full, the change that got its slot first loses it.
#[derive(Drop)]
pub struct TemplateCache {
    // The numbers of the changes that have slots, row by row. Free slots hold `u32::MAX`, which is
    // no number of a change.
    numbers: [u32; CACHE_LEN],
    // How often a slot was given away, row by row.
    turns: [usize; ROWS],
}

impl TemplateCache {
    /// All slots are free.
    pub fn new() -> TemplateCache {
        TemplateCache {
            numbers: [u32::MAX; CACHE_LEN],
            turns: [0; ROWS],
        }
    }

    /// The slot of change `number`. Gives it a slot if it has none.
    pub fn slot_of(&mut self, number: u32) -> usize
        ensures { result < 64 }
    {
        let row = number as usize % ROWS;
        match self.find(row * WIDTH, number) {
            Some(slot) => slot,
            None => self.take(row, number),
        }
    }

    /// Looks for `number` in the row that starts at slot `begin`.
    fn find(&self, begin: usize, number: u32) -> Option<usize>
        requires { begin ≤ 56 }
        ensures { IfSome result (λ slot. slot < 64) }
    {
        for way in 0..WIDTH {
            if self.numbers[begin + way] == number {
                return Some(begin + way);
            }
        }
        None
    }

    /// Gives the next slot of the row to change `number`.
    fn take(&mut self, row: usize, number: u32) -> usize
        requires { row < 8 }
        ensures { result < 64 }
    {
        let turn = self.turns[row];
        self.turns[row] = turn.wrapping_add(1);
        let slot = row * WIDTH + turn % WIDTH;
        self.numbers[slot] = number;
        slot
    }
}
