//! How long steps took.

ghost use Rattle.std.specs.Prelude.{◌≡◌, [], find, IfOk, OnOk, option_map, position};
ghost use Rattle.std.specs.Option.{option_copied};
ghost use Rattle.stream_watch.specs.Lengths.{has_room, is_kind, lengths_of, lengths_view, longer_by, one_length, with_first, with_length};

use std::alloc::{AllocError, Global};

/// How many actions with a type are kept at most.
const MAX_KINDS: usize = 1000;

/// How many bytes an action and a type have together at most.
const MAX_NAMES: usize = 256;

/// The shortest and the longest time of the steps of one action and type that ended well, in
/// microseconds.
#[derive(Drop)]
pub struct KindLengths {
    pub action: String,
    /// The type of the resource.
    pub kind: String,
    pub shortest: u64,
    pub longest: u64,
}

impl KindLengths {
    /// The lengths of a first step. `Err` where memory is refused.
    fn first(alloc: Global, action: &str, kind: &str, took: u64) -> Result<KindLengths, AllocError>
        ensures { IfOk result (λ first. lengths_view first ≡ one_length action.now kind.now took) }
    {
        Ok(KindLengths {
            action: String::from_str(alloc, action)?,
            kind: String::from_str(alloc, kind)?,
            shortest: took,
            longest: took,
        })
    }

    /// The lengths after a further step.
    fn with(self, took: u64) -> KindLengths
        ensures { lengths_view result ≡ longer_by took (lengths_view self) }
    {
        KindLengths {
            action: self.action,
            kind: self.kind,
            shortest: self.shortest.min(took),
            longest: self.longest.max(took),
        }
    }

    /// Whether these are the lengths of the action and the type.
    fn is(&self, action: &str, kind: &str) -> bool
        ensures { result ≡ is_kind action.now kind.now (lengths_view self.now) }
    {
        self.action.as_str() == action && self.kind.as_str() == kind
    }
}

/// How long the steps of each action and type took that ended well.
#[derive(Drop)]
pub struct Lengths {
    list: Vec<KindLengths>,
}

impl Lengths {
    /// No lengths.
    pub fn new(alloc: Global) -> Lengths
        ensures { lengths_of result ≡ [] }
    {
        Lengths {
            list: Vec::new(alloc),
        }
    }

    /// Returns the lengths of the action and the type, where such a step ended well.
    pub fn of(&self, action: &str, kind: &str) -> Option<&KindLengths>
        ensures { option_map lengths_view (option_copied result) ≡ find (is_kind action.now kind.now) (lengths_of self.now) }
    {
        let index = self.place(action, kind)?;
        Some(&self.list[index])
    }

    /// A step took so long, in microseconds. Of a thousand actions and types the lengths are kept.
    /// `Err` where memory is refused.
    pub fn add(
        &mut self,
        alloc: Global,
        action: &str,
        kind: &str,
        took: u64,
    ) -> Result<(), AllocError>
        ensures { OnOk result (lengths_of self.new ≡ with_length action.now kind.now took (lengths_of self.old)) }
    {
        match self.place(action, kind) {
            Some(index) => {
                let kept = self.list.remove(index).with(took);
                self.list.push(kept)?;
            }
            None => self.add_first(alloc, action, kind, took)?,
        }
        Ok(())
    }

    /// Adds the lengths of a first step, if there is room. `Err` where memory is refused.
    fn add_first(
        &mut self,
        alloc: Global,
        action: &str,
        kind: &str,
        took: u64,
    ) -> Result<(), AllocError>
        ensures { OnOk result (lengths_of self.new ≡ with_first action.now kind.now took (lengths_of self.old)) }
    {
        if self.has_room(action, kind) {
            let first = KindLengths::first(alloc, action, kind, took)?;
            self.list.push(first)?;
        }
        Ok(())
    }

    /// Whether there is room for another action and type.
    fn has_room(&self, action: &str, kind: &str) -> bool
        ensures { result ≡ has_room action.now kind.now (lengths_of self.now) }
    {
        self.list.len() < MAX_KINDS
            && action.len() <= MAX_NAMES
            && kind.len() <= MAX_NAMES - action.len()
    }

    /// Returns the place of the action and the type.
    fn place(&self, action: &str, kind: &str) -> Option<usize>
        ensures { result ≡ position (is_kind action.now kind.now) (lengths_of self.now) }
    {
        self.list.iter().position(|kept| kept.is(action, kind))
    }
}
