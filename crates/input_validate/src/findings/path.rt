//! The place of a finding.

ghost use Rattle.std.specs.Prelude.{◌≡◌, ◌<◌, [], ◌∷◌, length, IfOk, OnOk, Some, slice_get};

use crate::findings::name::Name;
use std::alloc::{AllocError, Global};
use std::marker::Model;

/// One step of a path, from a value to a member or an item of it.
#[derive(Clone, Copy, Debug)]
pub enum Segment {
    /// The member of that name.
    Member(Name),
    /// A member with any other name, by its number in its object. Members are in the order of their
    /// names' bytes.
    Other(usize),
    /// The item of that number, counted from 0.
    Item(usize),
}

/// A path into a value. Contracts see the list of its segments, the outermost first.
#[derive(Debug, Drop)]
pub struct Path {
    innermost_first: Vec<Segment>,
}

impl Model for Path {
    ghost use Rattle.std.specs.Prelude.{List, reverse};
    ghost use Rattle.input_validate.specs.declared.findings.path.Segment.{Segment};

    ghost Value = { List Segment };

    ghost view = { λ path. reverse path.innermost_first.items };
}

impl Path {
    /// Makes the path to the value itself.
    pub fn here(alloc: Global) -> Path
        ensures { result ≡ [] }
    {
        Path {
            innermost_first: Vec::new(alloc),
        }
    }

    /// Puts a segment in front of the path. `Err` means that memory was refused.
    pub fn begin_with(&mut self, segment: Segment) -> Result<(), AllocError>
        ensures { OnOk result (self.new ≡ segment ∷ self.old) }
    {
        self.innermost_first.push(segment)?;
        Ok(())
    }

    /// Returns the number of segments.
    pub fn len(&self) -> usize
        ensures { result ≡ length self.now }
    {
        self.innermost_first.len()
    }

    /// Returns the segment with this number. The outermost has the number 0.
    pub fn get(&self, number: usize) -> Segment
        requires { number < length self.now }
        ensures { Some result ≡ slice_get self.now number }
    {
        self.innermost_first[self.innermost_first.len() - 1 - number]
    }
}
