//! Builds JSON objects member by member (RFC 8259, section 4).

ghost use Rattle.std.specs.Prelude.{◌≡◌, IfOk, OnErr, false};
ghost use Rattle.serde_json.specs.Data.{Members as members_type, boolean, no_members, object, put as with_member};
ghost use Rattle.serde_json.specs.View.{view};
ghost use Rattle.stream_check.specs.Objects.{with_number, with_text};
ghost use Rattle.stream_check.specs.Putting.{Holds, Puts};
ghost use Rattle.term_text.specs.Shown.{readable_text};

use serde_json::{Map, Value, put};
use std::alloc::{AllocError, Global};
use term_text::readable;

/// The members of an object that is built. Refused memory is remembered until `object`, so that
/// adding a member returns no error.
#[derive(Drop)]
pub struct Members {
    alloc: Global,
    values: Map<String, Value>,
    /// Whether memory sufficed for all members so far.
    is_whole: bool,
}

impl Members {
    /// An object without members.
    pub fn new(alloc: Global) -> Members
        ensures { Holds result no_members }
    {
        Members {
            alloc,
            values: Map::new(alloc),
            is_whole: true,
        }
    }

    /// The allocator of the members.
    pub fn alloc(&self) -> Global {
        self.alloc
    }

    /// Returns the object. `Err` where memory was refused for a member.
    pub fn object(self) -> Result<Value, AllocError>
        ensures { (ms : members_type) → Holds self ms → IfOk result (λ value. view value ≡ object ms) }
    {
        if self.is_whole {
            Ok(Value::Object(self.values))
        } else {
            Err(AllocError)
        }
    }

    /// Adds a member with this value.
    pub fn value(&mut self, name: &str, value: Value)
        ensures { Puts self.old self.new (with_member name.now (view value)) }
    {
        self.is_whole &= put(&mut self.values, self.alloc, name, value).is_ok();
    }

    /// Adds a member with this value, or remembers that memory was refused for the value.
    pub fn made(&mut self, name: &str, value: Result<Value, AllocError>)
        ensures made { IfOk value (λ made. Puts self.old self.new (with_member name.now (view made))) }
        ensures refused { OnErr value (self.new.is_whole ≡ false) }
    {
        match value {
            Ok(value) => self.value(name, value),
            Err(_) => self.is_whole = false,
        }
    }

    /// Adds a member with a text.
    pub fn text(&mut self, name: &str, text: &str)
        ensures { Puts self.old self.new (with_text name.now text.now) }
    {
        let value = Value::try_from_str(self.alloc, text);
        self.made(name, value);
    }

    /// Adds a member with the bytes as readable text.
    pub fn readable(&mut self, name: &str, bytes: &[u8])
        ensures { Puts self.old self.new (with_text name.now (readable_text bytes.now)) }
    {
        match readable(self.alloc, bytes) {
            Ok(text) => self.text(name, text.as_str()),
            Err(_) => self.is_whole = false,
        }
    }

    /// Adds a member with a whole number.
    pub fn number(&mut self, name: &str, number: u64)
        ensures { Puts self.old self.new (with_number name.now number) }
    {
        self.value(name, Value::from(number));
    }

    /// Adds a member that is true or false.
    pub fn flag(&mut self, name: &str, flag: bool)
        ensures { Puts self.old self.new (with_member name.now (boolean flag)) }
    {
        self.value(name, Value::from(flag));
    }
}
