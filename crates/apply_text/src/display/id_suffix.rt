//! The end of a message that shows an object's id.

ghost use Rattle.std.specs.Prelude.{◌≡◌, ◌++◌, Some, OnOk, string_bytes};
ghost use Rattle.std.specs.Option.{option_copied};
ghost use Rattle.apply_text.specs.Message as messages;

use std::alloc::AllocError;
use std::fmt;

/// An object's id, printed as ` [id=ID]`. `None` prints nothing.
#[derive(Clone, Copy, Drop)]
pub struct IdSuffix<'a> {
    pub id: Option<&'a str>,
}

impl fmt::Display for IdSuffix<'_> {
    ghost output = { λ note. Some (messages.id_suffix (option_copied note.id)) };

    fn fmt<W: fmt::Write>(&self, f: &mut fmt::Formatter<W>) -> fmt::Result {
        match self.id {
            Some(id) => write!(f, " [id={id}]"),
            None => Ok(()),
        }
    }
}

/// Appends what `IdSuffix` prints. `Err` when memory is refused.
pub fn push_id_suffix(line: &mut String, id: Option<&str>) -> Result<(), AllocError>
    ensures { OnOk result
        (string_bytes line.new ≡ string_bytes line.old ++ messages.id_suffix (option_copied id.entry)) }
{
    match id {
        Some(id) => {
            line.push_str(" [id=")?;
            line.push_str(id)?;
            line.push_str("]")
        }
        None => Ok(()),
    }
}
