//! The names that the objects of a script may have.

use crate::extras::{note, outputs};
use crate::findings::name::Name;
use crate::planning::entry as planned;
use crate::script::{diagnostic, entry, failure, output, provisioner, step, top_level, wait};

/// Returns the names of the members that a run reads of an object of a script. The object stands in
/// the member `within`, or in an item of it; without `within` it is the top level. `around` is the
/// member that holds `within`.
pub fn known_names(around: Option<Name>, within: Option<Name>) -> &'static [Name] {
    match (around, within) {
        (_, None) => &top_level::NAMES,
        (_, Some(Name::Changes)) => &entry::NAMES,
        (_, Some(Name::Steps)) => &step::NAMES,
        (_, Some(Name::Outputs)) => &outputs::NAMES,
        (_, Some(Name::Diagnostics)) => &note::NAMES,
        (_, Some(Name::Planning)) => &planned::NAMES,
        (_, Some(Name::Provisioners)) => &provisioner::NAMES,
        (_, Some(Name::Output)) => &output::NAMES,
        (_, Some(Name::After)) => &wait::NAMES,
        (Some(Name::Steps | Name::Planning), Some(Name::Failed)) => &failure::NAMES,
        (_, Some(Name::Failed | Name::Warning)) => &diagnostic::NAMES,
        (_, Some(_)) => &[],
    }
}
