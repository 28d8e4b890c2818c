//! Reports why a stream could not be checked.

ghost use Rattle.std.specs.Prelude.{◌≡◌, Err, IfErr, is_some};
ghost use Rattle.stream_check.specs.Reports.{TakesMemory};
ghost use Rattle.stream_check.specs.declared.command.unreported.Unreported.TheVariants.{Memory};

use crate::command::unreported::Unreported;
use crate::verdict::read_fault::ReadFault;
use std::alloc::Global;
use std::io;
use std::io::Write;
use stream_tool::{FAILED, refuse_file, refuse_unread, report};

/// Reports on `faults` why there is no verdict. `Err` with `Unreported::Memory` where memory was
/// refused for the name of an unreadable file. This is reported in its place.
pub fn refuse<E: Write>(
    alloc: Global,
    faults: &mut E,
    name: Option<&str>,
    fault: ReadFault,
) -> Result<(), Unreported>
    ensures { IfErr result (λ unreported. (unreported ≡ Memory) × TakesMemory (is_some name.entry) (Err fault)) }
{
    match (fault, name) {
        (ReadFault::Unread(failed), Some(name)) => {
            if refuse_unread(alloc, faults, name, failed) == FAILED {
                Err(Unreported::Memory)
            } else {
                Ok(())
            }
        }
        _ => {
            report(faults, fault);
            Ok(())
        }
    }
}

/// Reports on `faults` why the messages could not be kept in the file of that name. `Err` with
/// `Unreported::Memory` where memory was refused for the name of a file. This is reported in its
/// place.
pub fn refuse_unkept<E: Write>(
    alloc: Global,
    faults: &mut E,
    input: Option<&str>,
    name: &str,
    fault: ReadFault,
) -> Result<(), Unreported>
    ensures { IfErr result (λ unreported. (unreported ≡ Memory) × TakesMemory (is_some input.entry) (Err fault)) }
{
    let status = match fault {
        ReadFault::Uncreated(failed) => match failed.number {
            Some(number) => {
                let error = io::Error::from_raw_os_error(number);
                refuse_file(alloc, faults, name, "created", Some(&error))
            }
            None => refuse_file(alloc, faults, name, "created", None),
        },
        ReadFault::Unwritten => refuse_file(alloc, faults, name, "written", None),
        _ => return refuse(alloc, faults, input, fault),
    };
    if status == FAILED {
        Err(Unreported::Memory)
    } else {
        Ok(())
    }
}
