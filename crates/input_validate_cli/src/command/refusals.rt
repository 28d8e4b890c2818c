//! Prints why a validation failed.

ghost use Rattle.std.specs.Prelude.{◌≡◌, ◌⊎◌, Err, IfErr, OnErr};
ghost use Rattle.std.specs.Io.KnownBytes.{Keeps};
ghost use Rattle.input_validate_cli.specs.Causes.{TakesMemory, fault_status_of};
ghost use Rattle.input_validate_cli.specs.declared.command.validate_fault.ValidateFault.TheVariants.{Gone, Memory};

use crate::command::validate_fault::ValidateFault;
use std::alloc::{AllocError, Global};
use std::io;
use std::io::Write;
use stream_lines::FailedRead;
use stream_tool::{FAILED, FileFault, REFUSED, Report, report};
use term_text::escape_controls;

/// Prints why an input was not read, and returns the answer with its exit status.
///
/// A script's file that could not be opened or read is printed with its name, `script`. If memory
/// is refused for the name, this is printed in its place, and the answer is
/// `ValidateFault::Memory`.
pub fn refuse_input<E: Write>(
    alloc: Global,
    faults: &mut E,
    script: Option<&str>,
    fault: ValidateFault,
) -> Report<Result<(), ValidateFault>>
    ensures answer { (result.answer ≡ Err fault) ⊎ ((result.answer ≡ Err Memory) × TakesMemory fault) }
    ensures status { IfErr result.answer (λ why. result.status ≡ fault_status_of why) }
    ensures gone { fault ≡ Gone → Keeps (E.contents faults.old) (E.contents faults.new) }
{
    let printed = match (fault, script) {
        (ValidateFault::Unopened(error), Some(name)) => {
            report_script(alloc, faults, name, "opened", Some(&error))
        }
        (ValidateFault::Script(failed), Some(name)) => report_unread(alloc, faults, name, failed),
        _ => {
            return Report {
                status: refuse(faults, fault),
                answer: Err(fault),
            };
        }
    };
    match printed {
        Ok(()) => Report {
            status: REFUSED,
            answer: Err(fault),
        },
        Err(_) => Report {
            status: refuse(faults, ValidateFault::Memory),
            answer: Err(ValidateFault::Memory),
        },
    }
}

/// Prints that a read of the script's file of that name failed. `Err` is as in `report_script`.
fn report_unread<E: Write>(
    alloc: Global,
    faults: &mut E,
    name: &str,
    failed: FailedRead,
) -> Result<(), AllocError>
    ensures { OnErr result (Keeps (E.contents faults.old) (E.contents faults.new)) }
{
    match failed.number() {
        Some(number) => {
            let error = io::Error::from_raw_os_error(number);
            report_script(alloc, faults, name, "read", Some(&error))
        }
        None => report_script(alloc, faults, name, "read", None),
    }
}

/// Prints what could not be done with the script's file of that name, and the error of the system.
/// Control characters in the name are escaped. `Err` means that memory was refused for the name,
/// and nothing was printed.
fn report_script<E: Write>(
    alloc: Global,
    faults: &mut E,
    name: &str,
    done: &str,
    error: Option<&io::Error>,
) -> Result<(), AllocError>
    ensures { OnErr result (Keeps (E.contents faults.old) (E.contents faults.new)) }
{
    let name = escape_controls(alloc, name.as_bytes())?;
    report(
        faults,
        FileFault {
            what: "script file",
            name: name.as_str(),
            done,
            error,
        },
    );
    Ok(())
}

/// Prints why the findings were not written, and returns the exit status.
///
/// Nothing is printed if the reader of the output is gone: whoever ended that reader, as `head`
/// ends, knows.
pub fn refuse<E: Write>(faults: &mut E, fault: ValidateFault) -> u8
    ensures status { result ≡ fault_status_of fault }
    ensures gone { fault ≡ Gone → Keeps (E.contents faults.old) (E.contents faults.new) }
{
    match fault {
        ValidateFault::Gone => FAILED,
        ValidateFault::Plan(_) | ValidateFault::Unopened(_) | ValidateFault::Script(_) => {
            report(faults, fault);
            REFUSED
        }
        ValidateFault::Memory | ValidateFault::Unwritten => {
            report(faults, fault);
            FAILED
        }
    }
}
