//! Answers a command line that gives no invocation.

ghost use Rattle.std.specs.Prelude.{◌≡◌, ◌≤◌};
ghost use Rattle.std.specs.Io.KnownBytes.{Keeps};
ghost use Rattle.apply_cli.specs.Status.{hook_status_of, usage_status_of};

use crate::status::{FAILED, REFUSED};
use apply_cli_args::{Usage, VERSION};
use apply_hooks::HookError;
use std::io::Write;
use stream_tool::report;

/// Reports why the arguments give no invocation, and returns the exit status: 0 for help and the
/// version, 3 if memory was refused or the clock gave no present, else 2.
///
/// Help and the version are printed on `out`, everything else on `faults`; the other one is
/// unchanged. A text that cannot be written is dropped.
pub fn answer_usage<W: Write, E: Write>(usage: &Usage, out: &mut W, faults: &mut E) -> u8
    ensures status { result ≡ usage_status_of usage.now }
    ensures quiet { result ≡ 0 → Keeps (E.contents faults.old) (E.contents faults.new) }
    ensures refused { 2 ≤ result → Keeps (W.contents out.old) (W.contents out.new) }
{
    match usage {
        Usage::Help(text) => {
            let _ = out.write_all(text.as_str().as_bytes());
            let _ = out.flush();
            0
        }
        Usage::Version => {
            let _ = writeln!(out, "applystream {VERSION}");
            let _ = out.flush();
            0
        }
        Usage::Words(text) => {
            let _ = faults.write_all(text.as_str().as_bytes());
            REFUSED
        }
        Usage::Conflict => {
            report(
                faults,
                "--parallelism takes no --workers and no --queue beside it",
            );
            REFUSED
        }
        Usage::Misplaced(misplaced) => {
            report(faults, *misplaced);
            REFUSED
        }
        Usage::Clock => {
            report(faults, "the clock could not be read");
            FAILED
        }
        Usage::Moment(error) => {
            report(faults, *error);
            REFUSED
        }
        Usage::Hooks => report_hook(faults, HookError::Full),
        Usage::Memory => report_hook(faults, HookError::Memory),
    }
}

/// Reports why a hook was not added, and returns the exit status.
pub fn report_hook<E: Write>(faults: &mut E, refused: HookError) -> u8
    ensures status { result ≡ hook_status_of refused }
    ensures bad { (2 ≤ result) × (result ≤ 3) }
{
    report(faults, refused);
    match refused {
        HookError::Full => REFUSED,
        HookError::Memory => FAILED,
    }
}
