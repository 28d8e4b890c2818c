//! Reports why there is no picture.

ghost use Rattle.std.specs.Prelude.{◌≡◌};
ghost use Rattle.std.specs.Io.KnownBytes.{Keeps};
ghost use Rattle.stream_view.specs.Viewed.{IsFaultStatus, fault_status_of};
ghost use Rattle.stream_view.specs.declared.command.picture_fault.PictureFault.TheVariants.{Undrawn};
ghost use Rattle.stream_view.specs.declared.draw_fault.DrawFault.TheVariants.{Gone};

use crate::command::picture_fault::PictureFault;
use crate::command::settings::Settings;
use crate::draw_fault::DrawFault;
use std::alloc::Global;
use std::io::Write;
use stream_timeline::TimelineFault;
use stream_tool::{FAILED, REFUSED, refuse_unread, report};

/// Reports why there is no picture, with the name of a file that could not be read, and returns the
/// exit status. Nothing is reported where the reader of the output is gone: whoever ended it, as
/// with `head`, knows that.
pub fn refuse<E: Write>(
    alloc: Global,
    faults: &mut E,
    settings: &Settings,
    fault: PictureFault,
) -> u8
    ensures status { IsFaultStatus settings.now.file fault result }
    ensures gone { fault ≡ Undrawn Gone → Keeps (E.contents faults.old) (E.contents faults.new) }
{
    match (fault, settings.file()) {
        (PictureFault::Undrawn(DrawFault::Gone), _) => FAILED,
        (PictureFault::NoTimeline(TimelineFault::Unread(failed)), Some(name)) => {
            refuse_unread(alloc, faults, name, failed)
        }
        _ => {
            report(faults, fault);
            fault_status(fault)
        }
    }
}

/// The exit status of a fault.
fn fault_status(fault: PictureFault) -> u8
    ensures { result ≡ fault_status_of fault }
{
    match fault {
        PictureFault::NoTimeline(TimelineFault::Memory) | PictureFault::Undrawn(_) => FAILED,
        PictureFault::NoTimeline(_) | PictureFault::NoRun(_) => REFUSED,
    }
}
