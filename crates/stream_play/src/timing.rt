//! Waits until a line is due.

ghost use Rattle.std.specs.Prelude.{◌≡◌, ◌++◌, ◌∷◌, [], ℤ, IfErr, IfOk, List, Option};
ghost use Rattle.std.specs.Io.KnownBytes.{Keeps};
ghost use Rattle.stream_play.specs.Due.{HasPaced};
ghost use Rattle.stream_play.specs.Timestamp.{timestamp_of};
ghost use Rattle.stream_play.specs.declared.play_fault.PlayFault.TheVariants.{Memory};

use crate::pace::Pace;
use crate::play_fault::PlayFault;
use crate::speed::Speed;
use crate::timestamp::timestamp_of;
use crate::watch::Watch;
use apply_json::Scratch;
use std::alloc::Global;
use std::io::Write;
use std::thread;
use std::time::Clock;
use stream_tool::{WriteFault, flush};

/// What is stored between lines, to know when the next line is due.
#[derive(Drop)]
pub struct Timing {
    pace: Pace,
    watch: Watch,
    /// Reused for parsing each line.
    scratch: Scratch,
}

impl Timing {
    /// A state that has read no line.
    pub fn new(alloc: Global, speed: Speed) -> Timing
        ensures speed { result.pace.speed ≡ speed }
        ensures paced { HasPaced result.pace [] }
    {
        Timing {
            pace: Pace::new(speed),
            watch: Watch::Waiting,
            scratch: Scratch::new(alloc),
        }
    }

    /// Returns when the line that was just read is due, in microseconds after the first message was
    /// read. `Err` with `PlayFault::Memory` where memory is refused.
    pub fn due<C: Clock>(&mut self, alloc: Global, clock: &C, line: &[u8]) -> Result<u64, PlayFault>
        ensures speed { self.new.pace.speed ≡ self.old.pace.speed }
        ensures due { IfOk result (λ due. due ≡ self.new.pace.due) }
        ensures paced { IfOk result (λ due. (timestamps : List (Option ℤ)) → HasPaced self.old.pace timestamps
            → HasPaced self.new.pace (timestamps ++ timestamp_of line.now ∷ [])) }
        ensures err { IfErr result (λ fault. fault ≡ Memory) }
    {
        let timestamp = timestamp_of(alloc, &mut self.scratch, line)?;
        self.watch = match (self.watch, timestamp) {
            (Watch::Waiting, Some(_)) => Watch::begun(clock),
            (watch, _) => watch,
        };
        Ok(self.pace.line(timestamp))
    }

    /// Waits until `due` microseconds have passed since the first message was read. The output is
    /// flushed before each sleep. A sleep that ends early is repeated. `Err` where the flush fails.
    pub fn wait<C: Clock, W: Write>(
        &self,
        clock: &C,
        due: u64,
        output: &mut W,
    ) -> Result<(), WriteFault>
        ensures { Keeps (W.contents output.old) (W.contents output.new) }
    {
        for _ in 0..u64::MAX {
            let rest = self.watch.rest(clock, due);
            if rest.is_zero() {
                break;
            }
            flush(output)?;
            thread::sleep(clock, rest);
        }
        Ok(())
    }
}
