//! Why a stream gives no script.

ghost use Rattle.std.specs.Prelude.{◌≡◌};
ghost use Rattle.stream_record_script.specs.Causes.{of_script_fault, of_waits_fault};
ghost use Rattle.stream_record_script.specs.declared.recording_fault.RecordingFault.TheVariants.{Memory};

use std::alloc::AllocError;
use stream_record::ScriptFault;
use stream_record_waits::WaitsFault;

/// Why a stream gives no script.
#[derive(Clone, Copy, Debug, Drop)]
pub enum RecordingFault {
    /// The steps have more than 1,000,000 waits.
    TooManyWaits,
    /// The script would have more than 67,108,864 bytes.
    TooLarge,
    /// Memory was refused.
    Memory,
}

impl From<AllocError> for RecordingFault {
    ghost from_gives = { λ _ fault. fault ≡ Memory };

    fn from(_refused: AllocError) -> RecordingFault {
        RecordingFault::Memory
    }
}

impl From<ScriptFault> for RecordingFault {
    ghost from_gives = { λ given fault. fault ≡ of_script_fault given };

    fn from(given: ScriptFault) -> RecordingFault {
        match given {
            ScriptFault::TooLarge => RecordingFault::TooLarge,
            ScriptFault::Memory => RecordingFault::Memory,
        }
    }
}

impl From<WaitsFault> for RecordingFault {
    ghost from_gives = { λ given fault. fault ≡ of_waits_fault given };

    fn from(given: WaitsFault) -> RecordingFault {
        match given {
            WaitsFault::TooMany => RecordingFault::TooManyWaits,
            WaitsFault::Memory => RecordingFault::Memory,
        }
    }
}
