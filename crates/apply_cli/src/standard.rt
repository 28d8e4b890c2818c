//! Runs the main command over the standard streams of its process.

ghost use Rattle.std.specs.Prelude.{◌≤◌};

use crate::answer::answer_usage;
use crate::program::follow;
use crate::prompting_reader::PromptingReader;
use apply_cli_args::Usage;
use std::io::{BufWriter, IsTerminal};
use std::sync::Wait;
use std::thread::Threads;
use stream_lines::drain;

/// How many bytes of output are buffered before a write.
const OUTPUT_ROOM: usize = 65_536;

/// Printed when somebody types the command alone.
const NO_PLAN: &str =
    "a plan is awaited from this terminal: put one on standard input, as in applystream < plan.json";

/// Does what `follow` does over the standard streams, and returns the exit status.
pub fn follow_standard<T: Threads + Wait + Sync>(
    rt: &HostRuntime,
    threads: &T,
    words: &[String],
) -> u8
    ensures { result ≤ 3 }
{
    let Ok(output) = BufWriter::with_capacity(rt.alloc(), OUTPUT_ROOM, rt.stdout()) else {
        return refuse_standard(rt, &Usage::Memory);
    };
    let text = rt.stdin().is_terminal().then_some(NO_PLAN);
    let input = PromptingReader::new(rt.reader(), rt.stderr(), text);
    let (output, status) = follow(
        threads,
        rt,
        rt,
        rt.alloc(),
        words,
        input,
        output,
        &mut rt.stderr(),
    );
    // Bytes that a failed write left in the buffer are given up: a drop would write them once more,
    // after the error was reported.
    let (_stdout, _unwritten) = output.into_inner().into_parts();
    status
}

/// Reports why the arguments give no invocation, and returns the exit status. Then the input is
/// read to its end, so that whoever writes into the pipe is not stopped. A terminal is not read.
pub fn refuse_standard(rt: &HostRuntime, usage: &Usage) -> u8
    ensures { result ≤ 3 }
{
    let status = answer_usage(usage, &mut rt.stdout(), &mut rt.stderr());
    if !rt.stdin().is_terminal() {
        let _ = drain(&mut rt.reader());
    }
    status
}
