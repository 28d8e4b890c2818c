//! Runs work with an input that is read ahead.

ghost use Rattle.std.specs.Prelude.{◌≡◌, vec_len, IfOk};

use crate::ahead_pace::AheadPace;
use crate::ahead_reader::AheadReader;
use crate::exchange::Exchange;
use crate::handover::CHUNK_LEN;
use crate::reading::read_on;
use std::alloc::{AllocError, Global};
use std::io::Read;
use std::sync::Wait;
use std::thread;
use std::thread::Threads;
use std::time::Clock;

/// Runs `work` with a reader of `input`, and with the pace of that reader. A thread reads the input
/// ahead. Returns what `work` returned.
///
/// The thread reads nothing before the first read or the first wait. It reads one chunk of 64 KiB
/// ahead of the reader, and takes memory only before it starts. When `work` returns, one read of
/// the input may be under way or about to begin. This call waits for that read, and drops what the
/// read gave.
///
/// `Err` if memory or the thread is refused. Then nothing was read, and `work` did not run.
pub fn read_ahead<T, R, A, W>(rt: &T, alloc: Global, input: R, work: W) -> Result<A, AllocError>
where
    T: Threads + Wait + Clock + Sync,
    R: Read + Send + Drop,
    W: FnOnce(&mut AheadReader<'_, T>, &AheadPace<'_, T>) -> A + Drop,
    requires { W.IsAlwaysCallable work }
    ensures { IfOk result (λ answer. (reader : _) × (pace : _) × (reader_after : _)
        × W.post work reader pace answer reader_after) }
{
    let exchange = Exchange::new(vec![in alloc; 0u8; CHUNK_LEN]?);
    let bytes = vec![in alloc; 0u8; CHUNK_LEN]?;
    run_beside(rt, &exchange, input, bytes, work)
}

/// Runs `work` beside the reading thread, which reads into `bytes`.
fn run_beside<T, R, A, W>(
    rt: &T,
    exchange: &Exchange,
    input: R,
    bytes: Vec<u8>,
    work: W,
) -> Result<A, AllocError>
where
    T: Threads + Wait + Clock + Sync,
    R: Read + Send + Drop,
    W: FnOnce(&mut AheadReader<'_, T>, &AheadPace<'_, T>) -> A + Drop,
    requires bytes { vec_len bytes ≡ CHUNK_LEN }
    requires work { W.IsAlwaysCallable work }
    ensures { IfOk result (λ answer. (reader : _) × (pace : _) × (reader_after : _)
        × W.post work reader pace answer reader_after) }
{
    thread::scope(
        thread::scope_env(),
        rt,
        move |scope| -> Result<A, AllocError>
            requires bytes { vec_len bytes ≡ CHUNK_LEN }
            requires work { W.IsAlwaysCallable work }
            ensures { IfOk result (λ answer. (reader : _) × (pace : _) × (reader_after : _)
                × W.post work reader pace answer reader_after) }
        {
            // Where no thread can be made, `thread::join` would run the work first, which would
            // wait forever for its input.
            scope.spawn(
                move ||
                    requires { vec_len bytes ≡ CHUNK_LEN }
                { read_on(rt, exchange, input, bytes) },
            )?;
            let answer = work(
                &mut AheadReader { rt, exchange },
                &AheadPace { rt, exchange },
            );
            exchange.close(rt);
            Ok(answer)
        },
    )
}
