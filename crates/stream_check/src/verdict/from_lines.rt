//! Checks a stream that is given as its lines.

ghost use Rattle.std.specs.Prelude.{◌≡◌, ◌≢◌, ◌<◌, ◌^◌, length, map, MatchResult, Ok, Err};
ghost use Rattle.stream_check.specs.Lines.{verdict_of};

use crate::rules::checker::Checker;
use crate::rules::fault::Fault;
use crate::rules::mode::Mode;
use crate::verdict::finding::Finding;
use crate::verdict::whole::Whole;
use std::alloc::Global;

/// Checks the lines, each without its line feed. `Err` with the first fault, which may be
/// `Fault::Memory`.
pub fn check_lines(alloc: Global, mode: Mode, lines: &[Vec<u8>]) -> Result<Whole, Finding>
    requires { length lines.now < 2 ^ 32 }
    ensures { MatchResult result (λ whole. verdict_of mode (map (λ line. line.items) lines.now) ≡ Ok whole)
        (λ finding. finding.fault ≢ Fault.Memory → verdict_of mode (map (λ line. line.items) lines.now) ≡ Err finding) }
{
    let mut checker = Checker::new(alloc);
    for (number, line) in lines.iter().enumerate() {
        match checker.line(alloc, mode, line) {
            Ok(()) => {}
            Err(fault) => {
                return Err(Finding {
                    line: number as u64 + 1,
                    fault,
                    passed: checker.passed(mode),
                });
            }
        }
    }
    match checker.end(mode) {
        Ok(whole) => Ok(whole),
        Err(fault) => Err(Finding {
            line: lines.len() as u64,
            fault,
            passed: checker.passed(mode),
        }),
    }
}
