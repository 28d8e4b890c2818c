//! The argument `FILE`.

ghost use Rattle.std.specs.Prelude.{◌≡◌, false, IfOk, codes, option_map, string_bytes};
ghost use Rattle.clap.specs.Matches.{found_of};
ghost use Rattle.clap.specs.Walk.{first_of, rows_of, rule_of};
ghost use Rattle.stream_tool.specs.Words.{file_rule, unless_dash};

use clap::{Arg, ArgMatches};
use std::alloc::{AllocError, Global};

/// Defines the argument `FILE`, which names the stream.
pub fn file<'a>(alloc: Global) -> Arg<'a>
    ensures { (rule_of result ≡ file_rule) × (result.global ≡ false) }
{
    Arg::new(alloc, "file")
        .value_name("FILE")
        .help("The file with the stream; `-` is standard input")
}

/// Returns the name of the file. `-` and a missing argument stand for standard input (`None`).
/// `Err` where memory is refused.
pub fn file_of(alloc: Global, matches: &ArgMatches<'_>) -> Result<Option<String>, AllocError>
    ensures { IfOk result (λ file. option_map string_bytes file ≡ unless_dash (first_of (codes "file") (rows_of (found_of matches.now)))) }
{
    match matches.get_str("file") {
        Some(file) => if file == "-" {
            Ok(None)
        } else {
            Ok(Some(String::from_str(alloc, file)?))
        },
        None => Ok(None),
    }
}
