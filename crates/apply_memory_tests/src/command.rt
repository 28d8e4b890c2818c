//! Reads the command line.

use crate::printing::{answer, begin, leaked};
use apply_cli_args::{read_invocation, read_words};
use std::alloc::Global;
use std::io;
use std::io::ErrorKind;
use std::time::{Clock, Duration};

/// Arguments, each of which is valid alone.
const WORDS: &str =
    "--halt-in module.a --halt-before read --workers 8 --queue 1 --script script.json --at 2021-05-25T13:32:41Z";

/// Adds an argument, in a text of its own.
fn push_word(alloc: Global, words: &mut Vec<String>, word: &str) -> io::Result<()> {
    words.push(String::from_str(alloc, word)?)?;
    Ok(())
}

/// The arguments, each in a text of its own.
fn all_words(alloc: Global) -> io::Result<&'static [String]> {
    let words = leaked(alloc, Vec::new(alloc))?;
    for word in WORDS.split_whitespace() {
        push_word(alloc, words, word)?;
    }
    Ok(words.as_slice())
}

/// A clock that no argument asks for.
struct Unread;

impl Clock for Unread {
    fn monotonic(&self) -> io::Result<Duration> {
        Err(io::Error::from(ErrorKind::Unsupported))
    }

    fn since_1970(&self) -> io::Result<Duration> {
        Err(io::Error::from(ErrorKind::Unsupported))
    }
}

/// Reads the arguments.
pub fn words(rt: &impl Print, alloc: Global) -> io::Result<()> {
    let words = all_words(alloc)?;
    begin(rt)?;
    answer(rt, &read_invocation(&Unread, alloc, words))
}

/// Reads the arguments by the options without a parallelism.
pub fn settings(rt: &impl Print, alloc: Global) -> io::Result<()> {
    let words = all_words(alloc)?;
    begin(rt)?;
    answer(rt, &read_words(alloc, words))
}
