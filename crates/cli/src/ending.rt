//! The end of a program, and the words that it is given.
ghost use Rattle.std.specs.Prelude.{◌≡◌, Err, IfOk, map, string_bytes};
ghost use Rattle.std.specs.Process.{exit_status};
ghost use Rattle.streams.specs.Streams.{stream};
ghost use Rattle.cli.specs.Ending.{ending_status, WritesError};

use crate::lines::refusal_line;
use crate::refusal::Refusal;
use std::alloc::{AllocError, Global};
use std::process::ExitCode;
use streams::{Sink, write_all};

/// The exit code of the program. A refusal is one line on standard error; the exit code is the same
/// if that line cannot be written.
pub fn exit_with<E: Sink>(alloc: Global, ending: Result<u8, Refusal>, errors: &mut E) -> ExitCode
    ensures status { exit_status result ≡ ending_status ending }
    ensures says { WritesError (stream (E.taken errors.old) (E.failed errors.old)) (stream (E.taken errors.new) (E.failed errors.new)) ending }
{
    match ending {
        Ok(status) => ExitCode::from(status),
        Err(refusal) => {
            say(alloc, refusal, errors);
            ExitCode::from(refusal.status())
        }
    }
}

/// Writes the refusal's line. A failed write cannot be reported anywhere.
#[tactic(auto, using(crate::proofs::Endings::says))]
fn say<E: Sink>(alloc: Global, refusal: Refusal, errors: &mut E)
    ensures { WritesError (stream (E.taken errors.old) (E.failed errors.old)) (stream (E.taken errors.new) (E.failed errors.new)) (Err refusal) }
{
    let line = refusal_line(alloc, refusal);
    let _ = write_all(errors, line.as_slice());
}

/// Borrows the words as texts.
pub fn texts_of<'a>(alloc: Global, words: &'a [String]) -> Result<Vec<&'a str>, AllocError>
    ensures { IfOk result (λ texts. map (λ s. s.now) texts.items ≡ map string_bytes words.entry.now) }
{
    let mut texts = Vec::new(alloc);
    for word in words {
        texts.push(word.as_str())?;
    }
    Ok(texts)
}
