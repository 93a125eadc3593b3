//! The words of the command line.
ghost use Rattle.std.specs.Prelude.{◌≡◌, Err, IfErr, IfOk};
ghost use Rattle.std.specs.IoError.{error_kind};
ghost use Rattle.std.specs.Iterator.{IsFinite};
ghost use Rattle.std.specs.Iterator.Runs.{WholeRun};

use crate::order_error::OrderError;
use std::alloc::Global;
use std::env;
use std::io::{self, Error, ErrorKind};
use std::rt::Env;

/// The words of the command line, the program's name first.
///
/// # Errors
///
/// `InvalidArguments` if one of them is not valid UTF-8, and `Memory` if an allocation fails.
pub fn words<R: AllocGlobal + Env>(rt: &R) -> Result<Vec<String>, OrderError> {
    given(rt.alloc(), env::args(rt))
}

/// The words that the system gives, or the error.
fn given<I: Iterator<Item = String> + Drop>(
    alloc: Global,
    words: io::Result<I>,
) -> Result<Vec<String>, OrderError>
    requires can { IfOk words (λ i. I.can_next i) }
    requires finite { IfOk words (λ i. IsFinite (I.remaining i)) }
    ensures all { IfOk words (λ i. IfOk result (λ v. WholeRun I.next_gives i (λ p. v.items ≡ p.items))) }
    ensures memory { IfErr words (λ e. error_kind e ≡ ErrorKind.OutOfMemory → result ≡ Err OrderError.Memory) }
    ensures other { IfErr words (λ e. (error_kind e ≡ ErrorKind.OutOfMemory → ⊥) → result ≡ Err OrderError.InvalidArguments) }
    ensures given { IfOk words (λ i. IfErr result (λ e. e ≡ OrderError.Memory)) }
{
    match words {
        Ok(words) => all(alloc, words),
        Err(error) => Err(order_error(error)),
    }
}

/// All of the words, in order.
fn all<I: Iterator<Item = String> + Drop>(
    alloc: Global,
    words: I,
) -> Result<Vec<String>, OrderError>
    requires can { I.can_next words }
    requires finite { IsFinite (I.remaining words) }
    ensures all { IfOk result (λ v. WholeRun I.next_gives words (λ p. v.items ≡ p.items)) }
    ensures memory { IfErr result (λ e. e ≡ OrderError.Memory) }
{
    Ok(words.collect(alloc)?)
}

/// The `OrderError` of a system error.
fn order_error(error: Error) -> OrderError
    ensures memory { error_kind error ≡ ErrorKind.OutOfMemory → result ≡ OrderError.Memory }
    ensures other { (error_kind error ≡ ErrorKind.OutOfMemory → ⊥) → result ≡ OrderError.InvalidArguments }
{
    match error.kind() {
        ErrorKind::OutOfMemory => OrderError::Memory,
        _ => OrderError::InvalidArguments,
    }
}
