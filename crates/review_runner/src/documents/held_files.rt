//! The contents of the files of documents.
ghost use Rattle.std.specs.Prelude.{◌≡◌, option_map, string_bytes};
ghost use Rattle.review_runner.specs.Debugging.{held_of, HoldsFiles};
ghost use Rattle.review_runner.specs.Order.{DocumentFiles};

use cli::{read_given, read_named};
use host::{FileError, Files};
use std::alloc::Global;

/// The bytes of the file of an image or a policy, and of the files of a review's documents.
#[derive(Drop)]
pub struct HeldFiles {
    /// The image or the policy.
    pub subject: Vec<u8>,
    pub review: Option<Vec<u8>>,
    pub namespace: Option<Vec<u8>>,
    pub params: Option<Vec<u8>>,
}

/// Reads the files with these names, in this order.
pub fn read_files<F: Files>(
    alloc: Global,
    subject: &str,
    review: Option<&str>,
    namespace: &Option<String>,
    params: &Option<String>,
    files: &mut F,
) -> Result<HeldFiles, FileError>
    ensures held { let names : DocumentFiles = record {
      review = option_map (λ s. s.now) review.entry;
      namespace = option_map string_bytes namespace.now;
      params = option_map string_bytes params.now;
    } in
        HoldsFiles (F.known files.old) subject.now names (held_of result) }
    ensures known { F.known files.new ≡ F.known files.old }
{
    let subject = files.read(alloc, subject)?;
    let review = read_named(alloc, review, files)?;
    let namespace = read_given(alloc, namespace, files)?;
    let params = read_given(alloc, params, files)?;
    Ok(HeldFiles {
        subject,
        review,
        namespace,
        params,
    })
}
