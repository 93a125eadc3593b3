//! The laws of the format, each proved as the contract of an empty function.

ghost use Rattle.loader.specs.Laws.{CodeRowsStand, HoldsItsFile, ReadsBack, KeepsTheLimits, ImageFileRowsHold};

/// Reading a file and writing the image gives the same file, and writing an image and reading the file gives the same
/// image. Code and constants make an image exactly if they are within the limits.
#[tactic(auto, using(crate::proofs::Faults::held, crate::proofs::RoundTrip::file_whole, crate::proofs::RoundTrip::file_image, crate::proofs::RoundTrip::reads_back, crate::proofs::WithinLimits::made, crate::proofs::WithinLimits::keeps))]
pub fn read_is_the_format()
    ensures holds_its_file { HoldsItsFile }
    ensures reads_back { ReadsBack }
    ensures keeps_the_limits { KeepsTheLimits }
{}

/// Files that were decoded by hand: a program of three slots, and one file for each way
/// to be refused; and the code of each cause.
#[tactic(auto, unfolding(crate::specs::Format::magic, crate::specs::Format::slots_in, crate::specs::Format::constants_in, crate::specs::Format::file_of, crate::specs::Format::image_in, crate::specs::Format::image_from))]
pub fn rows_stand()
    ensures files { ImageFileRowsHold }
    ensures codes { CodeRowsStand }
{}
