//! Laws over the definitions of more than one crate, each proved as the contract of an empty function.
ghost use Rattle.machine_rows.specs.RoundTrip.{ListingAssemblesToCode};

use assembler::{listing_is_source, one_answer, source_is_assembled};

/// Assembling the listing of code returns that code, unless an allocation fails.
#[tactic(auto, using(crate::proofs::RoundTrip::again))]
pub fn listing_assembles_to_code()
    ensures { ListingAssemblesToCode }
{
    listing_is_source();
    one_answer();
    source_is_assembled();
}
