//! Laws of the memory, each proved as the contract of an empty function.
#![tactic(auto, using(crate::proofs::Lending::lent_laws, crate::proofs::Reading::read_laws, crate::proofs::RegionWords::words_are_accessed, crate::proofs::RegionWords::words_are_put, crate::proofs::Start::start_laws, crate::proofs::Writing::write_laws))]

ghost use Rattle.guest_memory.specs.Laws.{ReadIsBytes, WriteIsBytes, StoresAreWrites, StartIsZero, LentIsBytes};
ghost use Rattle.guest_memory.specs.Rows.{MemoryRowsHold};
ghost use Rattle.guest_memory.specs.RegionWords.{WordsArePut, WordsAreAccessed};

/// A load returns the word whose bytes are at its addresses, the least significant
/// first, exactly if one region has them all.
pub fn read_is_bytes()
    ensures { ReadIsBytes }
{}

/// A store writes the bytes of its word to its addresses and changes no other,
/// exactly if one writable region has them all.
pub fn write_is_bytes()
    ensures { WriteIsBytes }
{}

/// Whether a store succeeds, and else its fault, is the same for every word.
#[tactic(auto, unfolding(crate::specs::Access::stores_of, crate::specs::Access::write_of))]
pub fn stores_are_writes()
    ensures { StoresAreWrites }
{}

/// At the start every writable byte is zero, and the constants are at their addresses.
pub fn start_is_zero()
    ensures { StartIsZero }
{}

/// Borrowed constants are the bytes at their addresses.
pub fn lent_is_bytes()
    ensures { LentIsBytes }
{}

/// A word that is written to a region's bytes is there afterwards, and every other word is unchanged.
pub fn words_are_put()
    ensures { WordsArePut }
{}

/// Loads and stores of eight bytes at the address of a word of a region read and write that word.
pub fn words_are_accessed()
    ensures { WordsAreAccessed }
{}

/// Loads and stores worked out by hand.
#[tactic(auto, unfolding(crate::specs::Access::read_of, crate::specs::Access::stores_of, crate::specs::Access::write_of, crate::specs::Memory::start_memory, crate::specs::RegionWords::word_in))]
pub fn rows_stand()
    ensures { MemoryRowsHold }
{}
