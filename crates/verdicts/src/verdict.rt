//! Verdicts, read from the words that a program left.

ghost use Rattle.std.specs.Prelude.{◌≡◌, ◌<◌, ◌≤◌, ◌*◌, ◌+◌, ℕ, length, map, option_map, slice_get, slice_index, Some};
ghost use Rattle.guest_memory.specs.Memory.{IsMemory};
ghost use Rattle.verdicts.specs.Verdict as decided;
ghost use Rattle.verdicts.specs.Denials.{lent};
ghost use Rattle.verdicts.specs.Words.{message_at, result_at, text_named, verdict_word, words_view, AreRead, Encodes};
ghost use Rattle.verdicts.specs.Layout.{IsLayout};
ghost use Rattle.verdicts.specs.Policy.{part_limit};

use crate::policy::{PART_LIMIT, Policy};
use crate::verdict_words::{FIRST_MESSAGE, FIRST_RESULT};
use guest_memory::{Regions, Size, VERDICT};
use value_store::ValueStore;

/// What a program decided, read from its verdict words.
#[derive(Debug, Drop)]
pub struct Verdict<'v> {
    /// 1 if the policy was skipped, 2 rejected, 3 denied, 4 admitted.
    pub outcome: u64,
    /// The number of validations that deny.
    pub denials: u64,
    /// For each validation: 0 if it is true, 1 if false, 2 if it is an error.
    pub results: [u64; PART_LIMIT],
    /// For each denial, the text of its message expression if it gave one.
    pub messages: [Option<&'v str>; PART_LIMIT],
}

/// Word i of the verdict, 0 if the memory has no such word.
#[tactic(auto, unfolding(crate::specs::Words::verdict_word))]
pub(crate) fn word<M: Regions>(memory: &M, i: u64) -> u64
    requires { i < 256 }
    ensures { result ≡ verdict_word (M.bytes memory.now) i }
{
    match memory.read(VERDICT + 8 * i, Size::Dw) {
        Ok(word) => word,
        Err(_) => 0,
    }
}

/// The result words of the first `count` validations; the others are 0.
fn results<M: Regions>(memory: &M, count: usize) -> [u64; PART_LIMIT]
    ensures { (i : ℕ) → i < part_limit → slice_index result i ≡ result_at (M.bytes memory.now) count i }
{
    let mut results = [0; PART_LIMIT];
    for i in 0..count.min(PART_LIMIT) {
        results[i] = word(memory, FIRST_RESULT + i as u64);
    }
    results
}

/// The text with this reference; `None` for 0.
pub(crate) fn text_named<V: ValueStore>(values: &V, word: u64) -> Option<&str>
    ensures { option_map (λ t. t.now) result ≡ text_named (V.values values.now) word }
{
    if word == 0 { None } else { values.text(word) }
}

/// The message texts of the first `count` validations; the others are `None`.
fn messages<'v, M: Regions, V: ValueStore>(
    memory: &M,
    values: &'v V,
    count: usize,
) -> [Option<&'v str>; PART_LIMIT]
    ensures { (i : ℕ) → i < part_limit → slice_get (map (option_map (λ t. t.now)) result) i ≡ Some (message_at (M.bytes memory.now) (V.values values.now) count i) }
{
    let mut messages = [None; PART_LIMIT];
    for i in 0..count.min(PART_LIMIT) {
        messages[i] = text_named(values, word(memory, FIRST_MESSAGE + i as u64));
    }
    messages
}

/// The words and texts of a verdict on `count` validations.
fn read<'v, M: Regions, V: ValueStore>(memory: &M, values: &'v V, count: usize) -> Verdict<'v>
    ensures { AreRead (M.bytes memory.now) (V.values values.now) count (words_view result) }
{
    Verdict {
        outcome: word(memory, 0),
        denials: word(memory, 1),
        results: results(memory, count),
        messages: messages(memory, values, count),
    }
}

impl<'v> Verdict<'v> {
    /// The verdict that a program left for a policy in its verdict region. The message texts are
    /// borrowed from the values. Nothing is allocated.
    pub fn of<M: Regions, V: ValueStore>(memory: &M, values: &'v V, policy: &Policy) -> Verdict<'v>
        ensures read { AreRead (M.bytes memory.now) (V.values values.now) (length policy.now.validations) (words_view result) }
        ensures told { (v : decided.Verdict) → IsMemory (M.bytes memory.now) → length v.findings ≤ length policy.now.validations
            → IsLayout policy.now.failure_policy v (V.values values.now) (M.bytes memory.now).verdict → Encodes policy.now.failure_policy v (words_view result) }
    {
        read(memory, values, policy.parts.validations.len())
    }

    /// The result word of validation i.
    pub(crate) fn result_at(&self, i: usize) -> u64
        requires { i < part_limit }
        ensures { result ≡ slice_index (words_view self.now).results i }
    {
        self.results[i]
    }

    /// The message text of validation i.
    #[tactic(auto, using(crate::proofs::Lists::read_lent))]
    pub(crate) fn message_at(&self, i: usize) -> Option<&'v str>
        requires { i < part_limit }
        ensures { option_map (λ t. t.now) result ≡ lent (slice_get (words_view self.now).messages i) }
    {
        self.messages[i]
    }
}
