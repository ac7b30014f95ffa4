//! Functions that call an arena, and are proved only from the contracts of its calls.
ghost use Rattle.std.specs.Prelude.{◌≡◌, ◌≢◌, ◌<◌, ◌≤◌, ◌+◌, ◌^◌, ◌↔◌, ◌++◌, ◌∷◌, [], length, IsTrue, IsOk, IsSome, IsNone, IfSome, IfErr, OnOk, OnErr, slice_set, slice_index_or, replicate};
ghost use Rattle.std.specs.Bool.{OnTrue, OnFalse};
ghost use Rattle.capnp_format.specs.Bytes.{message};
ghost use Rattle.capnp_format.specs.Segments.{segment};
ghost use Rattle.capnp_words.specs.Meter.{Affords, charged};
ghost use Rattle.capnp_words.specs.declared.error.ErrorKind.TheVariants.{ReadLimitExceeded};
ghost use Rattle.capnp_arena_traits.specs.Checks.{Holds, misplaced};
ghost use Rattle.capnp_arena_traits.specs.Written.{with_more, with_segment, with_word};

use capnp_arena::arena::{BuilderArena, ReaderArena, set_word};
use capnp_words::error::ErrorKind;
use capnp_words::read_limiter::ReadLimiter;

/// Allocates a word of segment `id`, writes `word` there, and returns `true`. If the segment has no
/// room for a word, changes nothing and returns `false`.
#[tactic(auto, using(crate::proofs::Extending::extending))]
pub fn append<A: BuilderArena>(arena: &mut A, id: u32, word: u64) -> bool
    requires { id < length (A.view arena.old).words }
    ensures exactly { IsTrue result
        ↔ (length (segment (A.view arena.old).words id) + 1 ≤ (A.view arena.old).room id) }
    ensures words { OnTrue result (A.view arena.new ≡ with_more (A.view arena.old) id (word ∷ [])) }
    ensures none { OnFalse result (A.view arena.new ≡ A.view arena.old) }
{
    match arena.allocate(id, 1) {
        Some(at) => {
            set_word(arena, id, at, word);
            true
        }
        None => false,
    }
}

/// Allocates two words of segment `id`, writes `first` and `second` there, and returns `true`. If
/// the segment has no room for two words, returns `false`; if it has room for one, allocates this
/// one, and writes `first` there.
#[tactic(auto, using(crate::proofs::Extending::extending))]
pub fn append_both<A: BuilderArena>(arena: &mut A, id: u32, first: u64, second: u64) -> bool
    requires { id < length (A.view arena.old).words }
    ensures exactly { IsTrue result
        ↔ (length (segment (A.view arena.old).words id) + 2 ≤ (A.view arena.old).room id) }
    ensures words { OnTrue result
        (A.view arena.new ≡ with_more (A.view arena.old) id (first ∷ second ∷ [])) }
    ensures one { length (segment (A.view arena.old).words id) + 1 ≡ (A.view arena.old).room id
        → A.view arena.new ≡ with_more (A.view arena.old) id (first ∷ []) }
    ensures none { (A.view arena.old).room id ≤ length (segment (A.view arena.old).words id)
        → A.view arena.new ≡ A.view arena.old }
{
    append(arena, id, first) && append(arena, id, second)
}

/// Writes `first` and `second` over the first two words of segment `id`.
pub fn set_first_two_words<A: BuilderArena>(arena: &mut A, id: u32, first: u64, second: u64)
    requires { 2 ≤ length (segment (A.view arena.old).words id) }
    ensures { A.view arena.new
        ≡ record (A.view arena.old)
        { words = with_word (with_word (A.view arena.old).words id 0 first) id 1 second } }
{
    set_word(arena, id, 0, first);
    set_word(arena, id, 1, second);
}

/// If `word` is 7, writes nothing and returns 0; otherwise writes `word` over the second word of
/// segment `id` and returns 1.
pub fn set_word_unless_seven<A: BuilderArena>(arena: &mut A, id: u32, word: u64) -> u32
    requires { 2 ≤ length (segment (A.view arena.old).words id) }
    ensures kept { word ≡ 7 → (result ≡ 0) × (A.view arena.new ≡ A.view arena.old) }
    ensures written { word ≢ 7 → (result ≡ 1)
        × (A.view arena.new
        ≡ record (A.view arena.old) { words = with_word (A.view arena.old).words id 1 word }) }
{
    if word == 7 {
        return 0;
    }
    set_word(arena, id, 1, word);
    1
}

/// Allocates a word of segment `id`, writes `word` there, and returns the position of the word. If
/// the segment has no room for a word, changes nothing and returns `None`.
#[tactic(auto, using(crate::proofs::Extending::extending))]
pub fn try_append<A: BuilderArena>(arena: &mut A, id: u32, word: u64) -> Option<u32>
    requires { id < length (A.view arena.old).words }
    ensures exactly { IsSome result
        ↔ (length (segment (A.view arena.old).words id) + 1 ≤ (A.view arena.old).room id) }
    ensures position { IfSome result (λ at. at ≡ length (segment (A.view arena.old).words id)) }
    ensures words { IsSome result → A.view arena.new ≡ with_more (A.view arena.old) id (word ∷ []) }
    ensures none { IsNone result → A.view arena.new ≡ A.view arena.old }
{
    let at = arena.allocate(id, 1)?;
    set_word(arena, id, at, word);
    Some(at)
}

/// Zeroes all allocated words of segment `id`.
pub fn zero_segment<A: BuilderArena>(arena: &mut A, id: u32)
    requires { id < length (A.segments arena.old) }
    ensures words { A.segments arena.new ≡ slice_set (A.segments arena.old) id
        (replicate (length (slice_index_or (A.segments arena.old) id [])) 0) }
    ensures view { A.view arena.new
        ≡ record (A.view arena.old) { words = (A.view arena.new).words } }
{
    arena.segment_mut(id).fill(0);
}

/// Requests to read the first `words` words of segment 0, as a reader does before it reads them.
/// The contract states exactly when the request is granted, what `lim` then has left, and each
/// refusal.
pub fn request_words<A: ReaderArena>(
    arena: &A,
    words: u32,
    lim: &mut ReadLimiter,
) -> Result<(), ErrorKind>
    ensures exactly { IsOk result ↔ Holds (message (A.segments arena.now)) 0 0 words
        × Affords (A.charging arena.now) lim.old words }
    ensures left { OnOk result (lim.new ≡ charged (A.charging arena.now) lim.old words) }
    ensures refused { OnErr result (lim.new ≡ lim.old) }
    ensures outside { IfErr result (λ e. (Holds (message (A.segments arena.now)) 0 0 words → ⊥)
        → e ≡ misplaced (message (A.segments arena.now)) 0 (A.absent arena.now 0)) }
    ensures budget { IfErr result (λ e. Holds (message (A.segments arena.now)) 0 0 words
        → e ≡ ReadLimitExceeded) }
{
    arena.contains_interval(0, 0, words as usize, lim)
}
