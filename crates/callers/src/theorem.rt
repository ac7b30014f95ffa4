//! The theorem of the README as contracts: the canonical copy, the test for canonical form
//! (encoding specification, "Canonicalization"), and the value of a message after any list of
//! edits. `docs/THEOREM.md` has all definitions that these contracts cite.
ghost use Rattle.std.specs.Prelude.{◌≡◌, ◌↔◌, ◌⊎◌, ◌∷◌, ◌+◌, ◌*◌, ◌<◌, ◌≤◌, [], ℕ, List, Ok, true, false, length, map, sum, IsOk, IsTrue, IfOk, IfErr, OnOk, OnErr};
ghost use Rattle.capnp_words.specs.declared.error.ErrorKind.TheVariants.{AllocationFailed};
ghost use Rattle.capnp_words.specs.Meter.{FitsIn};
ghost use Rattle.capnp_format.specs.Bytes.{message};
ghost use Rattle.capnp_format.specs.Canonical.{ForOffset, HasNoCapabilities, HasCanonicalAt, charge, encoding, trim, word_count};
ghost use Rattle.capnp_format.specs.Means.{Means};
ghost use Rattle.capnp_format.specs.Segments.{AreWords, IsPlace, segment, word_at};
ghost use Rattle.capnp_format.specs.Tree.{Null, Tree, depth};
ghost use Rattle.capnp_arena_traits.specs.Allocations.{max_segment_words, one_more};
ghost use Rattle.capnp_arena_traits.specs.Limits.{IsSmall};
ghost use Rattle.capnp_copies.specs.Changes.{RefusesToCopy, copy_call};
ghost use Rattle.capnp_copies.specs.Originals.{value_original};
ghost use Rattle.capnp_framing.specs.Writing.{Prints};
ghost use Rattle.capnp_framing.specs.declared.framing.frame_error.FrameError.TheVariants.{WriteFailed};
ghost use Rattle.capnp_allocation.specs.Made.{zero_struct};
ghost use Rattle.capnp_allocation.specs.Makes.{call_at};
ghost use Rattle.capnp_allocation.specs.Memory.{IsRefusedFor};
ghost use Rattle.capnp_pointers.specs.Metered.{◌>>>◌, answer};
ghost use Rattle.capnp_pointers.specs.Source.{levels};
ghost use Rattle.capnp_pointers.specs.Spending.{Paid, pointers_in};
ghost use Rattle.capnp_pointers.specs.Wanted.{canonical};
ghost use Rattle.capnp_pointers.specs.Testing.{head_found, head_moved, test_value};
ghost use Rattle.capnp_pointers.specs.Pointers.{reading};
ghost use Rattle.capnp_edits.specs.Edits.{EditTakes, InTurn, IsApplied};
ghost use Rattle.capnp_edits.specs.Steps.{IsStep};
ghost use Rattle.capnp_messages.specs.CanonicalMessages.{IsCanonicalMessage, IsCanonicalOf};
ghost use Rattle.capnp_messages.specs.Check.{check, whole_result};
ghost use Rattle.capnp_messages.specs.Commands.{form_bytes};
ghost use Rattle.capnp_messages.specs.Copies.{LacksMemoryOr, RefusesCopy, RefusesCopyAnywhere};
ghost use Rattle.capnp_messages.specs.Messages.{HasCanonicalCopy, IsReadable, IsValueOf, RefusesAt, RefusesCanon, RefusesCheck, left_of, root_within};
ghost use Rattle.capnp_messages.specs.Parts.{to_pointer};
ghost use Rattle.capnp_format.specs.Path.{node, PathLeads, Step, update};
ghost use Rattle.capnp_format.specs.Forest.{IsForest, target};
ghost use Rattle.callers.specs.Truly.{AreRefusedTruly, read_at};

use capnp_arena::arena::{
    Allocator, BuilderArena, BuilderArenaImpl, ReaderArena, ReaderArenaImpl, ReaderOptions,
    ReaderSegments,
};
use capnp_builders::builders::PointerBuilder;
use capnp_edits::edit::{Edit, apply_all};
use capnp_framing::devices::{Output, write_all};
use capnp_framing::framing::FrameError;
use capnp_messages::messages::{
    CanonicalError, Form, canonical_bytes, canonicalize, canonicalize_pointer, check, read_root,
    write_copy,
};
use capnp_pointers::pointers::Pointer;
use capnp_readers::readers::{PointerPlace, PointerReader, StructPlace};
use capnp_words::error::ErrorKind;
use capnp_words::read_limiter::ReadLimiter;
use capnp_words::wire_pointer::StructSize;
use std::alloc::Global;

/// Makes the canonical copy of the message in `segments`, with memory from `allocator`
/// ("Canonicalization").
///
/// A message has a canonical copy if it has a value without capabilities within both limits, and
/// this value's canonical words fit a segment. Any other message is refused. A message with a
/// canonical copy is refused only if the allocator refuses memory, which adds one to the
/// allocator's `refusals`. The copy is one segment with exactly the canonical words.
pub fn make_canonical_copy<A: Allocator, S: ReaderSegments + Drop>(
    alloc: Global,
    allocator: A,
    segments: S,
    limits: ReaderOptions,
) -> Result<BuilderArenaImpl<A>, (ErrorKind, A)>
    requires small { IsSmall (S.segments segments) }
    ensures exactly_where { HasCanonicalCopy (message (S.segments segments)) limits
        → IfErr result (λ e. (e.0 ≡ AllocationFailed)
        × (A.refusals e.1 ≡ one_more (A.refusals allocator))) }
    ensures exactly_what { IfOk result (λ made. (t : Tree)
        × IsValueOf (message (S.segments segments)) limits t
        × (1 + word_count (trim t) ≤ max_segment_words)
        × ((⟦<BuilderArenaImpl<A> as BuilderArena>⟧.view made).words
        ≡ encoding (trim t) ∷ [])) }
    ensures asked { IfOk result (λ made. (n : ℕ)
        × IsTrue (A.offers allocator n
        ((⟦<BuilderArenaImpl<A> as BuilderArena>⟧.view made).room 0))
        × ((t : Tree) → IsValueOf (message (S.segments segments)) limits t
        → (n ≤ sum (map length (message (S.segments segments))) + 1)
        ⊎ (n < 2 * (1 + word_count (trim t))))) }
    ensures granted { IfOk result (λ made.
        (⟦<BuilderArenaImpl<A> as BuilderArena>⟧.view made).refusals ≡ A.refusals allocator) }
    ensures refused { IfErr result
        (λ e. LacksMemoryOr (A.refusals allocator) (A.refusals e.1) e.0
        (RefusesCanon (message (S.segments segments)) limits e.0)) }
{
    let source = ReaderArenaImpl::new(segments, limits);
    match canonicalize(alloc, allocator, &source, limits.traversal_limit_in_words) {
        Ok(made) => {
            first_segment_is_short(&made);
            Ok(made)
        }
        Err(refused) => Err(refused),
    }
}

/// Does nothing. The contract states that the first segment of a message being built has no more
/// words than a segment can have.
fn first_segment_is_short<A: BuilderArena>(made: &A)
    ensures { length (segment (A.view made.now).words 0) ≤ max_segment_words }
{}

/// Makes, in `arena`, the canonical copy of the message in `segments`. Precondition: the message in
/// `arena` is one segment, whose only word is a null root.
///
/// Succeeds only if the message in `segments` has a value without capabilities within both limits.
/// If this value's canonical words fit the segment in `arena`, always succeeds, even if the
/// allocator refuses memory, and this segment is then exactly these words. If they don't fit, a
/// copy that succeeds has further segments, and has the trimmed value: the same value without the
/// zero words and null pointers that the canonical form cuts from the ends of sections. After a
/// refusal all words in `arena` are zero.
pub fn make_canonical_copy_in_room<A: BuilderArena, S: ReaderSegments + Drop>(
    arena: &mut A,
    segments: S,
    limits: ReaderOptions,
) -> Result<(), ErrorKind>
    requires small { IsSmall (S.segments segments) }
    requires root { (A.view arena.old).words ≡ (0 ∷ []) ∷ [] }
    ensures fits { (t : Tree) → IsValueOf (message (S.segments segments)) limits t
        → 1 + word_count (trim t) ≤ (A.view arena.old).room 0 → IsOk result }
    ensures made { IfOk result (λ _. (t : Tree)
        × IsValueOf (message (S.segments segments)) limits t
        × (1 + word_count (trim t) ≤ (A.view arena.old).room 0
        ↔ ((A.view arena.new).words ≡ encoding (trim t) ∷ []))) }
    ensures means { IfOk result (λ _. (t : Tree)
        × IsValueOf (message (S.segments segments)) limits t
        × IsForest (A.view arena.new).words (trim t)) }
    ensures unasked { OnOk result ((A.view arena.new).refusals ≡ (A.view arena.old).refusals) }
    ensures cleared { OnErr result ((s p : ℕ) → word_at (A.view arena.new).words s p ≡ 0) }
    ensures refused { IfErr result (λ k. RefusesAt (message (S.segments segments)) limits k
        (RefusesCopyAnywhere (to_pointer (root_within (message (S.segments segments)) limits))
        (left_of limits) ((A.view arena.old).room 0) k)) }
{
    let source = ReaderArenaImpl::new(segments, limits);
    let mut lim = ReadLimiter::new(limits.traversal_limit_in_words);
    let root = read_root(&source, &mut lim)?;
    let from = PointerReader::from_pointer(root);
    PointerBuilder::get_root(arena).copy_from(from, &mut lim, true)
}

/// Writes the canonical copy of the message in `segments` as bytes: either as a frame of one
/// segment, or as that segment's bytes, depending on `form`.
///
/// Refuses a message without a canonical copy (see `make_canonical_copy`). Refuses any other
/// message only if the allocator refuses memory, or `output` fails. A refusal writes nothing,
/// unless `output` fails.
pub fn write_canonical_copy<W: Output, A: Allocator, S: ReaderSegments + Drop>(
    alloc: Global,
    allocator: A,
    output: &mut W,
    segments: S,
    limits: ReaderOptions,
    form: Form,
) -> Result<(), (CanonicalError, A)>
    requires small { IsSmall (S.segments segments) }
    requires works { W.has_failed output.old ≡ false }
    ensures exactly_where { HasCanonicalCopy (message (S.segments segments)) limits
        → IfErr result (λ e. ((e.0 ≡ CanonicalError.Layout AllocationFailed)
        × (A.refusals e.1 ≡ one_more (A.refusals allocator)))
        ⊎ ((e.0 ≡ CanonicalError.Frame WriteFailed) × (W.has_failed output.new ≡ true))) }
    ensures exactly_what { OnOk result ((t : Tree)
        × IsValueOf (message (S.segments segments)) limits t
        × Prints W.Output output.old output.new (form_bytes form (encoding (trim t)))) }
    ensures refused { IfErr result (λ e. ((k : ErrorKind) × (e.0 ≡ CanonicalError.Layout k)
        × LacksMemoryOr (A.refusals allocator) (A.refusals e.1) k
        (RefusesCanon (message (S.segments segments)) limits k) × (output.new ≡ output.old))
        ⊎ ((e.0 ≡ CanonicalError.Frame WriteFailed) × (W.has_failed output.new ≡ true))) }
{
    match make_canonical_copy(alloc, allocator, segments, limits) {
        Ok(made) => match write_in_form(output, &made, form) {
            Ok(()) => Ok(()),
            Err(error) => Err((error, made.into_allocator())),
        },
        Err((kind, allocator)) => Err((CanonicalError::Layout(kind), allocator)),
    }
}

/// Writes the only segment of the message `made`: as a frame, or as the segment's bytes, depending
/// on `form`.
fn write_in_form<W: Output, A: Allocator>(
    output: &mut W,
    made: &BuilderArenaImpl<A>,
    form: Form,
) -> Result<(), CanonicalError>
    requires works { W.has_failed output.old ≡ false }
    requires single { length (⟦<BuilderArenaImpl<A> as ReaderArena>⟧.segments made.now) ≡ 1 }
    ensures written { (words : List ℕ)
        → (⟦<BuilderArenaImpl<A> as BuilderArena>⟧.view made.now).words ≡ words ∷ []
        → OnOk result (Prints W.Output output.old output.new (form_bytes form words)) }
    ensures refused { IfErr result (λ e. (e ≡ CanonicalError.Frame WriteFailed)
        × (W.has_failed output.new ≡ true)) }
{
    match form {
        Form::Framed => write_copy(output, made),
        Form::Flat => match write_all(output, canonical_bytes(made)) {
            Ok(()) => Ok(()),
            Err(_) => Err(CanonicalError::Frame(FrameError::WriteFailed)),
        },
    }
}

/// Makes the canonical copies of two messages, and returns whether the copies are the same bytes.
/// The copies are the same bytes exactly if the trimmed values of the two messages are equal,
/// however the messages are encoded. A trimmed value is one without the zero words and null
/// pointers that the canonical form cuts from the ends of sections.
///
/// Refuses only if one of the messages has no canonical copy, or an allocator refuses memory.
pub fn have_same_canonical_copy<A: Allocator, S: ReaderSegments + Drop, R: ReaderSegments + Drop>(
    alloc: Global,
    one: A,
    other: A,
    first: S,
    second: R,
    limits: ReaderOptions,
) -> Result<bool, (ErrorKind, A)>
    requires first { IsSmall (S.segments first) }
    requires second { IsSmall (R.segments second) }
    ensures exactly_where { HasCanonicalCopy (message (S.segments first)) limits
        → HasCanonicalCopy (message (R.segments second)) limits
        → IfErr result (λ e. (e.0 ≡ AllocationFailed)
        × ((A.refusals e.1 ≡ one_more (A.refusals one))
        ⊎ (A.refusals e.1 ≡ one_more (A.refusals other)))) }
    ensures exactly_what { IfOk result (λ same. (t u : Tree)
        → IsValueOf (message (S.segments first)) limits t
        → IsValueOf (message (R.segments second)) limits u
        → AreWords (message (S.segments first)) → AreWords (message (R.segments second))
        → IsTrue same ↔ (trim t ≡ trim u)) }
    ensures only { OnOk result (HasCanonicalCopy (message (S.segments first)) limits
        × HasCanonicalCopy (message (R.segments second)) limits) }
    ensures refused { IfErr result (λ e. LacksMemoryOr (A.refusals one) (A.refusals e.1) e.0
        (RefusesCanon (message (S.segments first)) limits e.0)
        ⊎ LacksMemoryOr (A.refusals other) (A.refusals e.1) e.0
        (RefusesCanon (message (R.segments second)) limits e.0)) }
{
    let left = match make_canonical_copy(alloc, one, first, limits) {
        Ok(made) => made,
        Err(refusal) => return Err(refusal),
    };
    match make_canonical_copy(alloc, other, second, limits) {
        Ok(right) => Ok(have_same_bytes(&left, &right)),
        Err(refusal) => Err(refusal),
    }
}

/// Returns whether the messages `left` and `right` are the same bytes. Precondition: each has one
/// segment.
fn have_same_bytes<A: Allocator>(left: &BuilderArenaImpl<A>, right: &BuilderArenaImpl<A>) -> bool
    requires left { length (⟦<BuilderArenaImpl<A> as ReaderArena>⟧.segments left.now) ≡ 1 }
    requires right { length (⟦<BuilderArenaImpl<A> as ReaderArena>⟧.segments right.now) ≡ 1 }
    ensures { IsTrue result ↔ ((⟦<BuilderArenaImpl<A> as BuilderArena>⟧.view left.now).words
        ≡ (⟦<BuilderArenaImpl<A> as BuilderArena>⟧.view right.now).words) }
{
    canonical_bytes(left) == canonical_bytes(right)
}

/// Tests whether the message in `segments` is in canonical form ("Canonicalization").
///
/// Unless it refuses, returns `true` exactly if the message is one segment with the canonical words
/// of a value, and no other words. This value is then within both limits. Never refuses a message
/// that has a value within both limits, or that has no segment or several. What it returns is a
/// function of the segments and the limits.
pub fn is_canonical<S: ReaderSegments + Drop>(
    segments: S,
    limits: ReaderOptions,
) -> Result<bool, ErrorKind>
    requires small { IsSmall (S.segments segments) }
    ensures exactly { IfOk result (λ yes. IsTrue yes
        ↔ IsCanonicalMessage (message (S.segments segments))) }
    ensures answered { (length (message (S.segments segments)) ≡ 1
        → IsReadable (message (S.segments segments)) limits) → IsOk result }
    ensures within { IfOk result (λ yes. IsTrue yes → (t : Tree)
        × IsCanonicalOf (message (S.segments segments)) t
        × IsValueOf (message (S.segments segments)) limits t) }
    ensures computed { whole_result (check (message (S.segments segments)) limits) ≡ result }
    ensures refused { IfErr result (RefusesCheck (message (S.segments segments)) limits) }
{
    let source = ReaderArenaImpl::new(segments, limits);
    match check(&source, limits.traversal_limit_in_words) {
        Ok(fault) => Ok(fault.is_none()),
        Err(kind) => Err(kind),
    }
}

/// Tests whether the pointer at `place` leads to a value in canonical form. `head` is the position
/// in the pointer's segment, in words, at which the value's first object has to start.
///
/// Unless it refuses, returns `true` exactly if the pointer and the words that start at `head` are
/// the canonical words of a value; other words may follow. After `true`, the pointer leads to this
/// value within the nesting limit of `arena`, and the test has moved `head` past the value's words,
/// charged `lim` what reading the value costs, and counted each non-null pointer of the value in
/// `lim`. Never refuses canonical words inside the segment, if the value is within the nesting
/// limit and `lim` covers what reading it costs.
pub fn is_canonical_at<S: ReaderSegments>(
    arena: &ReaderArenaImpl<S>,
    place: PointerPlace,
    lim: &mut ReadLimiter,
    head: &mut u32,
) -> Result<bool, ErrorKind>
    requires place { IsPlace (message (⟦<ReaderArenaImpl<S> as ReaderArena>⟧.segments arena.now))
        place.segment place.word }
    ensures exactly { let words = message (⟦<ReaderArenaImpl<S> as ReaderArena>⟧.segments arena.now)
        in IfOk result (λ yes. IsTrue yes
        ↔ ((t : Tree) × HasCanonicalAt words place.segment place.word head.old t)) }
    ensures answered { let words = message (⟦<ReaderArenaImpl<S> as ReaderArena>⟧.segments arena.now)
        in (t : Tree) → HasCanonicalAt words place.segment place.word head.old t
        → ForOffset t (head.old ≤ length (segment words place.segment))
        → depth t ≤ levels arena.now.nesting_limit → FitsIn lim.old.left (charge t)
        → IsOk result }
    ensures found { let words = message (⟦<ReaderArenaImpl<S> as ReaderArena>⟧.segments arena.now)
        in IfOk result (λ yes. IsTrue yes
        → (t : Tree) × HasCanonicalAt words place.segment place.word head.old t
        × Means words (levels arena.now.nesting_limit) place.segment place.word t (charge t)
        × (head.new ≡ head.old + word_count t)
        × Paid true lim.old lim.new (charge t) (pointers_in t)) }
    ensures kept { (result ≡ Ok true → ⊥) → head.new ≡ head.old }
    ensures computed { (test_value
        (read_at (message (⟦<ReaderArenaImpl<S> as ReaderArena>⟧.segments arena.now))
        (levels arena.now.nesting_limit) place.segment place.word) head.old
        >>> λ v. answer (head_found v)) lim.old ≡ (head_moved result head.new, lim.new) }
{
    PointerReader::from_pointer(pointer_at(arena, place)).is_canonical(lim, head)
}

/// Makes the canonical copy of the value that the pointer at `place` leads to, with memory from
/// `allocator`.
///
/// Succeeds only if the pointer leads to a value without capabilities, within the nesting limit of
/// `arena`, `lim` covers what reading this value costs, and the value's canonical words fit a
/// segment. If all of this is true, refuses only if the allocator refuses memory, which adds one to
/// the allocator's `refusals`. A success charges `lim` that cost, and counts each non-null pointer
/// of the value in `lim`; a refusal leaves `lim` unchanged.
pub fn make_canonical_copy_at<A: Allocator, S: ReaderSegments>(
    alloc: Global,
    allocator: A,
    arena: &ReaderArenaImpl<S>,
    place: PointerPlace,
    lim: &mut ReadLimiter,
) -> Result<BuilderArenaImpl<A>, (ErrorKind, A)>
    requires place { IsPlace (message (⟦<ReaderArenaImpl<S> as ReaderArena>⟧.segments arena.now))
        place.segment place.word }
    ensures exactly_where { (t : Tree) (c : ℕ)
        → Means (message (⟦<ReaderArenaImpl<S> as ReaderArena>⟧.segments arena.now))
        (levels arena.now.nesting_limit) place.segment place.word t c
        → HasNoCapabilities t → FitsIn lim.old.left c
        → 1 + word_count (trim t) ≤ max_segment_words
        → IfErr result (λ e. (e.0 ≡ AllocationFailed)
        × (A.refusals e.1 ≡ one_more (A.refusals allocator))) }
    ensures exactly_what { IfOk result (λ made. (t : Tree) × (c : ℕ)
        × Means (message (⟦<ReaderArenaImpl<S> as ReaderArena>⟧.segments arena.now))
        (levels arena.now.nesting_limit) place.segment place.word t c
        × HasNoCapabilities t × Paid true lim.old lim.new c (pointers_in t)
        × ((⟦<BuilderArenaImpl<A> as BuilderArena>⟧.view made).words
        ≡ encoding (trim t) ∷ [])) }
    ensures asked { IfOk result (λ made. (n : ℕ)
        × IsTrue (A.offers allocator n
        ((⟦<BuilderArenaImpl<A> as BuilderArena>⟧.view made).room 0))
        × ((t : Tree) (c : ℕ)
        → Means (message (⟦<ReaderArenaImpl<S> as ReaderArena>⟧.segments arena.now))
        (levels arena.now.nesting_limit) place.segment place.word t c
        → (n ≤ sum (map length
        (message (⟦<ReaderArenaImpl<S> as ReaderArena>⟧.segments arena.now))) + 1)
        ⊎ (n < 2 * (1 + word_count (trim t))))) }
    ensures granted { IfOk result (λ made.
        (⟦<BuilderArenaImpl<A> as BuilderArena>⟧.view made).refusals ≡ A.refusals allocator) }
    ensures unread { OnErr result (lim.new ≡ lim.old) }
    ensures refused { let from = read_at
        (message (⟦<ReaderArenaImpl<S> as ReaderArena>⟧.segments arena.now))
        (levels arena.now.nesting_limit) place.segment place.word in
        IfErr result (λ e. LacksMemoryOr (A.refusals allocator) (A.refusals e.1) e.0
        (RefusesCopy (Ok (to_pointer from), lim.old) max_segment_words e.0)) }
{
    canonicalize_pointer(alloc, allocator, pointer_at(arena, place), lim)
}

/// Makes, in `arena`, the canonical copy of the value that the pointer at `place` of `source` leads
/// to. Precondition: the message in `arena` is one segment, whose only word is a null root.
///
/// Succeeds only if the pointer leads to a value without capabilities, within the nesting limit of
/// `source`, and `lim` covers what reading this value costs. If both hold, and if the value's
/// canonical words fit the segment in `arena`, always succeeds, even if the allocator refuses
/// memory, and this segment is then exactly these words. If they don't fit, a copy that succeeds
/// has further segments, and has the trimmed value: the same value without the zero words and null
/// pointers that the canonical form cuts from the ends of sections. A success charges `lim` that
/// cost, and counts each non-null pointer of the value in `lim`. After a refusal all words in
/// `arena` are zero.
pub fn make_canonical_copy_at_in_room<A: BuilderArena, S: ReaderSegments>(
    arena: &mut A,
    source: &ReaderArenaImpl<S>,
    place: PointerPlace,
    lim: &mut ReadLimiter,
) -> Result<(), ErrorKind>
    requires place { IsPlace (message (⟦<ReaderArenaImpl<S> as ReaderArena>⟧.segments source.now))
        place.segment place.word }
    requires root { (A.view arena.old).words ≡ (0 ∷ []) ∷ [] }
    ensures fits { (t : Tree) (c : ℕ)
        → Means (message (⟦<ReaderArenaImpl<S> as ReaderArena>⟧.segments source.now))
        (levels source.now.nesting_limit) place.segment place.word t c
        → HasNoCapabilities t → FitsIn lim.old.left c
        → 1 + word_count (trim t) ≤ (A.view arena.old).room 0 → IsOk result }
    ensures made { IfOk result (λ _. (t : Tree) × (c : ℕ)
        × Means (message (⟦<ReaderArenaImpl<S> as ReaderArena>⟧.segments source.now))
        (levels source.now.nesting_limit) place.segment place.word t c
        × HasNoCapabilities t × Paid true lim.old lim.new c (pointers_in t)
        × (1 + word_count (trim t) ≤ (A.view arena.old).room 0
        ↔ ((A.view arena.new).words ≡ encoding (trim t) ∷ []))
        × IsForest (A.view arena.new).words (trim t)) }
    ensures unasked { OnOk result ((A.view arena.new).refusals ≡ (A.view arena.old).refusals) }
    ensures cleared { OnErr result ((s p : ℕ) → word_at (A.view arena.new).words s p ≡ 0) }
    ensures refused { IfErr result (RefusesToCopy (value_original
        (read_at (message (⟦<ReaderArenaImpl<S> as ReaderArena>⟧.segments source.now))
        (levels source.now.nesting_limit) place.segment place.word))
        (copy_call canonical (call_at 0 0 (A.view arena.old) (A.view arena.new)) lim.old lim.new)) }
{
    let from = PointerReader::from_pointer(pointer_at(source, place));
    PointerBuilder::get_root(arena).copy_from(from, lim, true)
}

/// Returns the pointer at `place` of `arena`, with the nesting limit of `arena`.
pub(crate) fn pointer_at<S: ReaderSegments>(
    arena: &ReaderArenaImpl<S>,
    place: PointerPlace,
) -> Pointer<'_, ReaderArenaImpl<S>>
    requires { IsPlace (message (⟦<ReaderArenaImpl<S> as ReaderArena>⟧.segments arena.now))
        place.segment place.word }
    ensures { reading ⟦<ReaderArenaImpl<S> as ReaderArena>⟧ result
        ≡ read_at (message (⟦<ReaderArenaImpl<S> as ReaderArena>⟧.segments arena.now))
        (levels arena.now.nesting_limit) place.segment place.word }
{
    Pointer::at(arena, place, arena.nesting_limit())
}

/// Makes the pointer of `builder` lead to a new struct, all zero. The pointer may be anywhere in
/// the message's tree. Afterwards the message has the same tree of values, except that the new
/// struct is at the pointer's place; after a refusal, null is there instead. Returns where the
/// struct's sections are.
pub fn make_struct<A: BuilderArena>(
    builder: &mut PointerBuilder<'_, A>,
    size: StructSize,
) -> Result<StructPlace, ErrorKind>
    requires place { IsPlace (A.view builder.old.arena.now).words builder.old.segment
        builder.old.at }
    ensures made { OnOk result ((t x : Tree) (path : List Step)
        → IsForest (A.view builder.old.arena.now).words t
        → PathLeads (A.view builder.old.arena.now).words (node 0 0 t) path
        (node builder.old.segment builder.old.at x)
        → IsForest (A.view builder.new.arena.now).words (update t path (zero_struct size))) }
    ensures refused { OnErr result ((t x : Tree) (path : List Step)
        → IsForest (A.view builder.old.arena.now).words t
        → PathLeads (A.view builder.old.arena.now).words (node 0 0 t) path
        (node builder.old.segment builder.old.at x)
        → IsForest (A.view builder.new.arena.now).words (update t path Null)) }
    ensures leads { IfOk result (λ place.
        let there = target (A.view builder.new.arena.now).words builder.old.segment builder.old.at
        in (place.segment ≡ there.segment) × (place.byte ≡ 8 * there.start)
        × (place.bits ≡ 64 * size.data_words)
        × (place.pointers_at ≡ there.start + size.data_words)
        × (place.pointers ≡ size.pointers)) }
    ensures fits { length (segment (A.view builder.old.arena.now).words builder.old.segment)
        + (size.data_words + size.pointers)
        ≤ (A.view builder.old.arena.now).room builder.old.segment → IsOk result }
    ensures named { IfErr result (IsRefusedFor (A.view builder.old.arena.now)
        (A.view builder.new.arena.now) (size.data_words + size.pointers)) }
{
    builder.init_struct_place(size)
}

/// Applies `edits`, any of which may be refused.
///
/// If the message has a value before the call, it has a value afterwards: the one that the edits
/// make of the former value, given which of them `outcomes` shows as refused. The outcome of an
/// edit is `AllocationFailed` exactly if the arena's allocator has refused memory for this edit.
pub fn apply_edits<A: BuilderArena>(
    arena: &mut A,
    edits: &[Edit<'_>],
    outcomes: &mut [Option<ErrorKind>],
)
    requires each { length outcomes.old ≡ length edits.now }
    ensures applied { IsApplied (InTurn EditTakes edits.now outcomes.new) (A.view arena.old).words
        (A.view arena.new).words }
    ensures refused { AreRefusedTruly (A.view arena.old) (A.view arena.new) edits.now
        outcomes.new }
    ensures steps { InTurn IsStep edits.now outcomes.new (A.view arena.old) (A.view arena.new) }
{
    apply_all(arena, edits, outcomes);
}
