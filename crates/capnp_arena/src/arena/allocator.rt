//! Where a builder's segments come from.
ghost use Rattle.std.specs.Prelude.{◌≡◌, ◌<◌, ◌≤◌, ◌+◌, ◌-◌, ◌*◌, ◌/◌, ◌^◌, ◌++◌, ◌∷◌, [], ℕ, Bool, false, List, length, replicate, IsTrue, IsNone, IfSome, IsOk, IfOk, OnOk, IfErr};
ghost use Rattle.std.specs.Borrow.{sem, Lends, Array, u8 as byte};
ghost use Rattle.capnp_arena_traits.specs.Allocations.{IsFresh, IsClearFrom, one_more, max_segment_words};
ghost use Rattle.capnp_words.specs.declared.error.ErrorKind.TheVariants.{AllocationFailed, MessageTooLarge};

use capnp_words::error::ErrorKind;
use std::alloc::Global;

/// The bytes of a segment; their number never changes. The first of them are ready: they can be
/// read and written. The others are zero, and become ready as words are allocated.
pub trait Segment {
    // All bytes, ready or not.
    ghost content: { Self → List ℕ };

    // The bytes that are ready.
    ghost ready: { Self → List ℕ };

    // The segment with other bytes in place of the ready ones.
    ghost with_ready: { Self → List ℕ → Self };

    ghost holds: { (s : Self) (w : List ℕ) → length w ≡ length (ready s) → ready (with_ready s w) ≡ w };

    ghost as_long: { (s : Self) (w : List ℕ) → length w ≡ length (ready s) → length (content (with_ready s w)) ≡ length (content s) };

    ghost zeros_behind: { (s : Self) → content s ≡ ready s ++ replicate (length (content s) - length (ready s)) 0 };

    /// A segment of no bytes, which takes no memory.
    fn empty(alloc: Global) -> Self
        ensures { content result ≡ [] };

    /// The number of bytes, ready or not.
    fn len(&self) -> usize
        ensures { result ≡ length (content self.now) };

    /// The bytes that are ready.
    fn bytes(&self) -> &[u8]
        ensures { result.now ≡ ready self.now };

    /// The bytes that are ready, for writing.
    fn bytes_mut(&mut self) -> &mut [u8]
        ensures* lends { sem 𝓛 (Lends Self.row (Array byte 0) self.entry result
            (with_ready self.old)) }
        ensures now { result.now ≡ ready self.old };

    /// Makes at least the first `bytes` bytes ready, and takes no memory. Precondition: the segment
    /// has at least `bytes` bytes.
    fn make_ready(&mut self, bytes: usize)
        requires { bytes ≤ length (content self.old) }
        ensures ready { bytes ≤ length (ready self.new) }
        ensures content { content self.new ≡ content self.old };
}

/// Where segments come from and are returned to.
pub trait Allocator: Drop {
    /// The type of the segments. An arena returns each segment with `deallocate_segment`, or drops
    /// it if the arena is dropped without its allocator (see
    /// `BuilderArenaImpl::without_allocator`).
    type Segment: Segment + Drop;

    // Whether an arena keeps the row of its first segment inside itself; by default, it doesn't.
    ghost first_in_arena: { Bool } = { false };

    /// Whether an arena stores the row of its first segment (the segment, and what the arena knows
    /// of it) in the arena itself. The first segment then takes memory only if the allocator takes
    /// memory for it, but each access has to test whether it is to the first segment. If this
    /// function returns `false`, the arena stores all rows in a list. For one type of allocator,
    /// all calls return the same.
    fn keeps_first_in_arena() -> bool
        ensures { result ≡ first_in_arena };

    // How often memory was refused, at most `u64::MAX`.
    ghost refusals: { Self → ℕ };

    // Whether a segment of the second number of words may answer a request for the first.
    ghost offers: { Self → ℕ → ℕ → Bool };

    // Whether a request for this many words is never refused; by default, no request is sure.
    ghost grants: { Self → ℕ → Bool } = { λ _ _. false };

    /// Returns a segment of zeros, of at least `min_words` words and at most 536,870,911.
    ///
    /// Refusals: `MessageTooLarge(min_words)` if `min_words` is above 536,870,911;
    /// `AllocationFailed`, which adds 1 to `refused`, for any other reason.
    fn allocate_segment(&mut self, min_words: u32) -> Result<Self::Segment, ErrorKind>
        ensures fresh { IfOk result (λ s. IsFresh min_words (Self.Segment.content s)) }
        ensures sure { IsTrue (grants self.old min_words) → IsOk result }
        ensures size { IfOk result (λ s.
            IsTrue (offers self.old min_words (length (Self.Segment.content s) / 8))) }
        ensures counted { OnOk result (refusals self.new ≡ refusals self.old) }
        ensures too_large { max_segment_words < min_words
            → (result ≡ Err (MessageTooLarge min_words)) × (refusals self.new ≡ refusals self.old) }
        ensures refused { min_words ≤ max_segment_words
            → IfErr result (λ e. (e ≡ AllocationFailed)
            × (refusals self.new ≡ one_more (refusals self.old))) }
        ensures offers { offers self.new ≡ offers self.old };

    /// Takes `segment` back. Its first `used_words` words were allocated. Preconditions: `segment`
    /// has at least `used_words` words; all bytes after these words are zero.
    fn deallocate_segment(&mut self, segment: Self::Segment, used_words: u32)
        requires within { 8 * used_words ≤ length (Self.Segment.content segment) }
        requires clear { IsClearFrom used_words (Self.Segment.content segment) }
        ensures refusals { refusals self.new ≡ refusals self.old }
        ensures offers { offers self.new ≡ offers self.old };

    /// Appends `row` to `list`, and returns `None`. If there is no memory for `row`, returns it,
    /// leaves `list` unchanged, and adds 1 to `refused`.
    fn keep<T>(&mut self, list: &mut Vec<T>, row: T) -> Option<T>
        ensures kept { IsNone result → (list.new.items ≡ list.old.items ++ row ∷ [])
            × (refusals self.new ≡ refusals self.old) }
        ensures given_back { IfSome result (λ r. (r ≡ row) × (list.new.items ≡ list.old.items)
            × (refusals self.new ≡ one_more (refusals self.old))) }
        ensures offers { offers self.new ≡ offers self.old };

    /// How often memory was refused, at most `u64::MAX`: once for each `AllocationFailed` of
    /// `allocate_segment`, and for each row that `keep` returned.
    fn refused(&self) -> u64
        ensures { result ≡ refusals self.now };
}

/// Does the work of `Allocator::keep` for an allocator that counts in a field: appends `row` to
/// `list`, and returns `None`. If there is no memory for `row`, returns it, leaves `list`
/// unchanged, and adds 1 to `refused`.
pub fn push_or_count_refusal<T>(list: &mut Vec<T>, row: T, refused: &mut u64) -> Option<T>
    ensures kept { IsNone result → (list.new.items ≡ list.old.items ++ row ∷ [])
        × (refused.new ≡ refused.old) }
    ensures given_back { IfSome result (λ r. (r ≡ row) × (list.new.items ≡ list.old.items)
        × (refused.new ≡ one_more refused.old)) }
{
    match list.push(row) {
        Ok(()) => None,
        Err(e) => {
            *refused = refused.saturating_add(1);
            let row = e.value;
            Some(row)
        }
    }
}
