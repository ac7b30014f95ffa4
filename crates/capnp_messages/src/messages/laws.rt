//! Laws of canonical messages and their copies (encoding specification, "Canonicalization"). Each
//! function does nothing: its contract is the law, proved for all messages.

mod parts;

ghost use Rattle.std.specs.Prelude.{◌≡◌, ◌↔◌, ◌⊎◌, ◌<◌, ◌≤◌, ◌+◌, ℕ, List, true, None, Some, Ok, Err, IsOk, length};
ghost use Rattle.capnp_words.specs.declared.error.ErrorKind.{ErrorKind};
ghost use Rattle.capnp_words.specs.declared.error.ErrorKind.TheVariants.{MessageTooLarge};
ghost use Rattle.capnp_words.specs.Meter.{Meter, unused};
ghost use Rattle.capnp_format.specs.Segments.{HasSmallWords, Segments};
ghost use Rattle.capnp_format.specs.Tree.{Tree, depth};
ghost use Rattle.capnp_format.specs.Means.{Means};
ghost use Rattle.capnp_format.specs.Canonical.{charge, encoding, trim, word_count};
ghost use Rattle.capnp_arena_traits.specs.Allocations.{max_segment_words};
ghost use Rattle.capnp_arena.specs.declared.arena.reader_arena_impl.ReaderOptions.{ReaderOptions};
ghost use Rattle.capnp_framing.specs.Frames.{CanBeFramed, frame};
ghost use Rattle.capnp_pointers.specs.Testing.{IsTestName};
ghost use Rattle.capnp_pointers.specs.ValueSize.{value_size};
ghost use Rattle.capnp_pointers.specs.declared.pointers.canonical_fault.CanonicalFault.{CanonicalFault};
ghost use Rattle.capnp_pointers.specs.declared.pointers.sizes.MessageSize.{MessageSize};
ghost use Rattle.capnp_messages.specs.CanonicalMessages.{IsCanonicalMessage, IsCanonicalOf};
ghost use Rattle.capnp_messages.specs.Check.{check, plain_value};
ghost use Rattle.capnp_messages.specs.Canonicalize.{canonical_value, canonical_words, canonicalize};
ghost use Rattle.capnp_messages.specs.Copies.{OutgrowsRoom, RefusesCopy};
ghost use Rattle.capnp_messages.specs.EndValues.{end_place, end_words};
ghost use Rattle.capnp_messages.specs.Messages.{IsReadable, IsValueOf, RefusesCanon, left_of, message_size, root_within};
ghost use Rattle.capnp_messages.specs.Parts.{PathEnd, to_pointer};
ghost use Rattle.capnp_messages.specs.Roots.{CoversRoot};

pub use parts::parts_found;

/// A message is the canonical form of at most one value. Under any nesting limit that is at least
/// the value's depth, reading the message from its root results in this value, and costs as few
/// words as reading the value in its canonical form.
pub fn canonical_message()
    ensures value { (S : Segments) (t u : Tree) → IsCanonicalOf S t → IsCanonicalOf S u → t ≡ u }
    ensures means { (S : Segments) (t : Tree) (n : ℕ) → IsCanonicalOf S t → depth t ≤ n
        → Means S n 0 0 t (charge t) }
{}

/// The frames of two canonical messages are equal exactly if the messages' values are.
pub fn canonical_frames()
    ensures { (S R : Segments) (t u : Tree) → CanBeFramed S → CanBeFramed R
        → IsCanonicalOf S t → IsCanonicalOf R u → (frame S ≡ frame R) ↔ (t ≡ u) }
{}

/// The canonical copy of a message is a function of its segments and the limits: `canonicalize`
/// returns words exactly if the message means a value without capabilities within both limits and
/// the value's canonical words fit a segment, and then it returns these words (`words`). The value
/// is what `canonical_value` returns (`value`).
pub fn copies_computed()
    ensures value { (S : Segments) (limits : ReaderOptions) (t : Tree)
        → (canonical_value S limits ≡ Ok t) ↔ IsValueOf S limits t }
    ensures words { (S : Segments) (limits : ReaderOptions) (words : List ℕ)
        → (canonicalize S limits ≡ Ok words) ↔ ((t : Tree) × IsValueOf S limits t
        × (1 + word_count (trim t) ≤ max_segment_words) × (words ≡ encoding (trim t))) }
{}

/// Apart from lack of memory, a canonical copy of a whole message is refused with the error of
/// `canonicalize`, or with `MessageTooLarge` if it outgrows a segment (`exactly`). If the traversal
/// limit is at most the number of words that a segment can have, no copy outgrows one, so a refusal
/// has one name (`within`). So has the refusal of a copy of what is at the end of a path, if what
/// the limit has left there, with the words of an element, is less than this number (`at_end`).
pub fn copies_refused()
    ensures exactly { (S : Segments) (limits : ReaderOptions) (k : ErrorKind)
        → RefusesCanon S limits k ↔ ((canonicalize S limits ≡ Err k)
        ⊎ ((k ≡ MessageTooLarge max_segment_words) × CoversRoot S limits.traversal_limit_in_words
        × OutgrowsRoom (to_pointer (root_within S limits)) (left_of limits) max_segment_words)) }
    ensures within { (S : Segments) (limits : ReaderOptions) (n : ℕ) (k : ErrorKind)
        → limits.traversal_limit_in_words ≡ Some n → n ≤ max_segment_words
        → RefusesCanon S limits k ↔ (canonicalize S limits ≡ Err k) }
    ensures at_end { (e : PathEnd) (m : Meter) (n : ℕ) (k : ErrorKind)
        → (end_place e).charging ≡ true → m.left ≡ Some n → n + end_words e < max_segment_words
        → RefusesCopy (Ok e, m) max_segment_words k
        ↔ ((canonical_words max_segment_words e (unused m.left)).0 ≡ Err k) }
{}

/// The test of a whole message is a function of its segments and the limits, `check`. If the words
/// of segment 0 have 64 bits, it finds no fault exactly if the message is the canonical message of a
/// value within both limits (`canonical`). A message with a fault isn't canonical, under any limits
/// (`fault`). The test isn't refused if the message has a value within the limits, or doesn't have
/// exactly one segment (`answered`). If it is refused, so is reading the message's plain value; the
/// error is the same, except that the test refuses a list without a level left with
/// `NestingLimitExceeded` (`refused`).
pub fn checks_computed()
    ensures canonical { (S : Segments) (limits : ReaderOptions) → HasSmallWords S 0
        → (check S limits ≡ Ok None) ↔ ((t : Tree) × IsCanonicalOf S t × IsValueOf S limits t) }
    ensures fault { (S : Segments) (limits : ReaderOptions) (f : CanonicalFault)
        → (length S ≡ 1 → HasSmallWords S 0) → check S limits ≡ Ok (Some f)
        → IsCanonicalMessage S → ⊥ }
    ensures answered { (S : Segments) (limits : ReaderOptions)
        → (length S ≡ 1 → IsReadable S limits) → IsOk (check S limits) }
    ensures refused { (S : Segments) (limits : ReaderOptions) (k : ErrorKind)
        → check S limits ≡ Err k → (length S ≡ 1)
        × ((l : ErrorKind) × IsTestName l k × (plain_value S limits ≡ Err l)) }
{}

/// If the root of a message means a value, and the message has a size within the limits, the size is
/// the value's: its words and its capabilities.
pub fn sizes_computed()
    ensures { (S : Segments) (limits : ReaderOptions) (z : MessageSize) (t : Tree) (n cost : ℕ)
        → message_size S limits ≡ Ok z → Means S n 0 0 t cost → z ≡ value_size t }
{}
