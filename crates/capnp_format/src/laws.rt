//! Laws of the format's definitions. Each function does nothing: its contract is the law, proved
//! for all messages and values. The definitions are in `specs/`, and docs/FORMAT.md goes through
//! them in order. A place of a message means a value if reading from the pointer at that place
//! results in the value (`Means`). Laws about values assume that the values are values of the
//! format (`IsValue`), and laws about words assume that the words are numbers of 64 bits
//! (`AreWords`).

mod examples;

ghost use Rattle.std.specs.Prelude.{◌≡◌, ◌↔◌, ℕ, ◌*◌, ◌/◌, ◌%◌, ◌<◌, ◌≤◌, ◌^◌, get_or, List, [], ◌∷◌, ◌++◌, length, Some, None};
ghost use Rattle.capnp_format.specs.Segments.{Segments, segment, word_at, AreWords, Grows};
ghost use Rattle.capnp_format.specs.Numbers.{from_digits, element_bits, unpacked};
ghost use Rattle.capnp_format.specs.Bytes.{words_of};
ghost use Rattle.capnp_format.specs.Tree.{Tree, Trees, Elements, HasElement, AreNullFrom, depth, capabilities};
ghost use Rattle.capnp_format.specs.Value.{IsValue};
ghost use Rattle.capnp_format.specs.Means.{Means};
ghost use Rattle.capnp_format.specs.Decode.{decode};
ghost use Rattle.capnp_format.specs.Canonical.{used_words, used_trees, data_width, pointer_width, trim, word_count, body, encoding, charge, IsEncodable, IsTrimmed, HasCanonicalAt};
ghost use Rattle.capnp_format.specs.Forest.{times, cover, ArenaHolds};

pub use examples::worked_examples;

/// A place of a message has at most one value and one cost, with any nesting limit.
#[tactic(auto, using(crate::proofs::Levels::one_value))]
pub fn one_meaning()
    ensures { (S : Segments) (n m s p : ℕ) (t u : Tree) (c e : ℕ) → Means S n s p t c
        → Means S m s p u e → (t ≡ u) × (c ≡ e) }
{}

/// If a place means a value within some nesting limit, it means that value within every limit that
/// is at least the value's depth, and within no other.
#[tactic(auto, using(crate::proofs::LawLemmas::levels_from_depth))]
pub fn levels_from_depth()
    ensures { (S : Segments) (n m s p : ℕ) (t : Tree) (c : ℕ) → Means S n s p t c
        → Means S m s p t c ↔ (depth t ≤ m) }
{}

/// The function `decode` finds a value and its cost at a place exactly if the place means that
/// value at that cost, by the relation `Means` (`found`). It finds nothing exactly if the place
/// means no value (`nothing`).
#[tactic(auto, using(crate::proofs::LawLemmas::decode_agrees, crate::proofs::LawLemmas::decode_refuses))]
pub fn decode_agrees()
    ensures found { (S : Segments) (n s p : ℕ) (t : Tree) (c : ℕ)
        → (decode S n s p ≡ Some (t, c)) ↔ Means S n s p t c }
    ensures nothing { (S : Segments) (n s p : ℕ)
        → (decode S n s p ≡ None) ↔ ((t : Tree) (c : ℕ) → Means S n s p t c → ⊥) }
{}

/// If the words of a message have 64 bits, each value that a place of the message means is a value
/// of the format: each size in it fits the bits that a pointer word has for that size.
#[tactic(auto, using(crate::proofs::Bounds::means_value))]
pub fn meaning_is_value()
    ensures { (S : Segments) (n s p : ℕ) (t : Tree) (c : ℕ) → AreWords S → Means S n s p t c
        → IsValue t }
{}

/// A value's body is its canonical words without the root pointer. The body has as many words as
/// the value's objects have together.
#[tactic(auto, using(crate::proofs::LawLemmas::body_length))]
pub fn body_length()
    ensures { (t : Tree) → IsValue t → length (body t) ≡ word_count t }
{}

/// If a segment consists of a value's canonical words, followed by any words, its first word means
/// that value, at the least cost that the value can have (`alone`). A canonical pointer at any
/// place also means the value at this cost, if the value's body is at position h of the same
/// segment (`anywhere`).
#[tactic(auto, using(crate::proofs::LawLemmas::canonical_words_mean, crate::proofs::Unique::stands_means))]
pub fn canonical_words_mean()
    ensures alone { (t : Tree) (more : List ℕ) (n : ℕ) → IsValue t → IsEncodable t → depth t ≤ n
        → Means ((encoding t ++ more) ∷ []) n 0 0 t (charge t) }
    ensures anywhere { (S : Segments) (n s p h : ℕ) (t : Tree) → depth t ≤ n
        → h ≤ length (segment S s) → HasCanonicalAt S s p h t → Means S n s p t (charge t) }
{}

/// At most one value has its canonical pointer at place (s, p) and its body at position h of
/// segment s.
#[tactic(auto, using(crate::proofs::LawLemmas::one_stands))]
pub fn one_stands()
    ensures { (S : Segments) (s p h : ℕ) (t u : Tree) → HasCanonicalAt S s p h t
        → HasCanonicalAt S s p h u
        → t ≡ u }
{}

/// Two different values have different canonical words.
#[tactic(auto, using(crate::proofs::LawLemmas::encodings_differ))]
pub fn encodings_differ()
    ensures { (t u : Tree) → IsValue t → IsEncodable t → IsValue u → IsEncodable u
        → encoding t ≡ encoding u → t ≡ u }
{}

/// No value's canonical words are a proper prefix of the canonical words of any value.
#[tactic(auto, using(crate::proofs::LawLemmas::no_encoding_begins))]
pub fn no_encoding_begins_another()
    ensures { (t u : Tree) (more : List ℕ) → IsValue t → IsEncodable t → IsValue u → IsEncodable u
        → encoding t ++ more ≡ encoding u → more ≡ [] }
{}

/// The values of two places, of one message or of two, have the same canonical words exactly if
/// these values are equal after trimming, which cuts zero words and null pointers from the ends of
/// sections.
#[tactic(auto, using(crate::proofs::LawLemmas::same_canonical_words))]
pub fn same_canonical_words()
    ensures { (S R : Segments) (n s p m u q c e : ℕ) (t v : Tree) → AreWords S → AreWords R
        → Means S n s p t c → Means R m u q v e → IsEncodable (trim t) → IsEncodable (trim v)
        → (encoding (trim t) ≡ encoding (trim v)) ↔ (trim t ≡ trim v) }
{}

/// If a value has fewer than 2^29 words, all offsets in its canonical words fit the 30 bits that a
/// pointer has for them.
#[tactic(auto, using(crate::proofs::Trimmed::small_fits))]
pub fn small_is_encodable()
    ensures { (t : Tree) → IsValue t → word_count t < 2 ^ 29 → IsEncodable t }
{}

/// If a value's pointer and the words that the value covers stay the same, the value stays the
/// same, and it covers the same words. Other words may change, and words may be added to segments.
#[tactic(auto, using(crate::proofs::Frame::frame))]
pub fn others_may_change()
    ensures { (S R : Segments) (n s p : ℕ) (t : Tree) (c : ℕ) → Grows S R
        → word_at R s p ≡ word_at S s p
        → ((u q : ℕ) → 0 < times (cover S s p t) u q → word_at R u q ≡ word_at S u q)
        → Means S n s p t c → Means R n s p t c × (cover R s p t ≡ cover S s p t) }
{}

/// Reading the canonical words of a place's value costs no more than reading that value at the
/// place (`cost`). The number of its canonical words, without the root pointer, is at most what
/// reading it at the place costs (`length`).
#[tactic(auto, using(crate::proofs::LawLemmas::canonical_cost, crate::proofs::LawLemmas::canonical_length))]
pub fn canonical_words_are_cheap()
    ensures cost { (S : Segments) (n s p : ℕ) (t : Tree) (c : ℕ) → AreWords S → Means S n s p t c
        → charge (trim t) ≤ c }
    ensures length { (S : Segments) (n s p : ℕ) (t : Tree) (c : ℕ) → AreWords S → Means S n s p t c
        → length (body (trim t)) ≤ c }
{}

/// Trimming a trimmed value again doesn't change it (`twice`). Trimming adds no words, and keeps
/// the depth and the number of capabilities (`keeps`).
#[tactic(auto, using(crate::proofs::LawLemmas::trim_twice, crate::proofs::LawLemmas::trim_keeps))]
pub fn trimming()
    ensures twice { (t : Tree) → IsTrimmed (trim t) }
    ensures keeps { (t : Tree) → IsValue t → IsValue (trim t)
        × (word_count (trim t) ≤ word_count t)
        × (depth (trim t) ≡ depth t)
        × (capabilities (trim t) ≡ capabilities t) }
{}

/// If canonical words, with any words after them, are read, the canonical words of the value read
/// are the same words again.
#[tactic(auto, using(crate::proofs::LawLemmas::canonical_again))]
pub fn canonical_again()
    ensures { (t u : Tree) (more : List ℕ) (n c : ℕ) → IsValue t → IsEncodable (trim t)
        → Means ((encoding (trim t) ++ more) ∷ []) n 0 0 u c
        → encoding (trim u) ≡ encoding (trim t) }
{}

/// Trimming makes a section as short as possible, such that it loses only zero words or null
/// pointers. It makes all elements of a list of structs the same size: the smallest at which each
/// element loses only zero words and null pointers.
#[tactic(auto, using(crate::proofs::LawLemmas::least_children))]
pub fn least_widths()
    ensures words { (n : ℕ) (ws : List ℕ)
        → (used_words ws ≤ n) ↔ ((i : ℕ) → n ≤ i → get_or ws i 0 ≡ 0) }
    ensures children { (n : ℕ) (ts : Trees) → (used_trees ts ≤ n) ↔ AreNullFrom n ts }
    ensures data_width { (d : ℕ) (es : Elements) → (data_width es ≤ d)
        ↔ ((ws : List ℕ) (ts : Trees) → HasElement es ws ts → (i : ℕ) → d ≤ i → get_or ws i 0 ≡ 0) }
    ensures pointer_width { (q : ℕ) (es : Elements) → (pointer_width es ≤ q)
        ↔ ((ws : List ℕ) (ts : Trees) → HasElement es ws ts → AreNullFrom q ts) }
{}

/// A list's words, read as one number with the lowest word first, are the same number as its bytes,
/// read with the lowest byte first (`bytes`). The list's elements are consecutive bits of that
/// number; the first element is the lowest bits (`elements`).
#[tactic(auto, using(crate::proofs::LawLemmas::element_is_bits))]
pub fn elements_are_bits()
    ensures bytes { (n : ℕ) (bytes : List ℕ) → length bytes ≡ 8 * n
        → from_digits (2 ^ 64) (words_of bytes) ≡ from_digits (2 ^ 8) bytes }
    ensures elements { (size n i : ℕ) (words : List ℕ) → i < n → get_or (unpacked size n words) i 0
        ≡ from_digits (2 ^ 64) words / 2 ^ (element_bits size * i) % 2 ^ element_bits size }
{}

/// The words of a builder's arena hold at most one value.
#[tactic(auto, using(crate::proofs::LawLemmas::one_arena_value))]
pub fn one_arena_value()
    ensures { (S : Segments) (t u : Tree) → ArenaHolds S t → ArenaHolds S u → t ≡ u }
{}

/// If the test for canonical form accepts a message's root, a canonical copy has the same words.
/// That is: let a value's canonical words be at the root, with the body right after the root, and
/// let the root mean a value within some nesting limit. Then the value that the root means has no
/// capability, and its canonical words are a prefix of the first segment.
#[tactic(auto, using(crate::proofs::Agreements::tested_is_copied))]
pub fn tested_is_copied()
    ensures { (S : Segments) (n c : ℕ) (t u : Tree) → HasCanonicalAt S 0 0 1 t → Means S n 0 0 u c
        → (capabilities u ≡ 0) × (more : List ℕ) × (segment S 0 ≡ encoding (trim u) ++ more) }
{}

/// Let a place mean a value without capabilities, within n levels and at cost c. Then the test for
/// canonical form accepts the words of the value's canonical copy, followed by any words, within n
/// levels and at cost c or less (`found`). A canonical copy made from those words has the same
/// words as the first copy (`again`). Both laws assume that the offsets fit (`IsEncodable`).
#[tactic(auto, using(crate::proofs::Agreements::copied_again))]
pub fn copied_is_tested()
    ensures found { (S : Segments) (n s p c : ℕ) (t : Tree) (more : List ℕ) → AreWords S
        → Means S n s p t c → capabilities t ≡ 0 → IsEncodable (trim t)
        → HasCanonicalAt ((encoding (trim t) ++ more) ∷ []) 0 0 1 (trim t)
        × Means ((encoding (trim t) ++ more) ∷ []) n 0 0 (trim t) (charge (trim t))
        × (charge (trim t) ≤ c)
        × (depth (trim t) ≤ n) }
    ensures again { (S : Segments) (n s p c m e : ℕ) (t u : Tree) (more : List ℕ) → AreWords S
        → Means S n s p t c → capabilities t ≡ 0 → IsEncodable (trim t)
        → Means ((encoding (trim t) ++ more) ∷ []) m 0 0 u e
        → (capabilities u ≡ 0) × (encoding (trim u) ≡ encoding (trim t)) }
{}
