//! Laws for users of canonical copies and of the test for canonical form (encoding specification,
//! "Canonicalization"): a message has at most one value and one list of canonical words, and the
//! copy and the test agree with one another. Each function does nothing: its contract is the law.
ghost use Rattle.std.specs.Prelude.{◌≡◌, ◌↔◌, ◌∷◌, ◌++◌, ◌+◌, ◌≤◌, [], ℕ, List};
ghost use Rattle.capnp_words.specs.Meter.{FitsIn};
ghost use Rattle.capnp_format.specs.Canonical.{charge, encoding, trim, word_count};
ghost use Rattle.capnp_format.specs.Forest.{IsForest};
ghost use Rattle.capnp_format.specs.Means.{Means};
ghost use Rattle.capnp_format.specs.Segments.{AreWords, Segments};
ghost use Rattle.capnp_format.specs.Tree.{Null, Tree, depth};
ghost use Rattle.capnp_format.specs.Value.{IsValue};
ghost use Rattle.capnp_arena_traits.specs.Allocations.{max_segment_words};
ghost use Rattle.capnp_arena.specs.declared.arena.reader_arena_impl.ReaderOptions.{ReaderOptions};
ghost use Rattle.capnp_pointers.specs.Source.{levels};
ghost use Rattle.capnp_messages.specs.CanonicalMessages.{IsCanonicalMessage, IsCanonicalOf};
ghost use Rattle.capnp_messages.specs.Messages.{IsValueOf};

/// A pointer leads to at most one value, and reading this value has one cost; neither the value nor
/// the cost depends on the nesting limit. So a message has at most one value, the same for all
/// limits.
pub fn one_value()
    ensures place { (S : Segments) (n m s p : ℕ) (t u : Tree) (c e : ℕ) → Means S n s p t c
        → Means S m s p u e → (t ≡ u) × (c ≡ e) }
    ensures message { (S : Segments) (limits others : ReaderOptions) (t u : Tree)
        → IsValueOf S limits t → IsValueOf S others u → t ≡ u }
{}

/// If the encodings of two values fit a segment, these encodings are the same words exactly if the
/// values are equal. So two messages have the same canonical words exactly if their trimmed values
/// are equal: the values without the zero words and null pointers that the canonical form cuts from
/// the ends of sections.
pub fn same_words()
    ensures values { (t u : Tree) → IsValue t → IsValue u → 1 + word_count t ≤ max_segment_words
        → 1 + word_count u ≤ max_segment_words → (encoding t ≡ encoding u) ↔ (t ≡ u) }
    ensures messages { (S R : Segments) (limits others : ReaderOptions) (t u : Tree)
        → AreWords S → AreWords R → IsValueOf S limits t → IsValueOf R others u
        → 1 + word_count (trim t) ≤ max_segment_words
        → 1 + word_count (trim u) ≤ max_segment_words
        → (encoding (trim t) ≡ encoding (trim u)) ↔ (trim t ≡ trim u) }
{}

/// The canonical words of a value aren't a proper prefix of the canonical words of any value.
pub fn no_words_begin_others()
    ensures values { (t u : Tree) (more : List ℕ) → IsValue t → IsValue u
        → 1 + word_count t ≤ max_segment_words → 1 + word_count u ≤ max_segment_words
        → encoding t ++ more ≡ encoding u → more ≡ [] }
    ensures messages { (S R : Segments) (limits others : ReaderOptions) (t u : Tree) (more : List ℕ)
        → AreWords S → AreWords R → IsValueOf S limits t → IsValueOf R others u
        → 1 + word_count (trim t) ≤ max_segment_words
        → 1 + word_count (trim u) ≤ max_segment_words
        → encoding (trim t) ++ more ≡ encoding (trim u) → more ≡ [] }
{}

/// The canonical words of a message are themselves a canonical message. Within the same limits, the
/// value of this second message is the trimmed value of the first one.
pub fn copy_is_canonical()
    ensures { (S : Segments) (limits : ReaderOptions) (t : Tree) → AreWords S → IsValueOf S limits t
        → 1 + word_count (trim t) ≤ max_segment_words
        → IsCanonicalOf (encoding (trim t) ∷ []) (trim t)
        × IsValueOf (encoding (trim t) ∷ []) limits (trim t) }
{}

/// The canonical message of a value has this value, and no other one. It has the value within given
/// limits exactly if the nesting limit is at least the value's depth, and the traversal limit is at
/// least the cost of reading the value, plus one word for the root pointer.
pub fn canonical_has_value()
    ensures means { (S : Segments) (t : Tree) (n : ℕ) → IsCanonicalOf S t → depth t ≤ n
        → Means S n 0 0 t (charge t) }
    ensures value { (S : Segments) (limits : ReaderOptions) (t u : Tree) → IsCanonicalOf S t
        → IsValueOf S limits u ↔ ((u ≡ t) × (depth t ≤ levels limits.nesting_limit)
        × FitsIn limits.traversal_limit_in_words (1 + charge t)) }
{}

/// A message is canonical exactly if it is its own canonical copy.
pub fn canonical_is_own_copy()
    ensures { (S : Segments) (limits : ReaderOptions) (t : Tree) → AreWords S → IsValueOf S limits t
        → 1 + word_count (trim t) ≤ max_segment_words
        → IsCanonicalMessage S ↔ (S ≡ encoding (trim t) ∷ []) }
{}

/// A message is a forest if its value uses no word twice, and all words that the value doesn't use
/// are zero. The message whose only word is a null root is a forest with the value Null. Building
/// starts with this message.
pub fn fresh_message_is_forest()
    ensures { IsForest ((0 ∷ []) ∷ []) Null }
{}
