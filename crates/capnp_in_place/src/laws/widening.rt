//! Laws about widening structs and lists of structs: it doesn't change the canonical words of a
//! value. Each function does nothing: its contract is the law, proved for all values and messages.
ghost use Rattle.std.specs.Prelude.{◌≡◌, ℕ, List, Ok};
ghost use Rattle.capnp_format.specs.Forest.{IsForest};
ghost use Rattle.capnp_format.specs.Segments.{Segments};
ghost use Rattle.capnp_format.specs.Tree.{Tree, Trees, Struct, Elements, Structs};
ghost use Rattle.capnp_format.specs.Path.{Step, node, PathLeads};
ghost use Rattle.capnp_allocation.specs.Stored.{IsStored, IsReplaced};
ghost use Rattle.capnp_in_place.specs.Laws.{HaveSize, SameCanonicalForm};
ghost use Rattle.capnp_in_place.specs.Widened.{fill_words, fill_trees, list_widened, widened};
ghost use Rattle.capnp_words.specs.declared.wire_pointer.StructSize.{StructSize};

/// A struct keeps its canonical words if zeros and null pointers are added at the ends of its
/// sections (encoding specification, "Canonicalization").
pub fn wider_struct()
    ensures { (d q : ℕ) (ws : List ℕ) (ts : Trees)
        → SameCanonicalForm (Struct ws ts) (Struct (fill_words d ws) (fill_trees q ts)) }
{}

/// A list of structs keeps its canonical words if its elements are widened to any size, because the
/// zeros and null pointers that are added to each element come after the last data word and the
/// last pointer that any element uses. This also holds for a list without elements, and for
/// elements without words.
pub fn wider_list()
    ensures { (d q e k : ℕ) (es : Elements) (u : Tree)
        → HaveSize e k es → list_widened d q (Structs e k es) ≡ Ok u
        → SameCanonicalForm (Structs e k es) u }
{}

/// If a struct or a list of structs is widened anywhere inside the value of a pointer, the
/// pointer's value keeps its canonical form. So a canonical copy of this value has the same words
/// before and after.
pub fn widened_within()
    ensures structs { (S R : Segments) (s p : ℕ) (t : Tree) (path : List Step)
        (u q : ℕ) (ws : List ℕ) (ts : Trees) (size : StructSize)
        → IsStored S s p t → PathLeads S (node s p t) path (node u q (Struct ws ts))
        → IsReplaced S R u q (Struct ws ts) (widened size ws ts)
        → (w : Tree) × IsReplaced S R s p t w × SameCanonicalForm t w }
    ensures lists { (S R : Segments) (s p : ℕ) (t : Tree) (path : List Step)
        (u q d k : ℕ) (es : Elements) (size : StructSize) (v : Tree)
        → IsStored S s p t → PathLeads S (node s p t) path (node u q (Structs d k es))
        → list_widened size.data_words size.pointers (Structs d k es) ≡ Ok v
        → IsReplaced S R u q (Structs d k es) v
        → (w : Tree) × IsReplaced S R s p t w × SameCanonicalForm t w }
{}

/// If a struct or a list of structs is widened anywhere in a built message, the message keeps its
/// canonical words. Before and after, every word outside of the root pointer, the objects and their
/// landing pads is zero.
pub fn message_widened()
    ensures structs { (S R : Segments) (t : Tree) (path : List Step)
        (u q : ℕ) (ws : List ℕ) (ts : Trees) (size : StructSize)
        → IsForest S t → PathLeads S (node 0 0 t) path (node u q (Struct ws ts))
        → IsReplaced S R u q (Struct ws ts) (widened size ws ts)
        → (w : Tree) × IsForest R w × SameCanonicalForm t w }
    ensures lists { (S R : Segments) (t : Tree) (path : List Step)
        (u q d k : ℕ) (es : Elements) (size : StructSize) (v : Tree)
        → IsForest S t → PathLeads S (node 0 0 t) path (node u q (Structs d k es))
        → list_widened size.data_words size.pointers (Structs d k es) ≡ Ok v
        → IsReplaced S R u q (Structs d k es) v
        → (w : Tree) × IsForest R w × SameCanonicalForm t w }
{}
