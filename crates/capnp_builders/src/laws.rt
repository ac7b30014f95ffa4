//! Laws of structs of a message being built: of their children, and of the calls that copy another
//! struct's content into them. Each function does nothing: its contract is the law, proved for all
//! messages.

pub mod copies;

ghost use Rattle.std.specs.Prelude.{◌≡◌, ℕ, ◌+◌, ◌*◌, ◌<◌, ◌≤◌, List, length};
ghost use Rattle.capnp_format.specs.Forest.{target};
ghost use Rattle.capnp_format.specs.Segments.{Segments};
ghost use Rattle.capnp_format.specs.Tree.{Tree, Null, Struct, Structs, Trees, Elements, count, element_count};
ghost use Rattle.capnp_allocation.specs.Filled.{AreFilled};
ghost use Rattle.capnp_allocation.specs.Memory.{start_of};
ghost use Rattle.capnp_format.specs.Path.{put_struct, put_tree, struct_at, tree_at};
ghost use Rattle.capnp_allocation.specs.Stored.{IsStored, IsReplaced};
ghost use Rattle.capnp_readers.specs.declared.readers.struct_reader.StructPlace.{StructPlace};
ghost use Rattle.capnp_in_place.specs.Opening.{existing_struct};
ghost use Rattle.capnp_builders.specs.Content.{TakesBytes, HoldContent, up_to};
ghost use Rattle.capnp_builders.specs.Held.{HasStruct, Holder};
ghost use Rattle.capnp_builders.specs.Places.{struct_place};

/// If calls replace the value of pointer i of a struct by u, the struct has u as its child i, and
/// is otherwise as before (encoding specification, "Structs"). So what is known of a child's
/// pointer is known of the struct that has it.
pub fn child_replaced()
    ensures { (S R : Segments) (x : Holder) (place : StructPlace) (ws : List ℕ) (ts : Trees) (i : ℕ)
        (u : Tree) → i < place.pointers
        → IsReplaced S R place.segment (place.pointers_at + i) (tree_at ts i) u
        → HasStruct S x place ws ts → HasStruct R x place ws (put_tree ts i u) }
{}

/// Suppose `copy_content_from` copies the data and the pointers of another struct into a struct of
/// a message, and is refused at no pointer. The pointer that led to the old struct then leads to a
/// struct with the copied data, followed by zeros, and with the copied pointers, followed by null
/// pointers. The new struct starts where the old one did, and nothing else of the message changes
/// (encoding specification, "Structs").
pub fn content_taken()
    ensures { (S M R : Segments) (s p : ℕ) (ws : List ℕ) (ts us : Trees) (place : StructPlace)
        (bits : ℕ) (bytes : List ℕ) → IsStored S s p (Struct ws ts)
        → place ≡ struct_place (existing_struct (start_of (target S s p))
        (record { data_words = length ws; pointers = count ts }))
        → TakesBytes S M place bits bytes
        → AreFilled M R place.segment place.pointers_at us → count us ≤ count ts
        → (vs : List ℕ) × HoldContent vs (length ws) bits bytes
        × IsReplaced S R s p (Struct ws ts) (Struct vs (up_to (count ts) us))
        × (target R s p ≡ target S s p) }
{}

/// Suppose `copy_content_from` is refused at one of the pointers, which is then null. The pointer
/// that led to the old struct then leads to a struct with the copied data, followed by zeros, and
/// with the pointers copied before the refusal, followed by null pointers.
pub fn content_stopped()
    ensures { (S M F R : Segments) (s p : ℕ) (ws : List ℕ) (ts us : Trees) (place : StructPlace)
        (bits : ℕ) (bytes : List ℕ) → IsStored S s p (Struct ws ts)
        → place ≡ struct_place (existing_struct (start_of (target S s p))
        (record { data_words = length ws; pointers = count ts }))
        → TakesBytes S M place bits bytes
        → AreFilled M F place.segment place.pointers_at us → count us < count ts
        → IsReplaced F R place.segment (place.pointers_at + count us) Null Null
        → (vs : List ℕ) × HoldContent vs (length ws) bits bytes
        × IsReplaced S R s p (Struct ws ts) (Struct vs (up_to (count ts) us))
        × (target R s p ≡ target S s p) }
{}

/// Suppose `copy_content_from` copies the data and the pointers of another struct into an element
/// of a list of structs, and is refused at no pointer. The pointer that led to the list then leads
/// to the list with the copied content in the element, and nothing else of the message changes
/// ("Lists").
pub fn element_content_taken()
    ensures { (S M R : Segments) (s p d q : ℕ) (es : Elements) (i : ℕ) (ws : List ℕ)
        (ts us : Trees) (place : StructPlace) (bits : ℕ) (bytes : List ℕ)
        → IsStored S s p (Structs d q es) → i < element_count es → struct_at es i ≡ Struct ws ts
        → place ≡ struct_place (record {
          segment = (target S s p).segment;
          start = (target S s p).start + 1 + i * (d + q);
          size = record { data_words = d; pointers = q };
        })
        → TakesBytes S M place bits bytes
        → AreFilled M R place.segment place.pointers_at us → count us ≤ q
        → (vs : List ℕ) × HoldContent vs d bits bytes
        × IsReplaced S R s p (Structs d q es)
        (Structs d q (put_struct es i (Struct vs (up_to q us)))) }
{}

/// Suppose `copy_content_from` is refused at one of the pointers of an element of a list of
/// structs, and that pointer is then null. The pointer that led to the list then leads to the list
/// with this content in the element: the copied data, followed by zeros, and the pointers copied
/// before the refusal, followed by null pointers.
pub fn element_content_stopped()
    ensures { (S M F R : Segments) (s p d q : ℕ) (es : Elements) (i : ℕ) (ws : List ℕ)
        (ts us : Trees) (place : StructPlace) (bits : ℕ) (bytes : List ℕ)
        → IsStored S s p (Structs d q es) → i < element_count es → struct_at es i ≡ Struct ws ts
        → place ≡ struct_place (record {
          segment = (target S s p).segment;
          start = (target S s p).start + 1 + i * (d + q);
          size = record { data_words = d; pointers = q };
        })
        → TakesBytes S M place bits bytes
        → AreFilled M F place.segment place.pointers_at us → count us < q
        → IsReplaced F R place.segment (place.pointers_at + count us) Null Null
        → (vs : List ℕ) × HoldContent vs d bits bytes
        × IsReplaced S R s p (Structs d q es)
        (Structs d q (put_struct es i (Struct vs (up_to q us)))) }
{}
