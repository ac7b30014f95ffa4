//! Laws of values that conform to a schema. The function does nothing: its contract is the law.
ghost use Rattle.std.specs.Prelude.{ℕ, List};
ghost use Rattle.capnp_format.specs.Tree.{Tree};
ghost use Rattle.capnp_words.specs.declared.wire_pointer.ElementSize.{ElementSize};
ghost use Rattle.capnp_readers.specs.Values.{HasStructs, IsStructOrNull, struct_children, struct_data, struct_element};
ghost use Rattle.typed_reading.specs.Values.{child};
ghost use Rattle.typed_conforming.specs.Conforms.{ConformAll, Conforms, IsOfKind};
ghost use Rattle.typed_conforming.specs.Tables.{wanted};
ghost use Rattle.typed_conforming.specs.declared.schema.Kind.{Kind};

/// A value that conforms is of its kind (`kind`), which is what the getter of the kind in
/// `typed_reading` asks for. Each pointer of a struct whose pointers conform leads to a value that
/// conforms (`child`). A struct that conforms is such a struct (`parts`), and so is each element of
/// a list that conforms (`elements`). So by any chain of getters of the schema, also without a
/// limit, no getter meets a value that it refuses.
pub fn parts_conform()
    ensures kind { (T : List ℕ) (k : Kind) (t : Tree) → Conforms T k t → IsOfKind k t }
    ensures child { (T : List ℕ) (row i : ℕ) (t : Tree) → IsStructOrNull t
        → ConformAll T row (struct_data t) 0 (struct_children t)
        → Conforms T (wanted T row (struct_data t) i) (child i t) }
    ensures parts { (T : List ℕ) (row : ℕ) (t : Tree) → Conforms T (Kind.Struct row) t
        → ConformAll T row (struct_data t) 0 (struct_children t) }
    ensures elements { (T : List ℕ) (size : ElementSize) (row i : ℕ) (t : Tree)
        → Conforms T (Kind.List size row) t
        → ConformAll T row (struct_data (struct_element t i)) 0
        (struct_children (struct_element t i)) }
{}
