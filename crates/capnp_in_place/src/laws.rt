//! Laws of the calls that put a value at a place of a message, and of those that write or read a
//! number or a bit. Each function does nothing: its contract is the law, proved for all messages.

pub mod widening;

ghost use Rattle.std.specs.Prelude.{◌≡◌, ◌⊎◌, ℕ, ◌+◌, ◌*◌, ◌/◌, ◌%◌, ◌^◌, ◌<◌, ◌≤◌, List, length, slice_set};
ghost use Rattle.capnp_format.specs.Forest.{IsForest, times, target};
ghost use Rattle.capnp_format.specs.Numbers.{element_bits};
ghost use Rattle.capnp_format.specs.Segments.{Segments, segment, word_at};
ghost use Rattle.capnp_format.specs.Tree.{Tree, Struct, Flat, Structs, Trees, Elements, element_count};
ghost use Rattle.capnp_allocation.specs.Fields.{with_field};
ghost use Rattle.capnp_format.specs.Fields.{put_field, field_in};
ghost use Rattle.capnp_format.specs.Path.{Step, node, PathLeads, update, extent, struct_at, put_struct};
ghost use Rattle.capnp_allocation.specs.Stored.{IsStored, IsReplaced, Puts};

/// A message is a forest if its value holds no word twice, and all other words are zero. After a
/// call has put a value at the end of a path from the root of a forest, the message is a forest
/// again, and its value is the former one, except for what is at the end of the path.
pub fn forest_after()
    ensures { (S R : Segments) (t : Tree) (path : List Step) (u q : ℕ) (x y : Tree)
        → IsForest S t → PathLeads S (node 0 0 t) path (node u q x) → Puts S R u q y
        → IsForest R (update t path y) }
{}

/// A call that puts a value at a place of a forest changes only the pointer at that place, the
/// words of the value that this pointer led to before, and words that the call allocates.
pub fn others_stay()
    ensures { (S R : Segments) (t : Tree) (path : List Step) (u q : ℕ) (x y : Tree)
        → IsForest S t → PathLeads S (node 0 0 t) path (node u q x) → Puts S R u q y
        → (v r : ℕ) → r < length (segment S v) → times (extent S u q x) v r ≡ 0
        → word_at R v r ≡ word_at S v r }
{}

/// Two calls that put a value at the same place have the effect of one call that puts the second
/// value there.
pub fn last_put_wins()
    ensures { (S R Q : Segments) (u q : ℕ) (y z : Tree)
        → Puts S R u q y → Puts R Q u q z → Puts S Q u q z }
{}

/// If a number or a bit is written in the data section of a struct, the place of the struct holds
/// the struct with that number or bit instead of the former one, and nothing else of the message is
/// changed (encoding specification, "Structs"). The position b of the number is in bits from the
/// first data word on.
pub fn struct_field_written()
    ensures { (S R : Segments) (s p : ℕ) (ws : List ℕ) (ts : Trees) (b w v : ℕ)
        → IsStored S s p (Struct ws ts) → b < 64 * length ws
        → R ≡ with_field S (target S s p).segment (64 * (target S s p).start + b) w v
        → IsReplaced S R s p (Struct ws ts) (Struct (put_field ws b w v) ts) }
{}

/// If an element is written in a list of numbers or bits, the place of the list holds the list with
/// that element instead of the former one, and nothing else of the message is changed ("Lists").
pub fn list_element_written()
    ensures { (S R : Segments) (s p size : ℕ) (ns : List ℕ) (i v : ℕ)
        → IsStored S s p (Flat size ns) → 0 < size → i < length ns → v < 2 ^ element_bits size
        → R ≡ with_field S (target S s p).segment
        (64 * (target S s p).start + i * element_bits size) (element_bits size) v
        → IsReplaced S R s p (Flat size ns) (Flat size (slice_set ns i v)) }
{}

/// If a number or a bit is written in the data section of an element of a list of structs, the
/// list's place holds the list with that element changed, and nothing else of the message is
/// changed ("Lists"). The position of the number is in bits from the element's first word on.
pub fn element_field_written()
    ensures { (S R : Segments) (s p d q : ℕ) (es : Elements) (i : ℕ)
        (ws : List ℕ) (ts : Trees) (b w v : ℕ)
        → IsStored S s p (Structs d q es) → i < element_count es → struct_at es i ≡ Struct ws ts
        → b < 64 * length ws
        → R ≡ with_field S (target S s p).segment
        (64 * ((target S s p).start + 1 + i * (d + q)) + b) w v
        → IsReplaced S R s p (Structs d q es)
        (Structs d q (put_struct es i (Struct (put_field ws b w v) ts))) }
{}

/// Reading a number or a bit that was just written returns its value.
pub fn field_read_back()
    ensures { (ws : List ℕ) (b w v : ℕ)
        → b / 64 < length ws → b % 64 + w ≤ 64 → v < 2 ^ w
        → field_in (put_field ws b w v) b w ≡ v }
{}

/// Writing a number or a bit leaves the numbers and bits before and after it unchanged.
pub fn other_fields_stay()
    ensures { (ws : List ℕ) (b w v c x : ℕ)
        → b / 64 < length ws → b % 64 + w ≤ 64 → v < 2 ^ w
        → c % 64 + x ≤ 64 → (b + w ≤ c) ⊎ (c + x ≤ b)
        → field_in (put_field ws b w v) c x ≡ field_in ws c x }
{}
