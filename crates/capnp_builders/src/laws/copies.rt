//! Laws that follow from the contracts of this crate. Each function does nothing: its contract is
//! the law, proved for all readers and all arenas.
ghost use Rattle.std.specs.Prelude.{◌≡◌, ℕ, ◌+◌, ◌*◌, ◌<◌, ◌≤◌, List, length, sum_by, true, Some, Result, ⊤};
ghost use Rattle.capnp_words.specs.declared.error.ErrorKind.{ErrorKind};
ghost use Rattle.capnp_format.specs.Bytes.{words_of};
ghost use Rattle.capnp_arena_traits.specs.View.{View};
ghost use Rattle.capnp_allocation.specs.Near.{HasOwnRoom};
ghost use Rattle.capnp_pointers.specs.Reading.{Reading};
ghost use Rattle.capnp_pointers.specs.Refusals.{Refused};
ghost use Rattle.capnp_copies.specs.Changes.{CopyCall, StayInSegment, RefusesToCopy};
ghost use Rattle.capnp_copies.specs.Growth.{Makes, MakesAtMost, TakesAtMost};
ghost use Rattle.capnp_copies.specs.Originals.{value_original};
ghost use Rattle.capnp_builders.specs.StructValues.{section_words};

/// If a data section is whole words, its words are those of its bytes (encoding specification,
/// "Structs").
pub fn whole_sections()
    ensures { (d : ℕ) (bytes : List ℕ) → length bytes ≡ 8 * d
        → section_words (64 * d) bytes ≡ words_of bytes }
{}

/// A copy allocates exactly the words of the objects that it makes and of their landing pads. There
/// is no landing pad if the objects fit the segment of the pointer copied to, or the message has
/// one segment afterwards ("Inter-Segment Pointers").
pub fn pads_apart()
    ensures { (id words pads : ℕ) (old new : View) → Makes id old new words pads
        → (sum_by length new.words ≡ sum_by length old.words + (words + pads))
        × (id < length old.words → StayInSegment old new id words → pads ≡ 0) }
{}

/// If reading the source is charged and the limiter has x words left, a copy, complete or refused,
/// allocates at most x words for objects, and one word each for at most x + 1 landing pads. Each
/// landing pad is for an object in another segment than its pointer. There is no landing pad if x
/// words fit the segment of the pointer copied to, or the message has one segment afterwards. The
/// copy follows at most x + 1 pointers: the one whose value is copied, and at most one in each of
/// the x words.
pub fn few_taken()
    ensures { (r : Reading) (c : CopyCall) (x : ℕ) (result : Result ⊤ ErrorKind)
        → r.charging ≡ true → c.before.left ≡ Some x → TakesAtMost result (value_original r) c
        → (made : MakesAtMost c.segment c.old c.new x (x + 1))
        × (sum_by length c.new.words ≤ sum_by length c.old.words + x + made.pads)
        × (c.segment < length c.old.words
        → StayInSegment c.old c.new c.segment x → made.pads ≡ 0)
        × (c.after.followed ≤ c.before.followed + (x + 1)) }
{}

/// If reading the source is charged, the limiter has x words left, and x words fit the segment of
/// the pointer copied to, then a copy is refused only with a refusal of reading its source, never
/// for lack of memory.
pub fn budget_has_room()
    ensures { (r : Reading) (c : CopyCall) (x : ℕ) (k : ErrorKind)
        → r.charging ≡ true → c.before.left ≡ Some x → HasOwnRoom c.old c.segment x
        → RefusesToCopy (value_original r) c k → Refused c.form r c.before c.after k }
{}
