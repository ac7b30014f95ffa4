//! How calls fit together: where the next call reads what one call found. Each function does
//! nothing: its contract is the law.
ghost use Rattle.std.specs.Prelude.{◌≡◌, ◌≢◌, ◌+◌, ◌*◌, ◌/◌, ◌%◌, ◌^◌, ◌<◌, ◌≤◌, ℕ, List, get_or, length};
ghost use Rattle.std.specs.Borrow.{Bor};
ghost use Rattle.capnp_format.specs.Path.{Child, next};
ghost use Rattle.capnp_format.specs.Numbers.{element_bits, from_digits};
ghost use Rattle.capnp_format.specs.Segments.{Segments};
ghost use Rattle.capnp_format.specs.Tree.{Flat, Tree};
ghost use Rattle.capnp_pointers.specs.declared.object.Expected.{Expected};
ghost use Rattle.capnp_pointers.specs.Expected.{expectation};
ghost use Rattle.capnp_pointers.specs.Outcomes.{MeansThere};
ghost use Rattle.capnp_pointers.specs.Reading.{Reading};
ghost use Rattle.capnp_pointers.specs.Unexpected.{LeadsToOther};
ghost use Rattle.capnp_readers.specs.Values.{HasStructs, struct_element};
ghost use Rattle.capnp_words.specs.declared.error.ErrorKind.{ErrorKind};
ghost use Rattle.capnp_numbers.specs.Numbers.{error_number};
ghost use Rattle.capnp_layout_c.specs.Found.{IsElementOf, IsFoundList, IsFoundStruct, RefusesNumber};
ghost use Rattle.capnp_layout_c.specs.Lent.{lent, lent_pointer};
ghost use Rattle.capnp_layout_c.specs.declared.found.FoundList.{FoundList};
ghost use Rattle.capnp_layout_c.specs.declared.found.FoundStruct.{FoundStruct};

/// Pointer `i` of a struct that was found means child `i` of the struct's value.
pub fn children_are_there()
    ensures { (list : List (Bor (List ℕ))) (s : FoundStruct) (t : Tree) (k i : ℕ)
        → IsFoundStruct (lent list) s t k → i < s.pointers
        → (c : ℕ) × MeansThere (lent_pointer list s.segment (s.pointers_at + i) s.nesting)
        (next t (Child i)) c }
{}

/// The struct that C makes of element `i` of a list that was found is element `i` of the list's value:
/// a struct itself, a struct of one pointer, or a struct of the bytes of a number. So an upgraded
/// list reads like the list that a newer schema has.
pub fn elements_are_there()
    ensures structs { (list : List (Bor (List ℕ))) (l : FoundList) (s : FoundStruct) (t : Tree)
        (k i : ℕ) → IsFoundList (lent list) l t k → HasStructs t → i < l.count → IsElementOf l i s
        → (c : ℕ) × IsFoundStruct (lent list) s (struct_element t i) c }
    ensures numbers { (S : Segments) (l : FoundList) (s : FoundStruct) (size : ℕ) (ns : List ℕ)
        (k i : ℕ) → IsFoundList S l (Flat size ns) k → ((j : ℕ) → get_or l.data.now j 0 < 256)
        → size ≢ 1 → i < l.count → IsElementOf l i s
        → (8 * length s.data.now ≡ element_bits size) × (from_digits 256 s.data.now ≡ get_or ns i 0)
        × (s.pointers ≡ 0) }
    ensures bits { (S : Segments) (l : FoundList) (ns : List ℕ) (k i : ℕ)
        → IsFoundList S l (Flat 1 ns) k → ((j : ℕ) → get_or l.data.now j 0 < 256) → i < l.count
        → get_or l.data.now (i / 8) 0 / 2 ^ (i % 8) % 2 ≡ get_or ns i 0 }
{}

/// If a pointer means a value, and the words left cover its cost, a call is refused there only for the
/// kind of what the pointer leads to: an object of another kind, a text without its zero byte, or
/// elements that are too narrow. Each pointer of a validated message means a value, and has a level
/// left if it leads to a struct or a list.
pub fn refused_for_the_kind()
    ensures { (e : Expected) (r : Reading) (old new number : ℕ) (t : Tree) (c : ℕ)
        → MeansThere r t c → 0 < r.levels → c ≤ old → RefusesNumber (expectation e) r old new number
        → (k : ErrorKind) × (number ≡ error_number k) × LeadsToOther (expectation e) r k }
{}
