//! Checks a whole message against its schema before it is read.
ghost use Rattle.std.specs.Prelude.{◌≡◌, ◌≢◌, ◌↔◌, ◌+◌, ◌<◌, ℕ, ℤ, List, Some, IsOk, OnOk};
ghost use Rattle.std.specs.Borrow.{Bor};
ghost use Rattle.capnp_words.specs.Meter.{less, unused};
ghost use Rattle.capnp_words.specs.declared.wire_pointer.ElementSize.{ElementSize};
ghost use Rattle.capnp_format.specs.Path.{Child, next};
ghost use Rattle.capnp_format.specs.Segments.{AreWords};
ghost use Rattle.capnp_format.specs.Tree.{Tree};
ghost use Rattle.capnp_format.specs.Word.{kind, lower_half};
ghost use Rattle.capnp_arena_traits.specs.Limits.{AreSmall};
ghost use Rattle.capnp_pointers.specs.declared.object.Expected.{Expected};
ghost use Rattle.capnp_pointers.specs.Expected.{HasExpected, expectation};
ghost use Rattle.capnp_pointers.specs.Outcomes.{MeansThere};
ghost use Rattle.capnp_pointers.specs.Reading.{Reading, word_of};
ghost use Rattle.capnp_pointers.specs.Source.{levels};
ghost use Rattle.capnp_messages.specs.Messages.{arena_limits};
ghost use Rattle.capnp_messages.specs.Roots.{message_root};
ghost use Rattle.capnp_readers.specs.Values.{HasStructs, struct_children, struct_data, struct_element};
ghost use Rattle.typed_conforming.specs.Conforms.{ConformAll, Conforms};
ghost use Rattle.typed_conforming.specs.Tables.{wanted};
ghost use Rattle.typed_conforming.specs.declared.schema.Kind.{Kind};
ghost use Rattle.capnp_layout_c.specs.Checking.{ConformsWithin, IsNowhere, IsMessageMisfit, call_for, check_message};
ghost use Rattle.capnp_layout_c.specs.Found.{IsElementOf, IsFoundList, IsFoundStruct};
ghost use Rattle.capnp_layout_c.specs.Lent.{Leaves, lent, lent_pointer, no_limit};
ghost use Rattle.capnp_layout_c.specs.declared.found.FoundList.{FoundList};
ghost use Rattle.capnp_layout_c.specs.declared.found.FoundStruct.{FoundStruct};

use crate::limits::store_left;
use crate::segments::Segments;
use crate::validation::read_root;
use capnp_numbers::layout_number;
use capnp_words::read_limiter::ReadLimiter;
use typed_conforming::conforms::conforms;
use typed_conforming::schema::{Kind, Misfit};

/// A pointer that isn't as the schema says.
#[repr(C)]
#[derive(Clone, Copy)]
pub struct FoundMisfit {
    /// The segment of the pointer.
    pub segment: u64,
    /// The word of the pointer.
    pub word: u32,
    /// The row of the struct that the pointer is in; 0 if none is known, and for the root.
    pub row: u32,
    /// The index of the pointer in that struct; 0 for the root.
    pub index: u32,
}

// What is stored if nothing is refused.
const NOWHERE: FoundMisfit = FoundMisfit {
    segment: 0,
    word: 0,
    row: 0,
    index: 0,
};

// Reads the whole value of a message, and tests whether it conforms.
fn check_root(
    segments: &Segments<'_>,
    table: &[u32],
    row: u32,
    nesting: i32,
    lim: &mut ReadLimiter,
) -> Result<(), Misfit>
    ensures walk { check_message table.now row (lent segments.now.list.now) (levels nesting) lim.old
        ≡ (result, lim.new) }
    ensures exactly { IsOk result ↔ ConformsWithin table.now row (lent segments.now.list.now)
        (arena_limits nesting lim.old.left) }
    ensures spent { (t : Tree) (c : ℕ)
        → MeansThere (lent_pointer segments.now.list.now 0 0 nesting) t c
        → OnOk result (lim.new.left ≡ less lim.old.left (1 + c)) }
{
    match read_root(segments, nesting, lim) {
        Ok(root) => conforms(table, Kind::Struct(row), &root, lim),
        Err(error) => Err(Misfit {
            error,
            segment: 0,
            word: 0,
            row: 0,
            index: 0,
        }),
    }
}

/// Tests a whole message, from its root on, against a schema: whether its value can be read within
/// `nesting` levels and the words of `left`, and conforms to row `row` of `table`. If so, no call is
/// refused afterwards at a pointer of the message if it asks for what the table says, and `left` stands
/// for no limit. Any array is a table. Charges one word for the root pointer, and then each object once.
///
/// If the message is refused, `misfit` says at which pointer; otherwise its numbers are all 0. Calls
/// itself for each level, so its stack grows with the depth of the value, which `nesting` bounds.
#[unsafe(no_mangle)]
pub extern "C" fn capnp_layout_check(
    segments: &Segments<'_>,
    table: &[u32],
    row: u32,
    left: &mut u64,
    nesting: i32,
    misfit: &mut FoundMisfit,
) -> u32
    ensures exactly { (result ≡ 0) ↔ ConformsWithin table.now row (lent segments.now.list.now)
        (arena_limits nesting (Some left.old)) }
    ensures takes { (t : Tree) (c : ℕ)
        → MeansThere (lent_pointer segments.now.list.now 0 0 nesting) t c
        → result ≡ 0 → Leaves left.old left.new (1 + c) }
    ensures refused { result ≢ 0 → IsMessageMisfit table.now row segments.now.list.now nesting
        left.old left.new misfit.new result }
    ensures none { result ≡ 0 → IsNowhere misfit.new }
{
    let mut lim = ReadLimiter::new(Some(*left as usize));
    let found = check_root(segments, table, row, nesting, &mut lim);
    store_left(&lim, left);
    match found {
        Ok(()) => {
            *misfit = NOWHERE;
            0
        }
        Err(refusal) => {
            *misfit = FoundMisfit {
                segment: refusal.segment,
                word: refusal.word,
                row: refusal.row,
                index: refusal.index,
            };
            layout_number(refusal.error)
        }
    }
}

/// What a check is for: with no limit, a call for a kind (`call_for`) isn't refused at a pointer whose
/// value conforms to the kind (`reads`), and a capability that isn't behind a far pointer is found
/// (`capabilities`). Each pointer of a struct that conforms means a value that conforms to the kind
/// that the table has for it (`pointers`); a struct that a pointer leads to conforms to the pointer's
/// row (`structs`), and so does each element of a list of structs or pointers (`elements`). The root
/// conforms after a check.
pub fn checked_reads_succeed()
    ensures reads { (T : List ℕ) (k : Kind) (e : Expected) (list : List (Bor (List ℕ)))
        (segment word : ℕ) (nesting : ℤ) (t : Tree) (c : ℕ) → AreSmall list
        → AreWords (lent list) → call_for k ≡ Some e → Conforms T k t
        → MeansThere (lent_pointer list segment word nesting) t c
        → HasExpected (expectation e) (lent_pointer list segment word nesting)
        (unused (Some no_limit)) }
    ensures capabilities { (T : List ℕ) (r : Reading) (t : Tree) (c : ℕ)
        → Conforms T Kind.Capability t → MeansThere r t c → word_of r ≢ 0
        → kind (word_of r) ≢ 2 → lower_half (word_of r) ≡ 3 }
    ensures pointers { (T : List ℕ) (row : ℕ) (list : List (Bor (List ℕ))) (s : FoundStruct)
        (t : Tree) (k i : ℕ) → IsFoundStruct (lent list) s t k
        → ConformAll T row (struct_data t) 0 (struct_children t) → i < s.pointers
        → (c : ℕ) × MeansThere (lent_pointer list s.segment (s.pointers_at + i) s.nesting)
        (next t (Child i)) c
        × Conforms T (wanted T row (struct_data t) i) (next t (Child i)) }
    ensures structs { (T : List ℕ) (row : ℕ) (t : Tree) → Conforms T (Kind.Struct row) t
        → ConformAll T row (struct_data t) 0 (struct_children t) }
    ensures elements { (T : List ℕ) (size : ElementSize) (row : ℕ) (list : List (Bor (List ℕ)))
        (l : FoundList) (s : FoundStruct) (t : Tree) (k i : ℕ) → IsFoundList (lent list) l t k
        → Conforms T (Kind.List size row) t → HasStructs t → i < l.count → IsElementOf l i s
        → (c : ℕ) × IsFoundStruct (lent list) s (struct_element t i) c
        × ConformAll T row (struct_data (struct_element t i)) 0
        (struct_children (struct_element t i)) }
{}
