//! The walk that tests whether a value conforms to a schema.
ghost use Rattle.std.specs.Prelude.{◌≡◌, ◌↔◌, ◌<◌, ◌≤◌, ◌+◌, ◌*◌, length, take, drop, slice_index, List, ℕ, IfErr, IsOk, OnOk, MatchOption};
ghost use Rattle.std.specs.Bool.{OnTrue};
ghost use Rattle.std.specs.Str.{is_utf8};
ghost use Rattle.capnp_format.specs.Bytes.{words_of};
ghost use Rattle.capnp_format.specs.Numbers.{words_for};
ghost use Rattle.capnp_words.specs.Sizes.{size_number};
ghost use Rattle.capnp_pointers.specs.Expected.{narrow_elements, narrow_structs};
ghost use Rattle.capnp_pointers.specs.Objects.{IsHeld};
ghost use Rattle.typed_conforming.specs.declared.conforms.ObjectElements.{ObjectElements};
ghost use Rattle.capnp_format.specs.Tree.{Tree};
ghost use Rattle.capnp_format.specs.Word.{kind, element_size};
ghost use Rattle.capnp_pointers.specs.Sizes.{IsWordAt};
ghost use Rattle.capnp_words.specs.Meter.{Affords};
ghost use Rattle.capnp_pointers.specs.Outcomes.{MeansThere};
ghost use Rattle.capnp_pointers.specs.Spending.{Paid, pointers_in};
ghost use Rattle.capnp_pointers.specs.Reading.{segment_read};
ghost use Rattle.capnp_pointers.specs.Pointers.{reading, reading_on};
ghost use Rattle.typed_conforming.specs.Conforms.{Conforms};
ghost use Rattle.capnp_format.specs.Segments.{Segments, segment};
ghost use Rattle.capnp_pointers.specs.Enter.{object_shape};
ghost use Rattle.capnp_pointers.specs.Entering.{IsAtHand, IsObjectHeld};
ghost use Rattle.capnp_pointers.specs.Reading.{place_past, words_from};
ghost use Rattle.typed_conforming.specs.Rows.{AreElementsOf};
ghost use Rattle.typed_conforming.specs.Misfits.{bytes_are_utf8, bytes_end_in_zero, data_misfit, kind_misfit, list_misfit, text_misfit, utf8_misfit, IsAsciiWord};
ghost use Rattle.typed_conforming.specs.Blame.{IsTrueFrom, first_visit};
ghost use Rattle.typed_conforming.specs.Walk.{check_elements, check_place, check_pointers, check_within, rowless_pointer, misfit_at, schema_pointer, worded_pointer, Performs};

use crate::schema::{Kind, Misfit, NOT_UTF8};
use crate::table::{TEXT, TableRow, UTF8, row_below, wanted_word, word_kind};
use capnp_arena_traits::arena::ReaderArena;
use capnp_pointers::nesting::one_level_less;
use capnp_pointers::object::{Object, Place, PointerWord};
use capnp_pointers::pointers::Pointer;
use capnp_words::error::ErrorKind;
use capnp_words::read_limiter::ReadLimiter;
use capnp_words::wire_pointer::{
    ElementSize, StructSize, WirePointer, WirePointerKind, data_bits_per_element,
    is_primitive_list, words_for_elements,
};
use capnp_words::words::word_at;
use std::mem;

// The highest bit of each byte of a word, which ASCII doesn't have.
const HIGH_BITS: u64 = 0x8080_8080_8080_8080;

// The refusal for elements of a list that are too narrow, if they are.
fn narrow_elements_error(expected: ElementSize, found: ElementSize) -> Option<ErrorKind>
    requires { size_number found < 7 }
    ensures { result ≡ narrow_elements expected (size_number found) }
{
    if found == ElementSize::Bit && expected != ElementSize::Bit {
        return Some(ErrorKind::FoundBitListWhereStructListWasExpected);
    }
    let is_wide = data_bits_per_element(found) >= data_bits_per_element(expected);
    if is_wide && (expected != ElementSize::Pointer || found == ElementSize::Pointer) {
        None
    } else {
        Some(ErrorKind::MessageContainsListWithIncompatibleElementType)
    }
}

// The refusal for sections of a list of structs that are too narrow, if they are.
fn narrow_structs_error(expected: ElementSize, sections: StructSize) -> Option<ErrorKind>
    ensures { result ≡ narrow_structs expected sections }
{
    match expected {
        ElementSize::Void | ElementSize::InlineComposite => None,
        ElementSize::Bit => Some(ErrorKind::FoundStructListWhereBitListWasExpected),
        ElementSize::Pointer if sections.pointers == 0 => {
            Some(ErrorKind::ExpectedAPointerListButGotAListOfDataOnlyStructs)
        }
        ElementSize::Pointer => None,
        _ if sections.data_words == 0 => {
            Some(ErrorKind::ExpectedAPrimitiveListButGotAListOfPointerOnlyStructs)
        }
        _ => None,
    }
}

// Whether the `count` bytes from word `start` of a segment on end in a zero byte.
fn ends_in_zero(bytes: &[u8], start: u32, count: u32) -> bool
    requires { 8 * (start + words_for 2 count) ≤ length bytes.now }
    ensures { (S : Segments) (s : ℕ) → words_of bytes.now ≡ segment S s
        → result ≡ bytes_end_in_zero S s start count }
{
    if count == 0 {
        return false;
    }
    let last = (count - 1) as usize;
    let word = word_at(bytes, start as usize + last / 8);
    word >> (8 * (last % 8)) & 0xff == 0
}

// The `count` bytes from a place on.
fn bytes_at<'a>(start: Place<'a>, count: u32) -> &'a [u8]
    requires { 8 * start.at + count ≤ length start.bytes.now }
    ensures { result.now ≡ take count (drop (8 * start.entry.at) start.entry.bytes.now) }
{
    let first = 8 * start.at as usize;
    &start.bytes[first..first + count as usize]
}

// Whether bytes are UTF-8. Each of them is below 256.
fn are_utf8(bytes: &[u8]) -> bool
    ensures value { result ≡ is_utf8 bytes.now }
    ensures small { (i : ℕ) → slice_index bytes.now i < 256 }
{
    str::from_utf8(bytes).is_ok()
}

// Whether the bytes of `words` words from word `start` of a segment on are all ASCII.
#[inline(always)]
fn are_ascii(bytes: &[u8], start: u32, words: u32) -> bool
    requires { 8 * (start + words) ≤ length bytes.now }
    ensures { OnTrue result ((k : ℕ) → k < words
        → IsAsciiWord (slice_index (words_of bytes.now) (start + k))) }
{
    for i in 0..words {
        let word = word_at(bytes, start as usize + i as usize);
        if word & HIGH_BITS != 0 {
            return false;
        }
    }
    true
}

// Whether the `count` bytes from a place on are UTF-8, without the last one. Tests each of them.
#[inline(never)]
fn is_utf8_by_bytes(start: Place, count: u32) -> bool
    requires { 8 * (start.at + words_for 2 count) ≤ length start.bytes.now }
    ensures { (S : Segments) → IsHeld S start.entry
        → result ≡ bytes_are_utf8 S start.entry.segment start.entry.at count }
{
    are_utf8(bytes_at(start, count.saturating_sub(1)))
}

// Whether the `count` bytes from a place on are UTF-8, without the last one.
#[inline(always)]
fn is_utf8_text(start: Place, count: u32) -> bool
    requires { 8 * (start.at + words_for 2 count) ≤ length start.bytes.now }
    ensures { (S : Segments) → IsHeld S start.entry
        → result ≡ bytes_are_utf8 S start.entry.segment start.entry.at count }
{
    let words = (u64::from(count) + 7) / 8;
    if are_ascii(start.bytes, start.at, words as u32) {
        return true;
    }
    is_utf8_by_bytes(start, count)
}

// The refusal for an object that isn't a text, if it isn't.
#[inline(always)]
fn text_error(object: Object) -> Option<ErrorKind>
    requires { IsAtHand object }
    ensures { (S : Segments) → IsObjectHeld S object.entry
        → result ≡ text_misfit S (object_shape object.entry) }
{
    match object {
        Object::Null => None,
        Object::Flat {
            start,
            size: ElementSize::Byte,
            count,
        } => {
            if ends_in_zero(start.bytes, start.at, count) {
                None
            } else {
                Some(ErrorKind::MessageContainsTextThatIsNotNULTerminated)
            }
        }
        Object::Flat { .. } | Object::Pointers { .. } | Object::Structs { .. } => {
            Some(ErrorKind::MessageContainsListPointerOfNonBytesWhereTextWasExpected)
        }
        _ => Some(ErrorKind::MessageContainsNonListPointerWhereTextWasExpected),
    }
}

// The refusal for a text that isn't UTF-8, if it isn't.
#[inline(always)]
fn utf8_error(object: Object) -> Option<ErrorKind>
    requires { IsAtHand object }
    ensures { (S : Segments) → IsObjectHeld S object.entry
        → result ≡ utf8_misfit S (object_shape object.entry) }
{
    match object {
        Object::Flat {
            start,
            size: ElementSize::Byte,
            count,
        } => {
            if is_utf8_text(start, count) {
                None
            } else {
                Some(NOT_UTF8)
            }
        }
        _ => None,
    }
}

// The refusal for an object that isn't data, if it isn't.
#[inline(always)]
fn data_error(object: Object) -> Option<ErrorKind>
    ensures { result ≡ data_misfit (object_shape object.entry) }
{
    match object {
        Object::Null
        | Object::Flat {
            size: ElementSize::Byte,
            ..
        } => None,
        Object::Flat { .. } | Object::Pointers { .. } | Object::Structs { .. } => {
            Some(ErrorKind::MessageContainsListPointerOfNonBytesWhereDataWasExpected)
        }
        _ => Some(ErrorKind::MessageContainsNonListPointerWhereDataWasExpected),
    }
}

// The refusal for an object that isn't a list with elements of at least this size, if it isn't.
#[inline(always)]
fn list_error(size: ElementSize, object: Object) -> Option<ErrorKind>
    requires { IsAtHand object }
    ensures { result ≡ list_misfit size (object_shape object.entry) }
{
    match object {
        Object::Null => None,
        Object::Flat { size: found, .. } => narrow_elements_error(size, found),
        Object::Pointers { .. } => narrow_elements_error(size, ElementSize::Pointer),
        Object::Structs { size: sections, .. } => narrow_structs_error(size, sections),
        _ => Some(ErrorKind::MessageContainsNonListPointerWhereListPointerWasExpected),
    }
}

// The refusal for an object that isn't what a pointer of this kind may lead to, if it isn't.
#[inline(always)]
fn misfit_error(kind: Kind, object: Object) -> Option<ErrorKind>
    requires { IsAtHand object }
    ensures { (S : Segments) → IsObjectHeld S object.entry
        → result ≡ kind_misfit kind S (object_shape object.entry) }
{
    match kind {
        Kind::Any => None,
        Kind::Text => text_error(object),
        Kind::Utf8 => match text_error(object) {
            Some(error) => Some(error),
            None => utf8_error(object),
        },
        Kind::Data => data_error(object),
        Kind::List(size, _) => list_error(size, object),
        Kind::Capability => match object {
            Object::Null | Object::Capability(_) => None,
            _ => {
                Some(
                    ErrorKind::MessageContainsNonCapabilityPointerWhereCapabilityPointerWasExpected,
                )
            }
        },
        Kind::Struct(_) => match object {
            Object::Null | Object::Struct { .. } => None,
            _ => { Some(ErrorKind::MessageContainsNonStructPointerWhereStructPointerWasExpected) }
        },
        Kind::AnyList => match object {
            Object::Capability(_) | Object::Struct { .. } => {
                Some(ErrorKind::MessageContainsNonListPointerWhereListPointerWasExpected)
            }
            _ => None,
        },
    }
}

// The elements of an object: a struct is one, and a pointer of a list is one without data.
#[derive(Clone, Copy)]
struct ObjectElements<'a> {
    // The first word of the first element.
    start: Place<'a>,
    // The number of words before the pointers of an element.
    data_words: u32,
    // The number of pointers of an element.
    pointers: u32,
    // The number of elements.
    count: u32,
}

// The elements of an object that may have pointers.
fn elements_of(object: Object) -> Option<ObjectElements>
    ensures { MatchOption result ((rows : ObjectElements) → AreElementsOf object.entry rows → ⊥)
        (AreElementsOf object.entry) }
{
    match object {
        Object::Null | Object::Capability(_) | Object::Flat { .. } => None,
        Object::Struct { start, size } => Some(ObjectElements {
            start,
            data_words: u32::from(size.data_words),
            pointers: u32::from(size.pointers),
            count: 1,
        }),
        Object::Pointers { start, count } => Some(ObjectElements {
            start,
            data_words: 0,
            pointers: 1,
            count,
        }),
        Object::Structs { start, size, count } => Some(ObjectElements {
            start,
            data_words: u32::from(size.data_words),
            pointers: u32::from(size.pointers),
            count,
        }),
    }
}

// A pointer as the schema has it: what it may lead to, its row, and its index there.
#[derive(Clone, Copy)]
struct SchemaPointer {
    kind: Kind,
    row: u32,
    index: u32,
}

// A walk: the limiter that it charges, and why it stopped. The refusal is here so that calls return
// a `Result` with `Stopped`, which fits a register.
#[derive(Drop)]
struct SchemaWalk {
    // Why the walk stopped. Before that, it has no meaning.
    misfit: Misfit,
    // The limiter, moved here during the walk.
    lim: ReadLimiter,
}

// The walk has stopped, with its `misfit`.
#[derive(Clone, Copy)]
struct Stopped;

impl SchemaWalk {
    // Begins a walk, and moves the limiter from `lim` into it.
    fn begin(lim: &mut ReadLimiter) -> Self
        ensures { result.lim ≡ lim.old }
    {
        SchemaWalk {
            misfit: Misfit {
                error: ErrorKind::ReadLimitExceeded,
                segment: 0,
                word: 0,
                row: 0,
                index: 0,
            },
            lim: mem::replace(lim, ReadLimiter::new(None)),
        }
    }
}

// The refusal of the pointer at `at`.
#[inline(always)]
fn misfit_of<A: ReaderArena>(
    pointer: SchemaPointer,
    from: &Pointer<'_, A>,
    at: u32,
    error: ErrorKind,
) -> Misfit
    ensures { result
        ≡ misfit_at pointer (reading_on A.ReaderArena from.now at from.now.nesting_limit) error }
{
    Misfit {
        error,
        segment: from.place.segment,
        word: at,
        row: pointer.row,
        index: pointer.index,
    }
}

// Tests the list of bits or numbers that the word at `at` describes, whose elements have this size.
#[inline(always)]
fn check_primitive_list<A: ReaderArena>(
    pointer: SchemaPointer,
    from: &Pointer<'_, A>,
    at: u32,
    word: WirePointer,
    size: ElementSize,
    walk: &mut SchemaWalk,
) -> Result<(), Stopped>
    requires word { IsWordAt word.0
        (reading_on A.ReaderArena from.now at from.now.nesting_limit) }
    requires is_list { kind word.0 ≡ 1 }
    requires of_bits { (0 < element_size word.0) × (element_size word.0 ≤ 5) }
    requires of_size { size_number size ≡ element_size word.0 }
    ensures { (T : List ℕ) → Performs (check_place T pointer
        (reading_on A.ReaderArena from.now at from.now.nesting_limit))
        walk.old walk.new result }
{
    let place = PointerWord {
        place: Place { at, ..from.place },
        word,
        nesting_limit: from.nesting_limit,
    };
    let count = word.list_element_count();
    let words = words_for_elements(size, count);
    let first = match from
        .source
        .read_near_primitive_list(place, words, &mut walk.lim)
    {
        Ok(first) => first,
        Err(error) => {
            walk.misfit = misfit_of(pointer, from, at, error);
            return Err(Stopped);
        }
    };
    let start = Place {
        at: first,
        ..from.place
    };
    match misfit_error(pointer.kind, Object::Flat { start, size, count }) {
        Some(error) => {
            walk.misfit = misfit_of(pointer, from, at, error);
            Err(Stopped)
        }
        None => Ok(()),
    }
}

// Tests the list of bits or numbers that the word at `at` describes, for pointer `index` of the row
// at `row`, whose kind word in the table is `wanted`. Texts are told apart first: most lists are
// texts, and of a constant kind and size little is left to test.
#[inline(always)]
fn check_wanted_list<A: ReaderArena>(
    wanted: u32,
    row: u32,
    index: u32,
    from: &Pointer<'_, A>,
    at: u32,
    word: WirePointer,
    walk: &mut SchemaWalk,
) -> Result<(), Stopped>
    requires word { IsWordAt word.0
        (reading_on A.ReaderArena from.now at from.now.nesting_limit) }
    requires is_list { kind word.0 ≡ 1 }
    requires of_bits { (0 < element_size word.0) × (element_size word.0 ≤ 5) }
    ensures { (T : List ℕ) → Performs (check_place T (worded_pointer wanted row index)
        (reading_on A.ReaderArena from.now at from.now.nesting_limit))
        walk.old walk.new result }
{
    match word.list_element_size() {
        ElementSize::Byte if wanted == TEXT => {
            let text = SchemaPointer {
                kind: Kind::Text,
                row,
                index,
            };
            check_primitive_list(text, from, at, word, ElementSize::Byte, walk)
        }
        ElementSize::Byte if wanted == UTF8 => {
            let text = SchemaPointer {
                kind: Kind::Utf8,
                row,
                index,
            };
            check_primitive_list(text, from, at, word, ElementSize::Byte, walk)
        }
        size => {
            let list = SchemaPointer {
                kind: word_kind(wanted),
                row,
                index,
            };
            check_primitive_list(list, from, at, word, size, walk)
        }
    }
}

// Tests what pointer `index` of the element at `at` leads to. A list of bits or numbers in the same
// segment, such as a text, is tested in place.
#[cycle(conforming)]
#[inline(always)]
fn check_pointer<A: ReaderArena>(
    row: TableRow<'_>,
    from: &Pointer<'_, A>,
    at: u32,
    data_words: u32,
    index: u32,
    walk: &mut SchemaWalk,
) -> Result<(), Stopped>
    requires inside { at + data_words + index
        < length (segment_read (reading A.ReaderArena from.now)) }
    ensures { let r = reading_on A.ReaderArena from.now at from.now.nesting_limit in
        Performs (check_within row.entry.table.now r.levels
        (schema_pointer row.entry.table.now row.entry.row (words_from r data_words) index)
        (place_past (place_past r data_words) index)) walk.old walk.new result }
{
    let position = at + data_words + index;
    let word = Place {
        at: position,
        ..from.place
    }
    .word();
    if word.is_null() {
        return Ok(());
    }
    let element = Place { at, ..from.place };
    let wanted = wanted_word(row, element, data_words, index);
    match word.kind() {
        WirePointerKind::List if is_primitive_list(word) => {
            check_wanted_list(wanted, row.row, index, from, position, word, walk)
        }
        _ => {
            let pointer = SchemaPointer {
                kind: word_kind(wanted),
                row: row.row,
                index,
            };
            check_object(row.table, pointer, from, position, walk)
        }
    }
}

// Tests what the pointer at `at` leads to, near or far, and of any kind. Apart from the loop over
// pointers, so that most pointers need no call.
#[cycle(conforming)]
#[inline(never)]
fn check_object<A: ReaderArena>(
    table: &[u32],
    pointer: SchemaPointer,
    from: &Pointer<'_, A>,
    at: u32,
    walk: &mut SchemaWalk,
) -> Result<(), Stopped>
    ensures { Performs (check_place table.now pointer
        (reading_on A.ReaderArena from.now at from.now.nesting_limit))
        walk.old walk.new result }
{
    let place = Place { at, ..from.place };
    let object = match from
        .source
        .read_object(place, from.nesting_limit, &mut walk.lim)
    {
        Ok(object) => object,
        Err(error) => {
            walk.misfit = misfit_of(pointer, from, at, error);
            return Err(Stopped);
        }
    };
    match misfit_error(pointer.kind, object) {
        Some(error) => {
            walk.misfit = misfit_of(pointer, from, at, error);
            return Err(Stopped);
        }
        None => {}
    }
    let Some(elements) = elements_of(object) else {
        return Ok(());
    };
    let first = Pointer {
        source: from.source,
        place: elements.start,
        nesting_limit: one_level_less(from.nesting_limit),
    };
    let below = row_below(table, pointer.kind);
    check_elements(
        below,
        &first,
        elements.data_words,
        elements.pointers,
        elements.count,
        walk,
    )
}

// Tests the pointers of `count` elements, of `data_words` and `pointers` words, from `from` on.
#[cycle(conforming)]
fn check_elements<A: ReaderArena>(
    row: TableRow<'_>,
    from: &Pointer<'_, A>,
    data_words: u32,
    pointers: u32,
    count: u32,
    walk: &mut SchemaWalk,
) -> Result<(), Stopped>
    requires inside { from.now.place.at + count * (data_words + pointers)
        ≤ length (segment_read (reading A.ReaderArena from.now)) }
    ensures { let r = reading A.ReaderArena from.now in
        Performs (check_elements (check_within row.entry.table.now r.levels)
        (schema_pointer row.entry.table.now row.entry.row) data_words pointers count r)
        walk.old walk.new result }
{
    if pointers == 0 {
        return Ok(());
    }
    let width = u64::from(data_words) + u64::from(pointers);
    for i in 0..count {
        let at = u64::from(from.place.at) + u64::from(i) * width;
        match check_pointers(row, from, at as u32, data_words, pointers, walk) {
            Ok(()) => {}
            Err(stopped) => return Err(stopped),
        }
    }
    Ok(())
}

// Tests the pointers of the element at `at`.
#[cycle(conforming)]
fn check_pointers<A: ReaderArena>(
    row: TableRow<'_>,
    from: &Pointer<'_, A>,
    at: u32,
    data_words: u32,
    pointers: u32,
    walk: &mut SchemaWalk,
) -> Result<(), Stopped>
    requires inside { at + (data_words + pointers)
        ≤ length (segment_read (reading A.ReaderArena from.now)) }
    ensures { let r = reading_on A.ReaderArena from.now at from.now.nesting_limit in
        Performs (check_pointers (check_within row.entry.table.now r.levels)
        (schema_pointer row.entry.table.now row.entry.row (words_from r data_words)) 0 pointers
        (place_past r data_words)) walk.old walk.new result }
{
    for i in 0..pointers {
        match check_pointer(row, from, at, data_words, i, walk) {
            Ok(()) => {}
            Err(stopped) => return Err(stopped),
        }
    }
    Ok(())
}

/// Tests whether a whole value can be read within both limits, and conforms to a schema, which is a
/// table (module `schema`). `kind` says what `pointer` itself may lead to;
/// `Kind::Struct(row)` for the root of a message. Reads each object once and allocates nothing.
///
/// Counts and charges what `Pointer::validate` does: what reading the value once costs. A pointer
/// that the schema doesn't have, or whose members aren't set, has to be readable too, but may lead
/// to anything.
///
/// Refuses with the first fault found, in the order of the walk: like `Pointer::validate` if an
/// object can't be read; like the getter for the kind if an object is readable but isn't what the
/// kind allows, such as `MessageContainsTextThatIsNotNULTerminated`; with `NOT_UTF8` if a text isn't
/// UTF-8. Names the pointer at fault. What was charged before stays charged.
pub fn conforms<A: ReaderArena>(
    table: &[u32],
    kind: Kind,
    pointer: &Pointer<'_, A>,
    lim: &mut ReadLimiter,
) -> Result<(), Misfit>
    ensures exactly { let r = reading A.ReaderArena pointer.now in
        IsOk result ↔ ((t : Tree) × (c : ℕ) × Conforms table.now kind t × MeansThere r t c
        × Affords r.charging lim.old c) }
    ensures spent { let r = reading A.ReaderArena pointer.now in (t : Tree) (c : ℕ)
        → MeansThere r t c → OnOk result (Paid r.charging lim.old lim.new c (pointers_in t)) }
    ensures walk { check_place table.now (rowless_pointer kind) (reading A.ReaderArena pointer.now)
        lim.old ≡ (result, lim.new) }
    ensures refused { IfErr result (IsTrueFrom
        (first_visit table.now kind (reading A.ReaderArena pointer.now)) lim.new) }
{
    let first = SchemaPointer {
        kind,
        row: 0,
        index: 0,
    };
    let mut walk = SchemaWalk::begin(lim);
    match check_object(table, first, pointer, pointer.place.at, &mut walk) {
        Ok(()) => {
            *lim = walk.lim;
            Ok(())
        }
        Err(Stopped) => {
            *lim = walk.lim;
            Err(walk.misfit)
        }
    }
}
