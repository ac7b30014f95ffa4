//! Readers for C: structs, lists, texts and data of a message, read in place. C lends the segments.
//! Keeps no state between calls.
//!
//! A pointer is named by its segment and word, a nesting limit, and the words that are left of the
//! traversal limit; `u64::MAX` stands for no limit, and stays. The place may be any: a pointer that
//! isn't in the message is null. A function returns 0 if it succeeded, otherwise the number of a refusal.
#![tactic(auto)]

ghost use Rattle.std.specs.Prelude.{◌≡◌, ◌≢◌, ◌≤◌, ◌+◌, ◌-◌, ◌↔◌, ◌^◌, ◌<◌, [], ℕ, length, min, pos, false, Some, IsTrue};
ghost use Rattle.capnp_words.specs.Meter.{Meter, unused};
ghost use Rattle.capnp_words.specs.Sizes.{size_number, pointers_per_element};
ghost use Rattle.capnp_words.specs.declared.error.ErrorKind.TheVariants.{MessageContainsNonCapabilityPointerWhereCapabilityPointerWasExpected, MessageContainsNullCapabilityPointer};
ghost use Rattle.capnp_words.specs.declared.wire_pointer.ElementSize.{ElementSize};
ghost use Rattle.capnp_words.specs.declared.wire_pointer.PointerType.{PointerType};
ghost use Rattle.capnp_format.specs.Segments.{word_at};
ghost use Rattle.capnp_format.specs.Tree.{Tree, Null};
ghost use Rattle.capnp_format.specs.Word.{lower_half, upper_half};
ghost use Rattle.capnp_arena_traits.specs.Limits.{AreSmall};
ghost use Rattle.capnp_arena_traits.specs.Checks.{Holds};
ghost use Rattle.capnp_pointers.specs.Outcomes.{MeansThere};
ghost use Rattle.capnp_pointers.specs.Types.{IsOfType};
ghost use Rattle.capnp_numbers.specs.Numbers.{error_number};
ghost use Rattle.capnp_pointers.specs.Expected.{struct_expected, list_expected, text_expected, data_expected, HasExpected};
ghost use Rattle.capnp_readers.specs.Values.{FitsSize, IsStructOrNull, IsText, IsBytes, text_bytes, list_numbers};
ghost use Rattle.capnp_readers.specs.Sections.{data_bits};
ghost use Rattle.capnp_layout_c.specs.Lent.{Leaves, lent, lent_pointer, root_left};
ghost use Rattle.capnp_layout_c.specs.Found.{IsFoundStruct, IsFoundList, IsFoundType, HasElementsInside, HasPointersInside, RefusesNumber, RefusesRootNumber, RefusesType, type_number};
ghost use Rattle.capnp_layout_c.specs.Opened.{IsOpened, RefusesOpening};

mod building;
mod checking;
mod found;
mod frames;
mod laws;
mod limits;
mod segments;
mod validation;

use capnp_numbers::{NO_ROOM, layout_number};
use capnp_readers::readers::{ListReader, PointerReader, StructReader};
use capnp_words::read_limiter::ReadLimiter;
use capnp_words::wire_pointer::{ElementSize, PointerType};
use found::{FoundBytes, FoundList, FoundStruct, no_list, no_struct};
use frames::{cut, whole_frame};
use limits::store_left;
use segments::Segments;

// What C sees of a struct reader.
#[inline(always)]
fn found_struct<'a>(r: StructReader<'a, Segments<'_>>) -> FoundStruct<'a>
    ensures data { result.data.now ≡ r.entry.content.now }
    ensures segment { result.segment ≡ r.entry.pointers.segment }
    ensures at { result.pointers_at ≡ r.entry.pointers.at }
    ensures pointers { result.pointers ≡ r.entry.pointer_count }
    ensures nesting { result.nesting ≡ r.entry.nesting_limit }
{
    FoundStruct {
        data: r.content,
        segment: r.pointers.segment,
        pointers_at: r.pointers.at,
        nesting: r.nesting_limit,
        pointers: r.pointer_count,
    }
}

/// Takes the segments of a message. Answers `false`, and leaves `to` unchanged, if there are 2^32
/// segments or more, or if a segment has 2^32 words or more.
#[unsafe(no_mangle)]
pub extern "C" fn capnp_layout_open<'a>(list: &'a [&'a [u8]], to: &mut Segments<'a>) -> bool
    ensures exactly { IsTrue result ↔ AreSmall list.now }
    ensures opened { IsTrue result → to.new.list.now ≡ list.now }
    ensures kept { result ≡ false → to.new ≡ to.old }
{
    match Segments::new(list) {
        Some(segments) => {
            *to = segments;
            true
        }
        None => false,
    }
}

/// Finds the segments of the frame at the front of `frame`, and writes them to the front of `room`.
/// Stores the number of segments in `count`, and the size of the frame in bytes in `bytes`. Refuses a
/// frame of more than `words` words, or of more segments than `room` has entries; the entries of
/// `room` are then unchanged. If only the room is missing, `count` and `bytes` are those of the
/// frame; after any other refusal both are 0.
#[unsafe(no_mangle)]
pub extern "C" fn capnp_layout_open_frame<'m>(
    frame: &'m [u8],
    words: u64,
    room: &mut [&'m [u8]],
    count: &mut u32,
    bytes: &mut u64,
) -> u32
    ensures opened { result ≡ 0
        → IsOpened frame.now words count.new bytes.new room.old room.new }
    ensures refused { result ≢ 0
        → RefusesOpening frame.now words (length room.old) count.new bytes.new result }
    ensures kept { result ≢ 0 → room.new ≡ room.old }
{
    match whole_frame(frame, words) {
        Ok((found, size)) => {
            *count = found;
            *bytes = size;
            if room.len() < found as usize {
                return NO_ROOM;
            }
            cut(frame, found, room);
            0
        }
        Err(number) => {
            *count = 0;
            *bytes = 0;
            number
        }
    }
}

/// Reads the struct that the pointer leads to; one without data and pointers if it is null.
#[unsafe(no_mangle)]
pub extern "C" fn capnp_layout_struct<'m>(
    segments: &'m Segments<'m>,
    left: &mut u64,
    segment: u64,
    word: u32,
    nesting: i32,
    to: &mut FoundStruct<'m>,
) -> u32
    ensures exactly { (result ≡ 0) ↔ HasExpected struct_expected
        (lent_pointer segments.now.list.now segment word nesting) (unused (Some left.old)) }
    ensures value { (t : Tree) (c : ℕ)
        → MeansThere (lent_pointer segments.now.list.now segment word nesting) t c
        → result ≡ 0
        → (k : ℕ) × IsFoundStruct (lent segments.now.list.now) to.new t k
        × Leaves left.old left.new (c - k) }
    ensures refused { result ≢ 0 → RefusesNumber struct_expected
        (lent_pointer segments.now.list.now segment word nesting) left.old left.new result }
    ensures answered { (t : Tree) (c : ℕ) → IsStructOrNull t
        → MeansThere (lent_pointer segments.now.list.now segment word nesting) t c
        → c ≤ left.old → result ≡ 0 }
    ensures inside { result ≡ 0 → HasPointersInside (lent segments.now.list.now) to.new }
    ensures none { result ≢ 0 → (to.new.data.now ≡ []) × (to.new.pointers ≡ 0) }
{
    let mut lim = ReadLimiter::new(Some(*left as usize));
    let pointer = segments.pointer(segment, word, nesting);
    let found = pointer.get_struct(&mut lim, None);
    match found {
        Ok(r) => {
            store_left(&lim, left);
            *to = found_struct(r);
            0
        }
        Err(kind) => {
            store_left(&lim, left);
            *to = no_struct();
            layout_number(kind)
        }
    }
}

/// Reads the root of a message, a struct. Charges one word for the root pointer, then reads like
/// `capnp_layout_struct`.
#[unsafe(no_mangle)]
pub extern "C" fn capnp_layout_root<'m>(
    segments: &'m Segments<'m>,
    left: &mut u64,
    nesting: i32,
    to: &mut FoundStruct<'m>,
) -> u32
    ensures exactly { (result ≡ 0) ↔ Holds (lent segments.now.list.now) 0 0 1 × (1 ≤ left.old)
        × HasExpected struct_expected (lent_pointer segments.now.list.now 0 0 nesting)
        (unused (Some (root_left left.old))) }
    ensures value { (t : Tree) (c : ℕ)
        → MeansThere (lent_pointer segments.now.list.now 0 0 nesting) t c
        → result ≡ 0
        → (k : ℕ) × IsFoundStruct (lent segments.now.list.now) to.new t k
        × Leaves left.old left.new (1 + (c - k)) }
    ensures refused { result ≢ 0
        → RefusesRootNumber segments.now.list.now nesting left.old left.new result }
    ensures answered { (t : Tree) (c : ℕ) → Holds (lent segments.now.list.now) 0 0 1
        → IsStructOrNull t → MeansThere (lent_pointer segments.now.list.now 0 0 nesting) t c
        → 1 + c ≤ left.old → result ≡ 0 }
    ensures inside { result ≡ 0 → HasPointersInside (lent segments.now.list.now) to.new }
    ensures none { result ≢ 0 → (to.new.data.now ≡ []) × (to.new.pointers ≡ 0) }
{
    let mut lim = ReadLimiter::new(Some(*left as usize));
    match PointerReader::get_root_from_arena(segments, &mut lim) {
        Ok(_) => {
            store_left(&lim, left);
            capnp_layout_struct(segments, left, 0, 0, nesting, to)
        }
        Err(kind) => {
            *to = no_struct();
            layout_number(kind)
        }
    }
}

// What C sees of a list reader.
#[inline(always)]
fn found_list<'a>(r: ListReader<'a, Segments<'_>>) -> FoundList<'a>
    ensures data { result.data.now ≡ r.entry.content.now }
    ensures segment { result.segment ≡ r.entry.start.segment }
    ensures at { result.at ≡ r.entry.start.at }
    ensures count { result.count ≡ r.entry.count }
    ensures data_bits { result.data_bits ≡ data_bits r.entry.element_size r.entry.struct_size }
    ensures pointers { result.pointers
        ≡ pointers_per_element r.entry.element_size + r.entry.struct_size.pointers }
    ensures nesting { result.nesting ≡ r.entry.nesting_limit }
{
    let pointers = match r.element_size {
        ElementSize::Pointer => 1,
        _ => r.struct_size.pointers,
    };
    FoundList {
        data: r.content,
        segment: r.start.segment,
        at: r.start.at,
        count: r.count,
        data_bits: r.element_data_bits(),
        nesting: r.nesting_limit,
        pointers,
    }
}

// The element size of a number; a number above 7 counts as 7, the one of structs.
#[inline(always)]
fn size_of(number: u32) -> ElementSize
    ensures { (size : ElementSize) → size_number size ≡ min number 7 → result ≡ size }
{
    match number {
        0 => ElementSize::Void,
        1 => ElementSize::Bit,
        2 => ElementSize::Byte,
        3 => ElementSize::TwoBytes,
        4 => ElementSize::FourBytes,
        5 => ElementSize::EightBytes,
        6 => ElementSize::Pointer,
        _ => ElementSize::InlineComposite,
    }
}

/// Reads the list that the pointer leads to; one without elements if it is null. `expected` is the
/// format's number of an element size ("Lists"), and a number above 7 counts as 7. The elements have
/// at least the data of that size, and a pointer if it is 6.
#[unsafe(no_mangle)]
pub extern "C" fn capnp_layout_list<'m>(
    segments: &'m Segments<'m>,
    left: &mut u64,
    segment: u64,
    word: u32,
    nesting: i32,
    expected: u32,
    to: &mut FoundList<'m>,
) -> u32
    ensures exactly { (size : ElementSize) → size_number size ≡ min expected 7
        → ((result ≡ 0) ↔ HasExpected (list_expected size)
        (lent_pointer segments.now.list.now segment word nesting) (unused (Some left.old))) }
    ensures value { (t : Tree) (c : ℕ)
        → MeansThere (lent_pointer segments.now.list.now segment word nesting) t c
        → result ≡ 0
        → (k : ℕ) × IsFoundList (lent segments.now.list.now) to.new t k
        × Leaves left.old left.new (c - k) }
    ensures refused { (size : ElementSize) → size_number size ≡ min expected 7
        → result ≢ 0 → RefusesNumber (list_expected size)
        (lent_pointer segments.now.list.now segment word nesting) left.old left.new result }
    ensures answered { (size : ElementSize) (t : Tree) (c : ℕ) → size_number size ≡ min expected 7
        → FitsSize size t
        → MeansThere (lent_pointer segments.now.list.now segment word nesting) t c
        → c ≤ left.old → result ≡ 0 }
    ensures inside { result ≡ 0 → HasElementsInside (lent segments.now.list.now) to.new }
    ensures none { result ≢ 0 → (to.new.data.now ≡ []) × (to.new.count ≡ 0) }
{
    let mut lim = ReadLimiter::new(Some(*left as usize));
    let pointer = segments.pointer(segment, word, nesting);
    let found = pointer.get_list(&mut lim, size_of(expected), None);
    match found {
        Ok(r) => {
            store_left(&lim, left);
            *to = found_list(r);
            0
        }
        Err(kind) => {
            store_left(&lim, left);
            *to = no_list();
            layout_number(kind)
        }
    }
}

/// Reads the text that the pointer leads to, without the zero byte after its end; no bytes if the
/// pointer is null.
#[unsafe(no_mangle)]
pub extern "C" fn capnp_layout_text<'m>(
    segments: &'m Segments<'m>,
    left: &mut u64,
    segment: u64,
    word: u32,
    nesting: i32,
    to: &mut FoundBytes<'m>,
) -> u32
    ensures exactly { (result ≡ 0) ↔ HasExpected text_expected
        (lent_pointer segments.now.list.now segment word nesting) (unused (Some left.old)) }
    ensures value { (t : Tree) (c : ℕ)
        → MeansThere (lent_pointer segments.now.list.now segment word nesting) t c
        → result ≡ 0 → (to.new.bytes.now ≡ text_bytes t) × Leaves left.old left.new c }
    ensures refused { result ≢ 0 → RefusesNumber text_expected
        (lent_pointer segments.now.list.now segment word nesting) left.old left.new result }
    ensures answered { (t : Tree) (c : ℕ) → IsText t
        → MeansThere (lent_pointer segments.now.list.now segment word nesting) t c
        → c ≤ left.old → result ≡ 0 }
    ensures none { result ≢ 0 → to.new.bytes.now ≡ [] }
{
    let mut lim = ReadLimiter::new(Some(*left as usize));
    let pointer = segments.pointer(segment, word, nesting);
    let found = pointer.get_text(&mut lim, None);
    match found {
        Ok(bytes) => {
            store_left(&lim, left);
            *to = FoundBytes { bytes };
            0
        }
        Err(kind) => {
            store_left(&lim, left);
            *to = FoundBytes { bytes: &[] };
            layout_number(kind)
        }
    }
}

/// Reads the data that the pointer leads to; no bytes if the pointer is null.
#[unsafe(no_mangle)]
pub extern "C" fn capnp_layout_data<'m>(
    segments: &'m Segments<'m>,
    left: &mut u64,
    segment: u64,
    word: u32,
    nesting: i32,
    to: &mut FoundBytes<'m>,
) -> u32
    ensures exactly { (result ≡ 0) ↔ HasExpected data_expected
        (lent_pointer segments.now.list.now segment word nesting) (unused (Some left.old)) }
    ensures value { (t : Tree) (c : ℕ)
        → MeansThere (lent_pointer segments.now.list.now segment word nesting) t c
        → result ≡ 0 → (to.new.bytes.now ≡ list_numbers t) × Leaves left.old left.new c }
    ensures refused { result ≢ 0 → RefusesNumber data_expected
        (lent_pointer segments.now.list.now segment word nesting) left.old left.new result }
    ensures answered { (t : Tree) (c : ℕ) → IsBytes t
        → MeansThere (lent_pointer segments.now.list.now segment word nesting) t c
        → c ≤ left.old → result ≡ 0 }
    ensures none { result ≢ 0 → to.new.bytes.now ≡ [] }
{
    let mut lim = ReadLimiter::new(Some(*left as usize));
    let pointer = segments.pointer(segment, word, nesting);
    let found = pointer.get_data(&mut lim, None);
    match found {
        Ok(bytes) => {
            store_left(&lim, left);
            *to = FoundBytes { bytes };
            0
        }
        Err(kind) => {
            store_left(&lim, left);
            *to = FoundBytes { bytes: &[] };
            layout_number(kind)
        }
    }
}

/// Stores in `index` the index of the pointer's capability in the message's capability table; 0 if
/// the pointer isn't a capability. Charges nothing.
#[unsafe(no_mangle)]
pub extern "C" fn capnp_layout_capability(
    segments: &Segments<'_>,
    segment: u64,
    word: u32,
    index: &mut u32,
) -> u32
    ensures exactly { (result ≡ 0)
        ↔ (lower_half (word_at (lent segments.now.list.now) segment word) ≡ 3) }
    ensures index { result ≡ 0
        → index.new ≡ upper_half (word_at (lent segments.now.list.now) segment word) }
    ensures null { result ≢ 0 → word_at (lent segments.now.list.now) segment word ≡ 0
        → result ≡ error_number MessageContainsNullCapabilityPointer }
    ensures another { result ≢ 0 → word_at (lent segments.now.list.now) segment word ≢ 0
        → result ≡ error_number
        MessageContainsNonCapabilityPointerWhereCapabilityPointerWasExpected }
    ensures none { result ≢ 0 → index.new ≡ 0 }
{
    match segments.pointer(segment, word, 0).get_capability() {
        Ok(found) => {
            *index = found;
            0
        }
        Err(kind) => {
            *index = 0;
            layout_number(kind)
        }
    }
}

// The number of what a pointer leads to.
#[inline(always)]
fn kind_of(found: PointerType) -> u32
    ensures { result ≡ type_number found }
{
    match found {
        PointerType::Null => 0,
        PointerType::Struct => 1,
        PointerType::List => 2,
        PointerType::Capability => 3,
    }
}

/// Stores in `kind` what the pointer leads to: 0 for nothing, 1 for a struct, 2 for a list, 3 for a
/// capability. Charges the landing pads of a far pointer, and neither checks nor charges the object.
#[unsafe(no_mangle)]
pub extern "C" fn capnp_layout_type(
    segments: &Segments<'_>,
    left: &mut u64,
    segment: u64,
    word: u32,
    kind: &mut u32,
) -> u32
    ensures exactly { (result ≡ 0) ↔ (t : PointerType) × (m : Meter)
        × IsOfType (lent_pointer segments.now.list.now segment word (pos 0))
        (unused (Some left.old)) m t }
    ensures found { result ≡ 0 → IsFoundType
        (lent_pointer segments.now.list.now segment word (pos 0)) left.old left.new kind.new }
    ensures refused { result ≢ 0 → RefusesType
        (lent_pointer segments.now.list.now segment word (pos 0)) left.old left.new result }
    ensures none { result ≢ 0 → kind.new ≡ 0 }
{
    let mut lim = ReadLimiter::new(Some(*left as usize));
    let pointer = segments.pointer(segment, word, 0);
    let found = pointer.get_pointer_type(&mut lim);
    store_left(&lim, left);
    match found {
        Ok(it) => {
            *kind = kind_of(it);
            0
        }
        Err(error) => {
            *kind = 0;
            layout_number(error)
        }
    }
}
