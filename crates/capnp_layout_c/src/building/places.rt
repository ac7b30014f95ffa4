//! Places as C has them.
ghost use Rattle.std.specs.Prelude.{◌≡◌, ◌<◌, ◌≤◌, ◌+◌, ◌*◌, ◌/◌, ◌^◌, ◌↔◌, ℕ, length, min, slice_index, IsTrue};
ghost use Rattle.capnp_arena_traits.specs.Allocations.{max_segment_words};
ghost use Rattle.capnp_format.specs.Bytes.{words_of};
ghost use Rattle.capnp_words.specs.Sizes.{size_number};
ghost use Rattle.capnp_in_place.specs.Existing.{size_of};
ghost use Rattle.capnp_layout_c.specs.Buffers.{IsMessage, IsPointerIn, IsStructIn, IsWordIn, placed_list, placed_struct};
ghost use Rattle.capnp_layout_c.specs.Lists.{elements_of_found};

use capnp_in_place::existing::ExistingList;
use capnp_readers::readers::{ListPlace, StructPlace};
use capnp_words::wire_pointer::{ElementSize, StructSize};
use capnp_words::words;

/// Where a struct is: the word at which its data starts, and the sizes of its two sections. Its
/// pointers come right after its data.
#[repr(C)]
#[derive(Clone, Copy)]
pub struct StructAt {
    /// The word at which the data section starts.
    pub at: u32,
    /// The number of words of the data section.
    pub data_words: u16,
    /// The number of pointers.
    pub pointers: u16,
}

/// Where a list is whose elements aren't structs: the word at which its elements start, and their
/// number.
#[repr(C)]
#[derive(Clone, Copy)]
pub struct ListAt {
    /// The word at which the elements start.
    pub at: u32,
    /// The number of elements.
    pub count: u32,
}

/// The list that a call opened: where its elements start, their number, and what each of them is.
/// All numbers are 0 if the pointer is null, and after a refusal.
#[repr(C)]
#[derive(Clone, Copy)]
pub struct ElementsAt {
    /// The word at which the elements start.
    pub at: u32,
    /// The number of words of the data section of each element, if the elements are structs.
    pub data_words: u16,
    /// The number of pointers of each element, if the elements are structs.
    pub pointers: u16,
    /// The number of elements.
    pub count: u32,
    /// The number of the element size: 7 for structs.
    pub size: u32,
}

/// No list.
pub(crate) const NO_ELEMENTS: ElementsAt = ElementsAt {
    at: 0,
    data_words: 0,
    pointers: 0,
    count: 0,
    size: 0,
};

/// The root pointer of a message, in the form of a struct without data.
pub(crate) const ROOT: StructAt = StructAt {
    at: 0,
    data_words: 0,
    pointers: 1,
};

/// The element size with a number from 0 to 6.
pub(crate) fn element_size(number: u32) -> ElementSize
    requires { number ≤ 6 }
    ensures number { size_number result ≡ number }
    ensures is { result ≡ size_of number }
{
    match number {
        0 => ElementSize::Void,
        1 => ElementSize::Bit,
        2 => ElementSize::Byte,
        3 => ElementSize::TwoBytes,
        4 => ElementSize::FourBytes,
        5 => ElementSize::EightBytes,
        _ => ElementSize::Pointer,
    }
}

/// The list that was found, in the form that C has.
pub(crate) fn elements_of(found: Option<ExistingList>) -> ElementsAt
    ensures { result ≡ elements_of_found found }
{
    match found {
        Some(list) => ElementsAt {
            at: list.start,
            data_words: list.struct_size.data_words,
            pointers: list.struct_size.pointers,
            count: list.count,
            size: number_of_size(list.size),
        },
        None => NO_ELEMENTS,
    }
}

/// The number of an element size, from 0 to 7.
fn number_of_size(size: ElementSize) -> u32
    ensures { result ≡ size_number size }
{
    match size {
        ElementSize::Void => 0,
        ElementSize::Bit => 1,
        ElementSize::Byte => 2,
        ElementSize::TwoBytes => 3,
        ElementSize::FourBytes => 4,
        ElementSize::EightBytes => 5,
        ElementSize::Pointer => 6,
        ElementSize::InlineComposite => 7,
    }
}

/// The word that starts at a byte of a message.
pub(crate) fn word_of(byte: u64) -> u32
    requires { byte ≤ 8 * 2 ^ 29 }
    ensures { result ≡ byte / 8 }
{
    (byte / 8) as u32
}

/// Whether the first `used` words of `bytes` can be a message, and have the struct.
pub(crate) fn has_struct(bytes: &[u8], used: u32, place: StructAt) -> bool
    ensures { IsTrue result ↔ IsStructIn bytes.now used place }
{
    let words = (bytes.len() / 8).min(0x1fff_ffff);
    used as usize <= words
        && place.at as usize + place.data_words as usize + place.pointers as usize <= used as usize
}

/// Whether the first `used` words of `bytes` can be a message, and have pointer `index` of the
/// struct.
pub(crate) fn has_pointer(bytes: &[u8], used: u32, place: StructAt, index: u16) -> bool
    ensures { IsTrue result ↔ IsPointerIn bytes.now used place index }
{
    has_struct(bytes, used, place) && index < place.pointers
}

/// Whether the first `used` words of `bytes` can be a message, and have word `at`.
pub(crate) fn has_word(bytes: &[u8], used: u32, at: u64) -> bool
    ensures { IsTrue result ↔ IsWordIn bytes.now used at }
{
    let words = (bytes.len() / 8).min(0x1fff_ffff);
    used as usize <= words && at < u64::from(used)
}

/// Whether the first `used` words of `bytes` can be a message, and word `at` of it is zero, as a null
/// pointer is.
#[inline(always)]
pub(crate) fn has_null(bytes: &[u8], used: u32, at: u64) -> bool
    ensures { IsTrue result
        ↔ (IsWordIn bytes.now used at × (slice_index (words_of bytes.now) at ≡ 0)) }
{
    has_word(bytes, used, at) && words::word_at(bytes, at as u32 as usize) == 0
}

/// Whether word `at` of the first `used` words of `bytes` is zero, and `words` more words have room
/// after them. Precondition: the first `used` words can be a message, and have word `at`.
#[inline(always)]
pub(crate) fn has_null_and_room(bytes: &[u8], used: u32, at: u32, words: u64) -> bool
    requires { IsWordIn bytes.now used at }
    ensures { IsTrue result
        ↔ ((slice_index (words_of bytes.now) at ≡ 0)
        × (used + words ≤ min (length bytes.now / 8) max_segment_words)) }
{
    let most = (bytes.len() / 8).min(0x1fff_ffff);
    words <= (most - used as usize) as u64 && words::word_at(bytes, at as usize) == 0
}

impl StructAt {
    /// The place of the struct. Precondition: it is in the first 536,870,911 words.
    pub(crate) fn place(self) -> StructPlace
        requires { self.at + self.data_words + self.pointers < 2 ^ 29 }
        ensures { result ≡ placed_struct self }
    {
        StructPlace {
            segment: 0,
            bits: 64 * u32::from(self.data_words),
            byte: 8 * u64::from(self.at),
            pointers_at: self.at + u32::from(self.data_words),
            pointers: self.pointers,
        }
    }
}

/// Whether the first `used` words of `bytes` can be a message, and have the `words` words of the
/// elements, and there is one with this index.
pub(crate) fn has_element(bytes: &[u8], used: u32, list: ListAt, words: u64, index: u32) -> bool
    requires { words < 2 ^ 40 }
    ensures { IsTrue result ↔ (IsMessage bytes.now used × (list.at + words ≤ used)
        × (index < list.count)) }
{
    let most = (bytes.len() / 8).min(0x1fff_ffff);
    used as usize <= most && u64::from(list.at) + words <= u64::from(used) && index < list.count
}

/// The place of a list. Precondition: it starts in the first 536,870,911 words.
pub(crate) fn list_place(list: ListAt, size: ElementSize) -> ListPlace
    requires { list.at < 2 ^ 29 }
    ensures { result ≡ placed_list size list }
{
    ListPlace {
        segment: 0,
        byte: 8 * u64::from(list.at),
        size,
        struct_size: StructSize {
            data_words: 0,
            pointers: 0,
        },
        count: list.count,
    }
}
