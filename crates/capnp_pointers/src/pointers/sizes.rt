//! Counts the words and capabilities of a value, without reading its data.
ghost use Rattle.std.specs.Prelude.{◌≡◌, ◌<◌, ◌≤◌, ◌+◌, ◌*◌, length};
ghost use Rattle.capnp_format.specs.Word.{kind, element_size};
ghost use Rattle.capnp_pointers.specs.Enter.{object_shape};
ghost use Rattle.capnp_pointers.specs.Objects.{IsFew};
ghost use Rattle.capnp_pointers.specs.Reading.{segment_read};
ghost use Rattle.capnp_pointers.specs.Measure.{measure, measure_elements, measure_pointers, only_words, shape_size};
ghost use Rattle.capnp_pointers.specs.Pointers.{reading, reading_on};
ghost use Rattle.capnp_pointers.specs.Sizes.{IsWordAt, Walks};

use crate::object::{Object, Place, PointerWord, rows_of_object};
use crate::pointers::Pointer;
use crate::pointers::walk::{Stopped, Walk};
use capnp_arena_traits::arena::ReaderArena;
use capnp_words::error::ErrorKind;
use capnp_words::read_limiter::ReadLimiter;
use capnp_words::wire_pointer::{
    WirePointer, WirePointerKind, is_primitive_list, words_for_elements,
};

/// The size of a value: of its object and all objects below it, without landing pads.
#[derive(Clone, Copy, Debug, PartialEq, Eq)]
pub struct MessageSize {
    /// The number of words.
    pub word_count: u64,
    /// The number of capabilities.
    pub cap_count: u32,
}

impl<'a, A: ReaderArena> Pointer<'a, A> {
    /// Counts the words and the capabilities of the value that the pointer leads to, with all
    /// objects below it and without landing pads (encoding specification, "Structs" and "Lists").
    ///
    /// A null pointer has no words and no capabilities. A list of structs counts its tag and its
    /// elements, even if its pointer claims more words. Each pointer that isn't null takes a level,
    /// even one to a capability. Counts each such pointer in `lim` as followed, and charges the
    /// words of its landing pads and the words that its object claims, each before it is read. A
    /// list of void may be outside of its segment, and elements without width aren't charged; so
    /// the call can return a size even if reading the value would be refused. If the pointer is in
    /// a default value, or in an arena that doesn't charge, such as one being built, `lim` is
    /// unchanged.
    ///
    /// Refuses with the first fault found: `MessageIsTooDeeplyNested`, `InvalidSegmentId`,
    /// `MessageContainsOutOfBoundsPointer`, `MalformedDoubleFarPointer`, `UnknownPointerType`,
    /// `CantHandleNonStructInlineComposite`, `InlineCompositeListsElementsOverrunItsWordCount`,
    /// `TriedToReadFromNullArena` for a far pointer in a default value, `ReadLimitExceeded`, or
    /// `MessageTooLarge(usize::MAX)` if the number of words doesn't fit 64 bits, or that of
    /// capabilities doesn't fit 32 bits. What was charged before stays charged.
    pub fn total_size(&self, lim: &mut ReadLimiter) -> Result<MessageSize, ErrorKind>
        ensures { measure (reading A.ReaderArena self.now) (only_words 0) lim.old
            ≡ (result, lim.new) }
    {
        let mut walk = Walk::begin(0, lim);
        match add_object(self, self.place.at, self.nesting_limit, &mut walk) {
            Ok(()) => {
                *lim = walk.lim;
                Ok(walk.sums.size)
            }
            Err(Stopped) => {
                *lim = walk.lim;
                Err(walk.sums.refusal)
            }
        }
    }

    /// Counts the size of an object and of all objects below it. The object has `own_words` words,
    /// and its `count` consecutive pointers start with `self`. Precondition: the segment has at
    /// least `self.place.at + count` words.
    ///
    /// The sum of words starts at `own_words`, which aren't charged; the object itself takes no
    /// level. Counts, charges and refuses each of its pointers like `total_size`, in order.
    pub fn total_size_of(
        &self,
        count: u32,
        own_words: u64,
        lim: &mut ReadLimiter,
    ) -> Result<MessageSize, ErrorKind>
        requires inside { self.now.place.at + count
            ≤ length (segment_read (reading A.ReaderArena self.now)) }
        ensures { measure_pointers count (reading A.ReaderArena self.now)
            (only_words own_words) lim.old ≡ (result, lim.new) }
    {
        let mut walk = Walk::begin(own_words, lim);
        match add_pointers(self, self.place.at, count, self.nesting_limit, &mut walk) {
            Ok(()) => {
                *lim = walk.lim;
                Ok(walk.sums.size)
            }
            Err(Stopped) => {
                *lim = walk.lim;
                Err(walk.sums.refusal)
            }
        }
    }
}

// Adds the sizes of `count` consecutive pointers from position `at` on. Enters a struct in the same
// segment with its position only, and the same reader of the segment.
#[cycle(sizes)]
#[inline(never)]
fn add_pointers<A: ReaderArena>(
    from: &Pointer<'_, A>,
    at: u32,
    count: u32,
    nesting_limit: i32,
    walk: &mut Walk,
) -> Result<(), Stopped>
    requires inside { at + count ≤ length (segment_read (reading A.ReaderArena from.now)) }
    ensures { Walks (measure_pointers count (reading_on A.ReaderArena from.now at nesting_limit))
        walk.old walk.new result }
{
    add_element_pointers(from, at, count, nesting_limit, walk)
}

// Like `add_pointers`, but inlined: the loop over a list's elements calls nothing for pointers to
// bits or bytes.
#[cycle(sizes)]
#[inline(always)]
fn add_element_pointers<A: ReaderArena>(
    from: &Pointer<'_, A>,
    at: u32,
    count: u32,
    nesting_limit: i32,
    walk: &mut Walk,
) -> Result<(), Stopped>
    requires inside { at + count ≤ length (segment_read (reading A.ReaderArena from.now)) }
    ensures { Walks (measure_pointers count (reading_on A.ReaderArena from.now at nesting_limit))
        walk.old walk.new result }
{
    for i in 0..count {
        add_pointer(from, at + i, nesting_limit, walk)?;
    }
    Ok(())
}

// Adds the size of what the pointer at `at` leads to.
#[cycle(sizes)]
#[inline(always)]
fn add_pointer<A: ReaderArena>(
    from: &Pointer<'_, A>,
    at: u32,
    nesting_limit: i32,
    walk: &mut Walk,
) -> Result<(), Stopped>
    ensures { Walks (measure (reading_on A.ReaderArena from.now at nesting_limit))
        walk.old walk.new result }
{
    let word = Place { at, ..from.place }.word();
    if word.is_null() {
        return Ok(());
    }
    match word.kind() {
        WirePointerKind::Struct => add_struct(from, at, word, nesting_limit, walk),
        WirePointerKind::List if is_primitive_list(word) => {
            add_primitive_list(from, at, word, nesting_limit, walk)
        }
        _ => add_object(from, at, nesting_limit, walk),
    }
}

// Adds the size of the struct that the word at `at` describes.
#[cycle(sizes)]
#[inline(always)]
fn add_struct<A: ReaderArena>(
    from: &Pointer<'_, A>,
    at: u32,
    word: WirePointer,
    nesting_limit: i32,
    walk: &mut Walk,
) -> Result<(), Stopped>
    requires word { IsWordAt word.0 (reading_on A.ReaderArena from.now at nesting_limit) }
    requires is_struct { kind word.0 ≡ 0 }
    ensures { Walks (measure (reading_on A.ReaderArena from.now at nesting_limit))
        walk.old walk.new result }
{
    let pointer = PointerWord {
        place: Place { at, ..from.place },
        word,
        nesting_limit,
    };
    let words = word.struct_word_size();
    let start = match from.source.measure_near(pointer, words, &mut walk.lim) {
        Ok(start) => start,
        Err(k) => {
            walk.sums.refusal = k;
            return Err(Stopped);
        }
    };
    walk.sums.add_words(u64::from(words))?;
    let size = word.struct_size();
    let first = start + u32::from(size.data_words);
    let count = u32::from(size.pointers);
    if count == 0 {
        return Ok(());
    }
    add_pointers(from, first, count, nesting_limit - 1, walk)
}

// Adds the size of the list of bits or bytes that the word at `at` describes.
#[inline(always)]
fn add_primitive_list<A: ReaderArena>(
    from: &Pointer<'_, A>,
    at: u32,
    word: WirePointer,
    nesting_limit: i32,
    walk: &mut Walk,
) -> Result<(), Stopped>
    requires word { IsWordAt word.0 (reading_on A.ReaderArena from.now at nesting_limit) }
    requires is_list { kind word.0 ≡ 1 }
    requires of_bits { (0 < element_size word.0) × (element_size word.0 ≤ 5) }
    ensures { Walks (measure (reading_on A.ReaderArena from.now at nesting_limit))
        walk.old walk.new result }
{
    let pointer = PointerWord {
        place: Place { at, ..from.place },
        word,
        nesting_limit,
    };
    let words = words_for_elements(word.list_element_size(), word.list_element_count());
    match from.source.measure_near(pointer, words, &mut walk.lim) {
        Ok(_) => walk.sums.add_words(u64::from(words)),
        Err(k) => {
            walk.sums.refusal = k;
            Err(Stopped)
        }
    }
}

// Adds the size of what the pointer at `at` leads to, near or far, and of any kind. Apart from the
// loop over pointers, so that a level in the same segment takes little stack.
#[cycle(sizes)]
#[inline(never)]
fn add_object<A: ReaderArena>(
    from: &Pointer<'_, A>,
    at: u32,
    nesting_limit: i32,
    walk: &mut Walk,
) -> Result<(), Stopped>
    ensures { Walks (measure (reading_on A.ReaderArena from.now at nesting_limit))
        walk.old walk.new result }
{
    let place = Place { at, ..from.place };
    let object = match from
        .source
        .measure_object(place, nesting_limit, &mut walk.lim)
    {
        Ok(object) => object,
        Err(k) => {
            walk.sums.refusal = k;
            return Err(Stopped);
        }
    };
    walk.sums.add_words(words_of_object(object))?;
    if let Object::Capability(_) = object {
        return walk.sums.add_capability();
    }
    let Some(rows) = rows_of_object(object) else {
        return Ok(());
    };
    let inner = Pointer {
        source: from.source,
        place: rows.start,
        nesting_limit: nesting_limit - 1,
    };
    add_elements(&inner, rows.data_words, rows.pointers, rows.count, walk)
}

// Adds the sizes of the pointers of `count` consecutive elements, each of `data_words` data words
// and `pointers` pointers.
#[cycle(sizes)]
fn add_elements<A: ReaderArena>(
    from: &Pointer<'_, A>,
    data_words: u32,
    pointers: u32,
    count: u32,
    walk: &mut Walk,
) -> Result<(), Stopped>
    requires inside { from.now.place.at + count * (data_words + pointers)
        ≤ length (segment_read (reading A.ReaderArena from.now)) }
    ensures { Walks (measure_elements data_words pointers count (reading A.ReaderArena from.now))
        walk.old walk.new result }
{
    if pointers == 0 {
        return Ok(());
    }
    let width = u64::from(data_words) + u64::from(pointers);
    for i in 0..count {
        let at = u64::from(from.place.at) + u64::from(i) * width + u64::from(data_words);
        add_element_pointers(from, at as u32, pointers, from.nesting_limit, walk)?;
    }
    Ok(())
}

// The number of words of its own that an object counts; for a list of structs, its tag and its
// elements.
fn words_of_object(object: Object) -> u64
    requires { IsFew object }
    ensures { result ≡ (shape_size (object_shape object.entry)).word_count }
{
    match object {
        Object::Null | Object::Capability(_) => 0,
        Object::Flat { size, count, .. } => u64::from(words_for_elements(size, count)),
        Object::Struct { size, .. } => u64::from(size.total()),
        Object::Pointers { count, .. } => u64::from(count),
        Object::Structs { size, count, .. } => 1 + u64::from(count) * u64::from(size.total()),
    }
}
