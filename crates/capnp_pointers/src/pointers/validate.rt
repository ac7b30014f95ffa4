//! Finds out whether a value can be read: reads all of its objects, but not their data.
ghost use Rattle.std.specs.Prelude.{◌≡◌, ◌<◌, ◌≤◌, ◌+◌, ◌*◌, length};
ghost use Rattle.capnp_format.specs.Word.{kind, element_size};
ghost use Rattle.capnp_pointers.specs.Enter.{object_shape};
ghost use Rattle.capnp_pointers.specs.Objects.{IsFew};
ghost use Rattle.capnp_pointers.specs.Reading.{segment_read};
ghost use Rattle.capnp_pointers.specs.Source.{levels};
ghost use Rattle.capnp_pointers.specs.Extents.{read_extent};
ghost use Rattle.capnp_pointers.specs.Pointers.{reading, reading_on};
ghost use Rattle.capnp_pointers.specs.Sizes.{IsWordAt};
ghost use Rattle.capnp_pointers.specs.Validation.{Validates, tally_shape, tally_words, validate_elements, validate_place, validate_pointers};

use crate::nesting::{levels_left, one_level_less};
use crate::object::{Object, Place, PointerWord, rows_of_object};
use crate::pointers::Pointer;
use crate::pointers::walk::Stopped;
use capnp_arena_traits::arena::ReaderArena;
use capnp_words::error::ErrorKind;
use capnp_words::read_limiter::ReadLimiter;
use capnp_words::wire_pointer::{
    WirePointer, WirePointerKind, is_primitive_list, words_for_elements,
};
use std::mem;

/// How deep a value is, and how much it holds. A part that several pointers lead to counts for each
/// of them.
#[derive(Clone, Copy, Debug, PartialEq, Eq)]
pub struct Extent {
    /// The number of structs and lists that are nested in each other, at most: the least nesting
    /// limit within which the value can be read.
    pub depth: u32,
    /// The number of words of all objects, without landing pads; `u64::MAX` if there are more.
    pub words: u64,
    /// The number of capabilities; `u64::MAX` if there are more.
    pub capabilities: u64,
}

// What a walk has found so far.
#[derive(Clone, Copy)]
struct Tally {
    // The fewest levels that were left inside of a struct or a list.
    lowest: u32,
    // The number of words, at most `u64::MAX`.
    words: u64,
    // The number of capabilities, at most `u64::MAX`.
    capabilities: u64,
}

// A walk over the objects of a value: what it has found, and the limiter that it charges.
#[derive(Drop)]
struct Validation {
    // What it has found so far.
    tally: Tally,
    // Why the walk stopped. Before that, it has no meaning.
    refusal: ErrorKind,
    // The limiter, moved here during the walk.
    lim: ReadLimiter,
}

impl Tally {
    // Adds the words of an object that was entered, with `levels` levels left inside of it.
    fn add_words(&mut self, levels: u32, words: u32)
        ensures { self.new ≡ tally_words levels words self.old }
    {
        self.lowest = self.lowest.min(levels);
        self.words = self.words.saturating_add(u64::from(words));
    }

    // Adds an object, without its children. If it is a struct or a list, `levels` levels are left
    // inside of it.
    fn add(&mut self, levels: u32, object: Object)
        requires { IsFew object }
        ensures { self.new ≡ tally_shape levels (object_shape object.entry) self.old }
    {
        match object {
            Object::Null => {}
            Object::Capability(_) => self.capabilities = self.capabilities.saturating_add(1),
            Object::Struct { size, .. } => self.add_words(levels, size.total()),
            Object::Flat { size, count, .. } => self.add_words(
                levels,
                words_for_elements(size, count),
            ),
            Object::Pointers { count, .. } => self.add_words(levels, count),
            Object::Structs { size, count, .. } => {
                self.add_words(levels, 1 + count * size.total());
            }
        }
    }
}

impl Validation {
    // Begins a walk with `levels` levels, and moves the limiter from `lim` into it.
    fn begin(levels: u32, lim: &mut ReadLimiter) -> Self
        ensures tally { result.tally ≡ record { lowest = levels; words = 0; capabilities = 0 } }
        ensures limiter { result.lim ≡ lim.old }
    {
        Validation {
            tally: Tally {
                lowest: levels,
                words: 0,
                capabilities: 0,
            },
            refusal: ErrorKind::ReadLimitExceeded,
            lim: mem::replace(lim, ReadLimiter::new(None)),
        }
    }
}

impl<'a, A: ReaderArena> Pointer<'a, A> {
    /// Tests whether the whole value that the pointer leads to can be read, with all objects below
    /// it. Returns how deep it is and how much it holds. Takes no memory, and doesn't read the data
    /// of structs and lists. A value may have capabilities.
    ///
    /// Reads each object like `read_object`: counts each pointer that isn't null, and charges the
    /// words of its landing pads, the words that its object claims, and one word for each list
    /// element without width. So what is charged in all is the cost of reading the value once.
    ///
    /// Refuses with the first fault found, like any reading of the value: `InvalidSegmentId`,
    /// `MessageContainsOutOfBoundsPointer`, `MalformedDoubleFarPointer`, `UnknownPointerType`,
    /// `MessageIsTooDeeplyNestedOrContainsCycles`,
    /// `InlineCompositeListsOfNonStructTypeAreNotSupported`,
    /// `InlineCompositeListsElementsOverrunItsWordCount`, `TriedToReadFromNullArena` for a far
    /// pointer in a default value, or `ReadLimitExceeded`. What was charged before stays charged.
    pub fn validate(&self, lim: &mut ReadLimiter) -> Result<Extent, ErrorKind>
        ensures { read_extent (reading A.ReaderArena self.now) lim.old ≡ (result, lim.new) }
    {
        let levels = levels_left(self.nesting_limit);
        let mut walk = Validation::begin(levels, lim);
        match validate_object(self, self.place.at, self.nesting_limit, &mut walk) {
            Ok(()) => {
                *lim = walk.lim;
                Ok(Extent {
                    depth: levels - walk.tally.lowest,
                    words: walk.tally.words,
                    capabilities: walk.tally.capabilities,
                })
            }
            Err(Stopped) => {
                *lim = walk.lim;
                Err(walk.refusal)
            }
        }
    }
}

// Validates `count` consecutive pointers from position `at` on. Enters a struct in the same segment
// with its position only, and the same reader of the segment.
#[cycle(validation)]
#[inline(never)]
fn validate_pointers<A: ReaderArena>(
    from: &Pointer<'_, A>,
    at: u32,
    count: u32,
    nesting_limit: i32,
    walk: &mut Validation,
) -> Result<(), Stopped>
    requires inside { at + count ≤ length (segment_read (reading A.ReaderArena from.now)) }
    ensures { Validates
        (validate_pointers count (reading_on A.ReaderArena from.now at nesting_limit))
        walk.old walk.new result }
{
    for i in 0..count {
        validate_pointer(from, at + i, nesting_limit, walk)?;
    }
    Ok(())
}

// Validates what the pointer at `at` leads to.
#[cycle(validation)]
#[inline(always)]
fn validate_pointer<A: ReaderArena>(
    from: &Pointer<'_, A>,
    at: u32,
    nesting_limit: i32,
    walk: &mut Validation,
) -> Result<(), Stopped>
    ensures { Validates (validate_place (reading_on A.ReaderArena from.now at nesting_limit))
        walk.old walk.new result }
{
    let word = Place { at, ..from.place }.word();
    if word.is_null() {
        return Ok(());
    }
    match word.kind() {
        WirePointerKind::Struct => validate_struct(from, at, word, nesting_limit, walk),
        WirePointerKind::List if is_primitive_list(word) => {
            validate_primitive_list(from, at, word, nesting_limit, walk)
        }
        _ => validate_object(from, at, nesting_limit, walk),
    }
}

// Validates the struct that the word at `at` describes.
#[cycle(validation)]
#[inline(always)]
fn validate_struct<A: ReaderArena>(
    from: &Pointer<'_, A>,
    at: u32,
    word: WirePointer,
    nesting_limit: i32,
    walk: &mut Validation,
) -> Result<(), Stopped>
    requires word { IsWordAt word.0 (reading_on A.ReaderArena from.now at nesting_limit) }
    requires is_struct { kind word.0 ≡ 0 }
    ensures { Validates (validate_place (reading_on A.ReaderArena from.now at nesting_limit))
        walk.old walk.new result }
{
    let pointer = PointerWord {
        place: Place { at, ..from.place },
        word,
        nesting_limit,
    };
    let start = match from.source.read_near_struct(pointer, &mut walk.lim) {
        Ok(start) => start,
        Err(k) => {
            walk.refusal = k;
            return Err(Stopped);
        }
    };
    let size = word.struct_size();
    let inner = one_level_less(nesting_limit);
    walk.tally.add_words(levels_left(inner), size.total());
    let first = start + u32::from(size.data_words);
    let count = u32::from(size.pointers);
    if count == 0 {
        return Ok(());
    }
    validate_pointers(from, first, count, inner, walk)
}

// Validates the list of bits or numbers that the word at `at` describes.
#[inline(always)]
fn validate_primitive_list<A: ReaderArena>(
    from: &Pointer<'_, A>,
    at: u32,
    word: WirePointer,
    nesting_limit: i32,
    walk: &mut Validation,
) -> Result<(), Stopped>
    requires word { IsWordAt word.0 (reading_on A.ReaderArena from.now at nesting_limit) }
    requires is_list { kind word.0 ≡ 1 }
    requires of_bits { (0 < element_size word.0) × (element_size word.0 ≤ 5) }
    ensures { Validates (validate_place (reading_on A.ReaderArena from.now at nesting_limit))
        walk.old walk.new result }
{
    let pointer = PointerWord {
        place: Place { at, ..from.place },
        word,
        nesting_limit,
    };
    let words = words_for_elements(word.list_element_size(), word.list_element_count());
    match from
        .source
        .read_near_primitive_list(pointer, words, &mut walk.lim)
    {
        Ok(_) => {
            walk.tally
                .add_words(levels_left(one_level_less(nesting_limit)), words);
            Ok(())
        }
        Err(k) => {
            walk.refusal = k;
            Err(Stopped)
        }
    }
}

// Validates what the pointer at `at` leads to, near or far, and of any kind. Apart from the loop
// over pointers, so that a level in the same segment takes little stack.
#[cycle(validation)]
#[inline(never)]
fn validate_object<A: ReaderArena>(
    from: &Pointer<'_, A>,
    at: u32,
    nesting_limit: i32,
    walk: &mut Validation,
) -> Result<(), Stopped>
    ensures { Validates (validate_place (reading_on A.ReaderArena from.now at nesting_limit))
        walk.old walk.new result }
{
    let place = Place { at, ..from.place };
    let object = match from.source.read_object(place, nesting_limit, &mut walk.lim) {
        Ok(object) => object,
        Err(k) => {
            walk.refusal = k;
            return Err(Stopped);
        }
    };
    let inner = one_level_less(nesting_limit);
    walk.tally.add(levels_left(inner), object);
    let Some(rows) = rows_of_object(object) else {
        return Ok(());
    };
    let first = Pointer {
        source: from.source,
        place: rows.start,
        nesting_limit: inner,
    };
    validate_elements(&first, rows.data_words, rows.pointers, rows.count, walk)
}

// Validates the pointers of `count` consecutive elements, each of `data_words` data words and
// `pointers` pointers.
#[cycle(validation)]
fn validate_elements<A: ReaderArena>(
    from: &Pointer<'_, A>,
    data_words: u32,
    pointers: u32,
    count: u32,
    walk: &mut Validation,
) -> Result<(), Stopped>
    requires inside { from.now.place.at + count * (data_words + pointers)
        ≤ length (segment_read (reading A.ReaderArena from.now)) }
    ensures { Validates (validate_elements data_words pointers count
        (reading A.ReaderArena from.now)) walk.old walk.new result }
{
    if pointers == 0 {
        return Ok(());
    }
    let width = u64::from(data_words) + u64::from(pointers);
    for i in 0..count {
        let at = u64::from(from.place.at) + u64::from(i) * width + u64::from(data_words);
        validate_pointers(from, at as u32, pointers, from.nesting_limit, walk)?;
    }
    Ok(())
}
