//! Reads an object that has to be of an expected kind: a struct, a list of elements that are wide
//! enough, a text, or data.
ghost use Rattle.std.specs.Prelude.{◌≡◌, None, ◌<◌, ◌≤◌, ◌+◌, ◌-◌, ◌*◌, ◌↔◌, pos, IsTrue, IsOk, IfOk, IfErr, length};
ghost use Rattle.capnp_format.specs.Bytes.{words_of};
ghost use Rattle.capnp_format.specs.Numbers.{words_for};
ghost use Rattle.capnp_words.specs.Sizes.{size_number};
ghost use Rattle.capnp_pointers.specs.declared.object.Purpose.TheVariants.{Value};
ghost use Rattle.capnp_pointers.specs.Reading.{source_start, reading_at, list_byte};
ghost use Rattle.capnp_pointers.specs.Objects.{IsObject, IsHeld, IsFew};
ghost use Rattle.capnp_pointers.specs.Expected.{expectation, narrow_elements, narrow_structs, HasExpected, IsExpected, RefusesExpected};
ghost use Rattle.capnp_pointers.specs.Entering.{found_target, entered_from, ReadsAs, object_misfit, IsAtHand};
ghost use Rattle.capnp_pointers.specs.Values.{enter_expected, expect};

use super::Source;
use super::landing::Entrance;
use crate::nesting::levels_left;
use crate::object::{Expected, Object, Place, PointerWord, Purpose};
use capnp_arena_traits::arena::ReaderArena;
use capnp_words::error::ErrorKind;
use capnp_words::read_limiter::ReadLimiter;
use capnp_words::wire_pointer::{
    ElementSize, StructSize, WirePointer, WirePointerKind, data_bits_per_element,
};
use capnp_words::words::word_at;

impl<'a, A: ReaderArena> Source<'a, A> {
    /// Reads the object that the pointer at `place` leads to, and refuses the object if it isn't
    /// what `expected` says (encoding specification, "Structs" and "Lists"). Precondition:
    /// `place.bytes` has exactly the whole words of segment `place.segment` of `self`, fewer than
    /// 2^32.
    ///
    /// If the word at `place` is zero, returns `Object::Null`, and counts and charges nothing in
    /// `lim`. Otherwise checks, counts and charges like `Source::read_object`, except as follows.
    ///
    /// If `nesting_limit` is below 1 and a struct or a list is expected, refuses before the pointer
    /// is followed: with `MessageIsTooDeeplyNestedOrContainsCycles` for a struct, and with
    /// `NestingLimitExceeded` for a list. A text and data require no level. An object of another
    /// kind is refused after its landing pads are charged and before its own words are. A list
    /// whose elements are too narrow, or a text that doesn't end in a zero byte, is refused after
    /// its own words are charged as well.
    #[inline(always)]
    pub fn read_expected(
        self,
        expected: Expected,
        place: Place<'a>,
        nesting_limit: i32,
        lim: &mut ReadLimiter,
    ) -> Result<Object<'a>, ErrorKind>
        requires held { IsHeld (source_start A.ReaderArena self).segments place }
        ensures object { IfOk result (IsObject Value
            (reading_at A.ReaderArena self.entry place.entry (pos 1))
            lim.old lim.new) }
        ensures given { IfOk result (IsExpected expected
            (reading_at A.ReaderArena self.entry place.entry nesting_limit).levels) }
        ensures few { IfOk result IsFew }
        ensures exactly { IsOk result ↔ HasExpected (expectation expected)
            (reading_at A.ReaderArena self.entry place.entry nesting_limit) lim.old }
        ensures refused { IfErr result
            (RefusesExpected (expectation expected)
            (reading_at A.ReaderArena self.entry place.entry nesting_limit) lim.old lim.new) }
    {
        self.read_as_expected(expected, place, nesting_limit, lim)
    }

    // Reads the object that the pointer at a place leads to, if it is as expected.
    #[inline(always)]
    fn read_as_expected(
        self,
        expected: Expected,
        place: Place<'a>,
        nesting_limit: i32,
        lim: &mut ReadLimiter,
    ) -> Result<Object<'a>, ErrorKind>
        requires { IsHeld (source_start A.ReaderArena self).segments place }
        ensures { let r = reading_at A.ReaderArena self.entry place.entry nesting_limit in
            ReadsAs (expect (expectation expected) r) r.segments lim.old lim.new result }
    {
        let word = place.word();
        if word.is_null() {
            return Ok(Object::Null);
        }
        match depth_error(expected, levels_left(nesting_limit)) {
            Some(kind) => return Err(kind),
            None => {}
        }
        let pointer = PointerWord {
            place,
            word,
            nesting_limit,
        };
        let found = self.follow(pointer, lim)?;
        let entrance = Entrance {
            source: self,
            found,
            depth: 1,
        };
        entrance.enter_expected(expected, lim)
    }
}

impl<'a, A: ReaderArena> Entrance<'a, A> {
    // Enters the object that a pointer leads to, if it is as expected.
    #[inline(always)]
    fn enter_expected(
        self,
        expected: Expected,
        lim: &mut ReadLimiter,
    ) -> Result<Object<'a>, ErrorKind>
        ensures { let r = entered_from A.ReaderArena self.entry in
            ReadsAs (enter_expected (expectation expected) r (found_target self.entry.found))
            r.segments lim.old lim.new result }
    {
        match kind_error(expected, self.found.word) {
            Some(kind) => return Err(kind),
            None => {}
        }
        let object = self.enter(Purpose::Value, lim)?;
        match mismatch_error(expected, object) {
            Some(kind) => Err(kind),
            None => Ok(object),
        }
    }
}

// The refusal for having `depth` levels left, if that is too few for what is expected.
#[inline(always)]
fn depth_error(expected: Expected, depth: u32) -> Option<ErrorKind>
    ensures { result ≡ (expectation expected).too_deep depth }
{
    match expected {
        Expected::Struct if depth == 0 => Some(ErrorKind::MessageIsTooDeeplyNestedOrContainsCycles),
        Expected::List(_) if depth == 0 => Some(ErrorKind::NestingLimitExceeded),
        _ => None,
    }
}

// The refusal for a word that describes an object of another kind than expected, if it does.
#[inline(always)]
fn kind_error(expected: Expected, word: WirePointer) -> Option<ErrorKind>
    ensures { result ≡ (expectation expected).another_kind word.0 }
{
    let is_list = word.kind() == WirePointerKind::List;
    let is_bytes = word.list_element_size() == ElementSize::Byte;
    match expected {
        Expected::Struct if word.kind() != WirePointerKind::Struct => {
            Some(ErrorKind::MessageContainsNonStructPointerWhereStructPointerWasExpected)
        }
        Expected::List(_) if !is_list => {
            Some(ErrorKind::MessageContainsNonListPointerWhereListPointerWasExpected)
        }
        Expected::Text if !is_list => {
            Some(ErrorKind::MessageContainsNonListPointerWhereTextWasExpected)
        }
        Expected::Text if !is_bytes => {
            Some(ErrorKind::MessageContainsListPointerOfNonBytesWhereTextWasExpected)
        }
        Expected::Data if !is_list => {
            Some(ErrorKind::MessageContainsNonListPointerWhereDataWasExpected)
        }
        Expected::Data if !is_bytes => {
            Some(ErrorKind::MessageContainsListPointerOfNonBytesWhereDataWasExpected)
        }
        _ => None,
    }
}

// The refusal for an object of the right kind that isn't as expected, if it isn't.
#[inline(always)]
fn mismatch_error(expected: Expected, object: Object) -> Option<ErrorKind>
    requires { IsAtHand object }
    ensures { result ≡ object_misfit expected object.entry }
{
    match (expected, object) {
        (Expected::List(size), Object::Flat { size: found, .. }) => {
            narrow_elements_error(size, found)
        }
        (Expected::List(size), Object::Pointers { .. }) => {
            narrow_elements_error(size, ElementSize::Pointer)
        }
        (Expected::List(size), Object::Structs { size: sections, .. }) => {
            narrow_structs_error(size, sections)
        }
        (
            Expected::Text,
            Object::Flat {
                start,
                size: ElementSize::Byte,
                count,
            },
        ) if !ends_in_zero(start.bytes, start.at, count) => {
            Some(ErrorKind::MessageContainsTextThatIsNotNULTerminated)
        }
        _ => None,
    }
}

// Whether the `count` bytes from word `start` of a segment on end in a zero byte.
fn ends_in_zero(bytes: &[u8], start: u32, count: u32) -> bool
    requires { 8 * (start + words_for 2 count) ≤ length bytes.now }
    ensures { IsTrue result
        ↔ (0 < count) × (list_byte (words_of bytes.now) start count (count - 1) ≡ 0) }
{
    if count == 0 {
        return false;
    }
    let last = (count - 1) as usize;
    let word = word_at(bytes, start as usize + last / 8);
    word >> (8 * (last % 8)) & 0xff == 0
}

// The refusal for elements of a list that are too narrow, if they are.
fn narrow_elements_error(expected: ElementSize, found: ElementSize) -> Option<ErrorKind>
    requires { size_number found < 7 }
    ensures { result ≡ narrow_elements expected (size_number found) }
{
    if found == ElementSize::Bit && expected != ElementSize::Bit {
        return Some(ErrorKind::FoundBitListWhereStructListWasExpected);
    }
    let is_wide = data_bits_per_element(found) >= data_bits_per_element(expected);
    if is_wide && (expected != ElementSize::Pointer || found == ElementSize::Pointer) {
        None
    } else {
        Some(ErrorKind::MessageContainsListWithIncompatibleElementType)
    }
}

// The refusal for sections of a list of structs that are too narrow, if they are.
fn narrow_structs_error(expected: ElementSize, sections: StructSize) -> Option<ErrorKind>
    ensures { result ≡ narrow_structs expected sections }
{
    match expected {
        ElementSize::Void | ElementSize::InlineComposite => None,
        ElementSize::Bit => Some(ErrorKind::FoundStructListWhereBitListWasExpected),
        ElementSize::Pointer if sections.pointers == 0 => {
            Some(ErrorKind::ExpectedAPointerListButGotAListOfDataOnlyStructs)
        }
        ElementSize::Pointer => None,
        _ if sections.data_words == 0 => {
            Some(ErrorKind::ExpectedAPrimitiveListButGotAListOfPointerOnlyStructs)
        }
        _ => None,
    }
}
