//! Enters the object that a followed pointer leads to: checks and charges the words that the object
//! claims.
ghost use Rattle.std.specs.Prelude.{◌≡◌, ⊤};
ghost use Rattle.capnp_pointers.specs.declared.object.Purpose.TheVariants.{Size};
ghost use Rattle.capnp_pointers.specs.Enter.{no_tag_name};
ghost use Rattle.capnp_pointers.specs.Objects.{IsHeld};
ghost use Rattle.capnp_pointers.specs.Reading.{source_start};

use super::{Found, Source};
use crate::object::{Object, Place, Purpose};
use capnp_arena_traits::arena::ReaderArena;
use capnp_words::error::ErrorKind;
use capnp_words::read_limiter::ReadLimiter;
use capnp_words::wire_pointer::{ElementSize, WirePointerKind, words_for_elements};
use std::alloc::AllocError;

// What following a pointer found, in the source that it is read from.
pub(crate) struct Entrance<'a, A: ReaderArena> {
    // What the object is read from.
    pub(crate) source: Source<'a, A>,
    // The word that describes the object, and where the object starts.
    pub(crate) found: Found<'a>,
    // The number of levels left: a struct and a list take one.
    pub(crate) depth: u32,
    ghost held: { IsHeld (source_start A.ReaderArena source).segments found.start },
}

impl<'a, A: ReaderArena> Clone for Entrance<'a, A> {
    ghost is_clone = { λ x y. y ≡ x };

    ghost is_infallible = { λ _. ⊤ };

    fn clone(&self) -> Result<Self, AllocError> {
        Ok(*self)
    }
}

impl<'a, A: ReaderArena> Copy for Entrance<'a, A> {}

impl<'a, A: ReaderArena> Entrance<'a, A> {
    ghost use Rattle.std.specs.Prelude.{◌<◌, ◌≤◌};
    ghost use Rattle.capnp_format.specs.Word.{kind, element_size};
    ghost use Rattle.capnp_words.specs.Sizes.{size_number};
    ghost use Rattle.capnp_pointers.specs.declared.object.Purpose.{Purpose};
    ghost use Rattle.capnp_pointers.specs.Demands.{claimed_words, IsStructList, IsVoidList};
    ghost use Rattle.capnp_pointers.specs.Enter.{enter_object, enter};
    ghost use Rattle.capnp_pointers.specs.Entering.{found_target, entered_from, claim_words, enter_plain, enter_void, enter_structs, ReadsAs};

    // Enters the object that a pointer leads to, which takes one of the levels. Precondition for
    // the size only: a level is left.
    #[inline(always)]
    pub(crate) fn enter(
        self,
        purpose: Purpose,
        lim: &mut ReadLimiter,
    ) -> Result<Object<'a>, ErrorKind>
        requires level { purpose ≡ Size → 0 < self.depth }
        ensures { let r = entered_from A.ReaderArena self.entry in
            ReadsAs (enter purpose r (found_target self.entry.found)) r.segments
            lim.old lim.new result }
    {
        match self.found.word.kind() {
            WirePointerKind::Struct => self.enter_struct(purpose, lim),
            WirePointerKind::List => self.enter_list(purpose, lim),
            WirePointerKind::Far => Err(ErrorKind::MalformedDoubleFarPointer),
            WirePointerKind::Other => {
                if self.found.word.is_capability() {
                    Ok(Object::Capability(self.found.word.cap_index()))
                } else {
                    Err(ErrorKind::UnknownPointerType)
                }
            }
        }
    }

    // Checks and charges the words that an object claims.
    #[inline(always)]
    pub(crate) fn charge_claim(self, words: u32, lim: &mut ReadLimiter) -> Result<(), ErrorKind>
        requires { words ≡ claimed_words self.found.word.0 }
        ensures { claim_words (entered_from A.ReaderArena self.entry) (found_target self.entry.found)
            lim.old ≡ (result, lim.new) }
    {
        if self.depth == 0 {
            return Err(ErrorKind::MessageIsTooDeeplyNestedOrContainsCycles);
        }
        let end = u64::from(self.found.start.at) + u64::from(words);
        if end > u64::from(self.found.start.length()) {
            return Err(ErrorKind::MessageContainsOutOfBoundsPointer);
        }
        self.source.charge(u64::from(words), lim)
    }

    // Enters a struct.
    #[inline(always)]
    fn enter_struct(self, purpose: Purpose, lim: &mut ReadLimiter) -> Result<Object<'a>, ErrorKind>
        requires { kind self.found.word.0 ≡ 0 }
        ensures { let r = entered_from A.ReaderArena self.entry in
            ReadsAs (enter_plain r (found_target self.entry.found)) r.segments
            lim.old lim.new result }
    {
        self.charge_claim(self.found.word.struct_word_size(), lim)?;
        Ok(Object::Struct {
            start: self.found.start,
            size: self.found.word.struct_size(),
        })
    }

    // Enters a list.
    #[inline(always)]
    fn enter_list(self, purpose: Purpose, lim: &mut ReadLimiter) -> Result<Object<'a>, ErrorKind>
        requires is_list { kind self.found.word.0 ≡ 1 }
        requires level { purpose ≡ Size → 0 < self.depth }
        ensures { let r = entered_from A.ReaderArena self.entry in
            ReadsAs (enter_object purpose r (found_target self.entry.found)) r.segments
            lim.old lim.new result }
    {
        match self.found.word.list_element_size() {
            ElementSize::InlineComposite => self.enter_struct_list(purpose, lim),
            ElementSize::Pointer => self.enter_pointer_list(purpose, lim),
            ElementSize::Void => self.enter_void_list(purpose, lim),
            size => self.enter_primitive_list(purpose, size, lim),
        }
    }

    // Enters a list of void; for the size, without a check of its place or a charge.
    #[inline(always)]
    fn enter_void_list(
        self,
        purpose: Purpose,
        lim: &mut ReadLimiter,
    ) -> Result<Object<'a>, ErrorKind>
        requires of_void { IsVoidList self.found.word.0 }
        requires level { purpose ≡ Size → 0 < self.depth }
        ensures { let r = entered_from A.ReaderArena self.entry in
            ReadsAs (enter_void purpose r (found_target self.entry.found)) r.segments
            lim.old lim.new result }
    {
        let start = self.found.start;
        let size = ElementSize::Void;
        let count = self.found.word.list_element_count();
        match purpose {
            Purpose::Size => return Ok(Object::Flat { start, size, count }),
            Purpose::Value => {}
        }
        self.charge_claim(0, lim)?;
        self.source.charge(u64::from(count), lim)?;
        Ok(Object::Flat { start, size, count })
    }

    // Enters a list of bits or of elements of bytes.
    #[inline(always)]
    fn enter_primitive_list(
        self,
        purpose: Purpose,
        size: ElementSize,
        lim: &mut ReadLimiter,
    ) -> Result<Object<'a>, ErrorKind>
        requires is_list { kind self.found.word.0 ≡ 1 }
        requires is_size { size_number size ≡ element_size self.found.word.0 }
        requires of_bits { (0 < size_number size) × (size_number size ≤ 5) }
        ensures { let r = entered_from A.ReaderArena self.entry in
            ReadsAs (enter_plain r (found_target self.entry.found)) r.segments
            lim.old lim.new result }
    {
        let count = self.found.word.list_element_count();
        self.charge_claim(words_for_elements(size, count), lim)?;
        Ok(Object::Flat {
            start: self.found.start,
            size,
            count,
        })
    }

    // Enters a list of pointers.
    #[inline(always)]
    fn enter_pointer_list(
        self,
        purpose: Purpose,
        lim: &mut ReadLimiter,
    ) -> Result<Object<'a>, ErrorKind>
        requires { (kind self.found.word.0 ≡ 1) × (element_size self.found.word.0 ≡ 6) }
        ensures { let r = entered_from A.ReaderArena self.entry in
            ReadsAs (enter_plain r (found_target self.entry.found)) r.segments
            lim.old lim.new result }
    {
        let count = self.found.word.list_element_count();
        self.charge_claim(count, lim)?;
        Ok(Object::Pointers {
            start: self.found.start,
            count,
        })
    }

    // Enters a list of structs, whose first word is their tag.
    #[inline(always)]
    fn enter_struct_list(
        self,
        purpose: Purpose,
        lim: &mut ReadLimiter,
    ) -> Result<Object<'a>, ErrorKind>
        requires { IsStructList self.found.word.0 }
        ensures { let r = entered_from A.ReaderArena self.entry in
            ReadsAs (enter_structs purpose r (found_target self.entry.found)) r.segments
            lim.old lim.new result }
    {
        let words = self.found.word.list_inline_composite_word_count();
        self.charge_claim(words + 1, lim)?;
        let tag = self.found.start.word();
        if tag.kind() != WirePointerKind::Struct {
            return Err(non_struct_tag_error(purpose));
        }
        let count = tag.inline_composite_list_element_count();
        let width = tag.struct_word_size();
        if u64::from(count) * u64::from(width) > u64::from(words) {
            return Err(ErrorKind::InlineCompositeListsElementsOverrunItsWordCount);
        }
        self.source.charge_elements(purpose, width, count, lim)?;
        Ok(Object::Structs {
            start: Place {
                at: self.found.start.at + 1,
                ..self.found.start
            },
            size: tag.struct_size(),
            count,
        })
    }
}

// The refusal of a list of structs without a tag.
fn non_struct_tag_error(purpose: Purpose) -> ErrorKind
    ensures { result ≡ no_tag_name purpose }
{
    match purpose {
        Purpose::Value => ErrorKind::InlineCompositeListsOfNonStructTypeAreNotSupported,
        Purpose::Size => ErrorKind::CantHandleNonStructInlineComposite,
    }
}
