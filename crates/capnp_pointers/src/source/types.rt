//! The kind of object that a pointer leads to.
ghost use Rattle.std.specs.Prelude.{◌≡◌, ◌↔◌, IsOk, IfOk, IfErr};
ghost use Rattle.capnp_words.specs.Meter.{Meter};
ghost use Rattle.capnp_words.specs.declared.wire_pointer.PointerType.{PointerType};
ghost use Rattle.capnp_pointers.specs.Reading.{source_start, reading_at};
ghost use Rattle.capnp_pointers.specs.Objects.{IsHeld};
ghost use Rattle.capnp_pointers.specs.Types.{type_of, IsOfType, HasNoType};
ghost use Rattle.capnp_pointers.specs.Values.{pointer_type};

use super::Source;
use crate::object::{Place, PointerWord};
use capnp_arena_traits::arena::ReaderArena;
use capnp_words::error::ErrorKind;
use capnp_words::read_limiter::ReadLimiter;
use capnp_words::wire_pointer::{PointerType, WirePointer, WirePointerKind};

impl<'a, A: ReaderArena> Source<'a, A> {
    /// Returns the kind of object that the pointer at `place` leads to. This is the kind of the
    /// word that describes the object: the pointer itself, its landing pad, or, for a double-far
    /// pointer, the second word of the landing pad. The object itself is neither checked nor
    /// charged.
    ///
    /// Precondition: `place.bytes` has exactly the whole words of segment `place.segment` of
    /// `self`, fewer than 2^32.
    ///
    /// If the word at `place` is zero, returns `PointerType::Null`, and counts and charges nothing
    /// in `lim`. Otherwise counts the pointer in `lim` as followed, and charges the words of its
    /// landing pads. Refusals: `UnexpectedFarPointer` if the word that describes the object is a
    /// far pointer; `UnknownPointerType` if that word is of no known kind; those of
    /// `Source::read_object` if the pointer can't be followed.
    pub fn read_type(
        self,
        place: Place<'a>,
        nesting_limit: i32,
        lim: &mut ReadLimiter,
    ) -> Result<PointerType, ErrorKind>
        requires held { IsHeld (source_start A.ReaderArena self).segments place }
        ensures of_type { IfOk result (IsOfType
            (reading_at A.ReaderArena self.entry place.entry nesting_limit) lim.old lim.new) }
        ensures exactly { IsOk result ↔ (t : PointerType) × (left : Meter) × IsOfType
            (reading_at A.ReaderArena self.entry place.entry nesting_limit) lim.old left t }
        ensures refused { IfErr result
            (HasNoType (reading_at A.ReaderArena self.entry place.entry nesting_limit)
            lim.old lim.new) }
    {
        self.type_at(place, nesting_limit, lim)
    }

    // Reads the type of the pointer at a place.
    fn type_at(
        self,
        place: Place<'a>,
        nesting_limit: i32,
        lim: &mut ReadLimiter,
    ) -> Result<PointerType, ErrorKind>
        requires { IsHeld (source_start A.ReaderArena self).segments place }
        ensures { pointer_type (reading_at A.ReaderArena self.entry place.entry nesting_limit) lim.old
            ≡ (result, lim.new) }
    {
        let word = place.word();
        if word.is_null() {
            return Ok(PointerType::Null);
        }
        let pointer = PointerWord {
            place,
            word,
            nesting_limit,
        };
        let found = self.follow(pointer, lim)?;
        described_type(found.word)
    }
}

// What a word describes.
fn described_type(word: WirePointer) -> Result<PointerType, ErrorKind>
    ensures { result ≡ type_of word.0 }
{
    match word.kind() {
        WirePointerKind::Struct => Ok(PointerType::Struct),
        WirePointerKind::List => Ok(PointerType::List),
        WirePointerKind::Far => Err(ErrorKind::UnexpectedFarPointer),
        WirePointerKind::Other if word.is_capability() => Ok(PointerType::Capability),
        WirePointerKind::Other => Err(ErrorKind::UnknownPointerType),
    }
}
