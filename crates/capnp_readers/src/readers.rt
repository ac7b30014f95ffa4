//! Readers: pointers, structs and lists of a message, read in place.
ghost use Rattle.std.specs.Prelude.{◌≡◌, ◌≢◌, Some, Ok, ◌<◌, ◌≤◌, ◌+◌, ◌-◌, ◌*◌, ◌/◌, ◌^◌, ◌↔◌, ℕ, pos, false, ⊤, IsTrue, IfOk, IsOk, OnOk, OnErr, IfErr, IfSome, length, take, drop, slice_index};
ghost use Rattle.capnp_format.specs.Bytes.{message};
ghost use Rattle.capnp_format.specs.Means.{Means};
ghost use Rattle.capnp_format.specs.Tree.{Tree, Null};
ghost use Rattle.capnp_pointers.specs.Outcomes.{MeansThere};
ghost use Rattle.capnp_pointers.specs.Spending.{Paid};
ghost use Rattle.capnp_words.specs.Meter.{Meter, Affords, charged};
ghost use Rattle.capnp_format.specs.Segments.{word_at, segment, IsPlace};
ghost use Rattle.capnp_words.specs.declared.error.ErrorKind.TheVariants.{MessageContainsNonCapabilityPointerWhereCapabilityPointerWasExpected, MessageContainsNullCapabilityPointer, MessageContainsOutOfBoundsPointer, ReadLimitExceeded};
ghost use Rattle.capnp_arena_traits.specs.Checks.{Holds, misplaced};
ghost use Rattle.capnp_pointers.specs.Source.{default_segment, levels};
ghost use Rattle.capnp_pointers.specs.Refusals.{NotRead, CanBeRead};
ghost use Rattle.capnp_pointers.specs.Objects.{IsHeld};
ghost use Rattle.capnp_pointers.specs.Reading.{Reading, source_start, reading_at, word_of};
ghost use Rattle.capnp_pointers.specs.Objects.{IsFew, IsObject};
ghost use Rattle.capnp_pointers.specs.Expected.{expectation, struct_expected, list_expected, text_expected, data_expected, HasExpected, IsExpected};
ghost use Rattle.capnp_words.specs.declared.wire_pointer.PointerType.{PointerType};
ghost use Rattle.capnp_pointers.specs.Types.{IsOfType, HasNoType};
ghost use Rattle.capnp_format.specs.Word.{lower_half, upper_half};
ghost use Rattle.capnp_pointers.specs.declared.object.Purpose.TheVariants.{Value};

mod canonical;
mod list_reader;
mod primitive_element;
mod sizes;
mod struct_reader;
mod target;

use capnp_arena_traits::arena::ReaderArena;
use capnp_pointers::object::{Expected, Object, Place};
use capnp_pointers::pointers::Pointer;
pub use capnp_pointers::pointers::{
    CanonicalFault, CanonicalFaultReason, MessageSize, PointerPlace,
};
use capnp_pointers::source::Source;
use capnp_words::error::ErrorKind;
use capnp_words::read_limiter::ReadLimiter;
use capnp_words::wire_pointer::{ElementSize, PointerType, StructSize};
pub use list_reader::{ListPlace, ListReader};
pub use primitive_element::PrimitiveElement;
use std::alloc::AllocError;
pub use struct_reader::{StructPlace, StructReader};
pub use target::Target;

/// The segment number that the places of pointers in a field's default value have. It is above all
/// segment numbers that a far pointer can hold.
pub const DEFAULT_SEGMENT: u64 = 0x1_0000_0000;

// The sections of elements that aren't structs.
const NO_SECTIONS: StructSize = StructSize {
    data_words: 0,
    pointers: 0,
};

/// A pointer being read, with the bytes of its segment.
///
/// Required of the fields: `place.bytes` has exactly the whole words of segment `place.segment` of
/// `source`, fewer than 2^32.
pub struct PointerReader<'a, A: ReaderArena> {
    /// What the pointer is read from.
    pub source: Source<'a, A>,
    /// Where the pointer's word is.
    pub place: Place<'a>,
    /// The nesting limit: how many levels of structs and lists may be entered from here; none if it
    /// is below 1.
    pub nesting_limit: i32,
    ghost held: { IsHeld (source_start A.ReaderArena source).segments place },
}

impl<'a, A: ReaderArena> Clone for PointerReader<'a, A> {
    ghost is_clone = { λ x y. y ≡ x };

    ghost is_infallible = { λ _. ⊤ };

    fn clone(&self) -> Result<Self, AllocError> {
        Ok(*self)
    }
}

impl<'a, A: ReaderArena> Copy for PointerReader<'a, A> {}

impl<'a, A: ReaderArena> PointerReader<'a, A> {
    ghost use Rattle.capnp_readers.specs.Readers.{IsTarget, read_by};
    ghost use Rattle.capnp_readers.specs.Calls.{IsRead, IsRefused, WhereRead, IsListRead, IsStructRead, AreBytesRead};
    ghost use Rattle.capnp_readers.specs.Values.{FitsElements, HasValue, ShowsStructOf, ShowsListOf, StaysIn, place_read, list_numbers, text_bytes, IsStructOrNull, FitsSize, IsBytes, IsText};

    /// Returns a null pointer that isn't in any message: its source is `Source::Nothing`, its place
    /// word 0 of segment 0, and its nesting limit `i32::MAX`. A pointer field that its struct
    /// doesn't have is read as this pointer, "from nothing".
    pub fn new_default() -> Self
        ensures source { result.source ≡ Source.Nothing }
        ensures place { (result.place.segment ≡ 0) × (result.place.at ≡ 0) }
        ensures nesting { result.nesting_limit ≡ i32.MAX }
    {
        Self::from_pointer(Pointer::new_default())
    }

    /// Returns the root pointer of a message, word 0 of segment 0 (encoding specification,
    /// "Messages"). Charges `lim` this one word, unless `arena` is a message being built. The
    /// reader's nesting limit is the arena's.
    ///
    /// Refusals: `MessageContainsOutOfBoundsPointer` if segment 0 has no word;
    /// `InvalidSegmentId(0)` if there is no segment; `TriedToReadFromNullArena` in a `NullArena`;
    /// `ReadLimitExceeded` if the limiter has no word left. A refusal leaves the limiter unchanged.
    pub fn get_root_from_arena(arena: &'a A, lim: &mut ReadLimiter) -> Result<Self, ErrorKind>
        ensures exactly { IsOk result ↔ Holds (message (A.segments arena.now)) 0 0 1
            × Affords (A.charging arena.now) lim.old 1 }
        ensures granted { OnOk result (lim.new ≡ charged (A.charging arena.now) lim.old 1) }
        ensures refused { OnErr result (lim.new ≡ lim.old) }
        ensures outside { IfErr result (λ k. (Holds (message (A.segments arena.now)) 0 0 1 → ⊥)
            → k ≡ misplaced (message (A.segments arena.now)) 0 (A.absent arena.now 0)) }
        ensures budget { IfErr result (λ k. Holds (message (A.segments arena.now)) 0 0 1
            → k ≡ ReadLimitExceeded) }
        ensures source { IfOk result (λ r. r.source ≡ Source.Arena arena.entry) }
        ensures place { IfOk result (λ r. (r.place.segment ≡ 0) × (r.place.at ≡ 0)) }
        ensures nesting { IfOk result (λ r. r.nesting_limit ≡ A.nesting arena.now) }
        ensures value { (t : Tree) (c : ℕ)
            → Means (message (A.segments arena.now)) (levels (A.nesting arena.now)) 0 0 t c
            → IfOk result (λ r. HasValue (read_by A.ReaderArena r) t) }
    {
        Ok(Self::from_pointer(Pointer::get_root_from_arena(arena, lim)?))
    }

    /// Returns a reader of the pointer at `place` of `arena`. Precondition: `place` is inside a
    /// segment of `arena`.
    pub fn at(arena: &'a A, place: PointerPlace, nesting_limit: i32) -> Self
        requires { IsPlace (message (A.segments arena.now)) place.segment place.word }
        ensures source { result.source ≡ Source.Arena arena.entry }
        ensures place { (result.place.segment ≡ place.segment) × (result.place.at ≡ place.word) }
        ensures nesting { result.nesting_limit ≡ nesting_limit }
    {
        Self::from_pointer(Pointer::at(arena, place, nesting_limit))
    }

    /// Returns a reader of the pointer in the first word of `bytes`, a field's default value.
    /// `bytes` is one segment, to which no far pointer leads; up to 7 bytes after its last whole
    /// word are ignored. Reading the pointer charges nothing, and its nesting limit is `i32::MAX`.
    /// Precondition: `bytes` has fewer than 2^32 words.
    ///
    /// Refuses with `MessageContainsOutOfBoundsPointer` if `bytes` has fewer than 8 bytes.
    pub fn from_default(bytes: &'a [u8]) -> Result<Self, ErrorKind>
        requires { length bytes.now / 8 < 2 ^ 32 }
        ensures exactly { IsOk result ↔ (8 ≤ length bytes.now) }
        ensures source { IfOk result (λ r. r.source ≡ Source.Default bytes.entry) }
        ensures place { IfOk result (λ r. (r.place.segment ≡ default_segment) × (r.place.at ≡ 0)) }
        ensures nesting { IfOk result (λ r. r.nesting_limit ≡ i32.MAX) }
        ensures named { IfErr result (λ k. k ≡ MessageContainsOutOfBoundsPointer) }
    {
        let words = bytes.len() / 8;
        if words == 0 {
            return Err(ErrorKind::MessageContainsOutOfBoundsPointer);
        }
        Ok(PointerReader {
            source: Source::Default(bytes),
            place: Place {
                segment: DEFAULT_SEGMENT,
                bytes: &bytes[..8 * words],
                at: 0,
            },
            nesting_limit: i32::MAX,
        })
    }

    /// Returns another reader of this pointer.
    pub fn reborrow(&self) -> Self
        ensures source { result.source ≡ self.now.source }
        ensures place { result.place ≡ self.now.place }
        ensures nesting { result.nesting_limit ≡ self.now.nesting_limit }
    {
        *self
    }

    /// Returns this pointer as a `Pointer`, the type whose calls copy the pointer's value, count
    /// its words, and test whether it is in canonical form.
    #[inline(always)]
    pub fn pointer(self) -> Pointer<'a, A>
        ensures source { result.source ≡ self.entry.source }
        ensures place { result.place ≡ self.entry.place }
        ensures nesting { result.nesting_limit ≡ self.entry.nesting_limit }
    {
        Pointer {
            source: self.source,
            place: self.place,
            nesting_limit: self.nesting_limit,
        }
    }

    /// Returns a reader of `pointer`.
    #[inline(always)]
    pub fn from_pointer(pointer: Pointer<'a, A>) -> Self
        ensures source { result.source ≡ pointer.entry.source }
        ensures place { result.place ≡ pointer.entry.place }
        ensures nesting { result.nesting_limit ≡ pointer.entry.nesting_limit }
    {
        PointerReader {
            source: pointer.source,
            place: pointer.place,
            nesting_limit: pointer.nesting_limit,
        }
    }

    /// Whether the pointer's word is zero, or there is no such word.
    pub fn is_null(&self) -> bool
        ensures { IsTrue result ↔ (word_of (read_by A.ReaderArena self.now) ≡ 0) }
    {
        self.place.word().is_null()
    }

    // The pointer of a default, in place of this one, which is null.
    #[inline(never)]
    fn default_pointer(self, expected: Expected, bytes: &'a [u8]) -> Result<Self, ErrorKind>
        requires null { word_of (read_by A.ReaderArena self) ≡ 0 }
        requires small { length bytes.now / 8 < 2 ^ 32 }
        ensures { let default = Some bytes.entry in IsRead A.ReaderArena
            (record { from = self.entry; expected = expectation expected; default = default })
            result }
    {
        let default = Self::from_default(bytes)?;
        let from = PointerReader {
            source: default.source,
            place: default.place,
            nesting_limit: self.nesting_limit,
        };
        if !from.is_null() {
            return Ok(from);
        }
        match null_default_error(expected) {
            Some(kind) => Err(kind),
            None => Ok(from),
        }
    }

    // The pointer that a call reads: this one, or that of the default if this one is null.
    #[inline(always)]
    fn or_default(self, expected: Expected, default: Option<&'a [u8]>) -> Result<Self, ErrorKind>
        requires small { IfSome default (λ bytes. length bytes.now / 8 < 2 ^ 32) }
        ensures { IsRead A.ReaderArena
            (record { from = self.entry; expected = expectation expected; default = default.entry })
            result }
    {
        match default {
            None => Ok(self),
            Some(bytes) => {
                if self.is_null() {
                    self.default_pointer(expected, bytes)
                } else {
                    Ok(self)
                }
            }
        }
    }

    // The pointer that a call reads, and what it leads to.
    #[inline(always)]
    fn read_as_expected(
        self,
        expected: Expected,
        lim: &mut ReadLimiter,
        default: Option<&'a [u8]>,
    ) -> Result<(Self, Object<'a>), ErrorKind>
        requires small { IfSome default (λ bytes. length bytes.now / 8 < 2 ^ 32) }
        ensures read { IfOk result (λ x. IsRead A.ReaderArena
            (record { from = self.entry; expected = expectation expected; default = default.entry })
            (Ok x.0)) }
        ensures object { IfOk result (λ x.
            IsObject Value (reading_at A.ReaderArena x.0.source x.0.place (pos 1))
            lim.old lim.new x.1) }
        ensures given { IfOk result
            (λ x. IsExpected expected (read_by A.ReaderArena x.0).levels x.1) }
        ensures few { IfOk result (λ x. IsFew x.1) }
        ensures exactly { IsOk result ↔ WhereRead A.ReaderArena
            (record { from = self.entry; expected = expectation expected; default = default.entry })
            (λ p. HasExpected (expectation expected) (read_by A.ReaderArena p) lim.old) }
        ensures refused { IfErr result (IsRefused A.ReaderArena
            (record { from = self.entry; expected = expectation expected; default = default.entry })
            lim.old lim.new) }
    {
        let from = self.or_default(expected, default)?;
        let object = from
            .source
            .read_expected(expected, from.place, from.nesting_limit, lim)?;
        Ok((from, object))
    }

    /// Returns the struct that the pointer leads to ("Structs"). If the pointer is null, returns
    /// the struct of `default`. If there is no default either, or the default's pointer is null
    /// too, returns a struct without sections.
    ///
    /// Takes a level: the struct's nesting limit is one less than that of `self`. If the pointer
    /// isn't null, counts it in `lim` as followed, and charges `lim` the words of its landing pads
    /// and of the struct, before it reads them.
    ///
    /// Refusals: `MessageIsTooDeeplyNestedOrContainsCycles` if the nesting limit of `self` is below
    /// 1; `MessageContainsNonStructPointerWhereStructPointerWasExpected` if the pointer leads to
    /// something other than a struct; `MessageContainsOutOfBoundsPointer` if a landing pad or the
    /// struct is outside of its segment; `InvalidSegmentId` if a far pointer names a segment that
    /// doesn't exist; `ReadLimitExceeded` if `lim` has fewer words left than the call has to
    /// charge; for a malformed landing pad, those of `PointerReader::next`. What was charged before
    /// a refusal stays charged.
    ///
    /// `default` is one segment with its pointer in word 0. It is read only if `self` is null, with
    /// the nesting limit of `self`; reading it counts and charges nothing. Refuses a default under
    /// 8 bytes with `MessageContainsOutOfBoundsPointer`, and one whose pointer is a far pointer
    /// with `TriedToReadFromNullArena`. Precondition: `default` has fewer than 2^32 words.
    #[inline(always)]
    pub fn get_struct(
        self,
        lim: &mut ReadLimiter,
        default: Option<&'a [u8]>,
    ) -> Result<StructReader<'a, A>, ErrorKind>
        requires small { IfSome default (λ bytes. length bytes.now / 8 < 2 ^ 32) }
        ensures read { IfOk result (λ r. WhereRead A.ReaderArena
            (record { from = self.entry; expected = struct_expected; default = default.entry })
            (λ p. IsStructRead A.ReaderArena p lim.old lim.new r)) }
        ensures exactly { IsOk result ↔ WhereRead A.ReaderArena
            (record { from = self.entry; expected = struct_expected; default = default.entry })
            (λ p. HasExpected struct_expected (read_by A.ReaderArena p) lim.old) }
        ensures refused { IfErr result (IsRefused A.ReaderArena
            (record { from = self.entry; expected = struct_expected; default = default.entry })
            lim.old lim.new) }
        ensures value { (t : Tree) → HasValue (place_read A.ReaderArena self.entry default.entry) t
            → IfOk result (λ r. ShowsStructOf A.ReaderArena r t) }
        ensures stays { (from : Reading)
            → StaysIn from (place_read A.ReaderArena self.entry default.entry)
            → IfOk result (λ r. StaysIn from (source_start A.ReaderArena r.source)) }
        ensures spent { let place = place_read A.ReaderArena self.entry default.entry in
            (t : Tree) (c : ℕ) → t ≢ Null → MeansThere place t c
            → IfOk result (λ r. (shows : ShowsStructOf A.ReaderArena r t)
            → Paid place.charging lim.old lim.new (c - shows.cost) 1) }
        ensures answered { let place = place_read A.ReaderArena self.entry default.entry in
            (t : Tree) (c : ℕ) → IfSome default.entry (λ bytes. 8 ≤ length bytes.now)
            → IsStructOrNull t → MeansThere place t c → Affords place.charging lim.old c
            → IsOk result }
    {
        let found = self.read_as_expected(Expected::Struct, lim, default)?;
        let (from, object) = found;
        match from.target_of(object) {
            Target::Struct(found) => Ok(found),
            _ => Ok(StructReader::new_default()),
        }
    }

    /// Returns the list that the pointer leads to ("Lists"). Its elements have to be as wide as
    /// `expected_element_size` or wider, and keep their own width in the list returned. `Void` and
    /// `InlineComposite` accept elements of any width except bits. If the pointer is null, returns
    /// the list of `default`. If there is no default either, or the default's pointer is null too,
    /// returns a list of void without elements.
    ///
    /// Precondition: `default` has fewer than 2^32 words.
    ///
    /// Takes a level: the list's nesting limit is one less than that of `self`. Refuses with
    /// `NestingLimitExceeded` if the nesting limit of `self` is below 1. Otherwise counts, charges
    /// and refuses like `PointerReader::next`, except for an object that isn't a list: refuses it
    /// with `MessageContainsNonListPointerWhereListPointerWasExpected`, before its words are
    /// charged.
    ///
    /// Refusals after all words are charged: `FoundBitListWhereStructListWasExpected` for a list of
    /// bits, unless bits are expected; `MessageContainsListWithIncompatibleElementType` for other
    /// elements that are too narrow. For a list of structs:
    /// `FoundStructListWhereBitListWasExpected` if bits are expected;
    /// `ExpectedAPrimitiveListButGotAListOfPointerOnlyStructs` if numbers are expected and the
    /// structs have no data; `ExpectedAPointerListButGotAListOfDataOnlyStructs` if pointers are
    /// expected and the structs have no pointers.
    ///
    /// `default` is read as in `PointerReader::get_struct`.
    pub fn get_list(
        self,
        lim: &mut ReadLimiter,
        expected_element_size: ElementSize,
        default: Option<&'a [u8]>,
    ) -> Result<ListReader<'a, A>, ErrorKind>
        requires small { IfSome default (λ bytes. length bytes.now / 8 < 2 ^ 32) }
        ensures read { let size = expected_element_size in IfOk result (λ r. WhereRead A.ReaderArena
            (record { from = self.entry; expected = list_expected size; default = default.entry })
            (λ p. IsListRead A.ReaderArena size p lim.old lim.new r)) }
        ensures exactly { let size = expected_element_size in IsOk result ↔ WhereRead A.ReaderArena
            (record { from = self.entry; expected = list_expected size; default = default.entry })
            (λ p. HasExpected (list_expected size) (read_by A.ReaderArena p) lim.old) }
        ensures refused { let size = expected_element_size in IfErr result (IsRefused A.ReaderArena
            (record { from = self.entry; expected = list_expected size; default = default.entry })
            lim.old lim.new) }
        ensures value { (t : Tree) → HasValue (place_read A.ReaderArena self.entry default.entry) t
            → IfOk result (λ r. ShowsListOf A.ReaderArena r t) }
        ensures fits { IfOk result (FitsElements A.ReaderArena expected_element_size) }
        ensures stays { (from : Reading)
            → StaysIn from (place_read A.ReaderArena self.entry default.entry)
            → IfOk result (λ r. StaysIn from (source_start A.ReaderArena r.source)) }
        ensures spent { let place = place_read A.ReaderArena self.entry default.entry in
            (t : Tree) (c : ℕ) → t ≢ Null → MeansThere place t c
            → IfOk result (λ r. (shows : ShowsListOf A.ReaderArena r t)
            → Paid place.charging lim.old lim.new (c - shows.cost) 1) }
        ensures answered { let place = place_read A.ReaderArena self.entry default.entry in
            (t : Tree) (c : ℕ) → IfSome default.entry (λ bytes. 8 ≤ length bytes.now)
            → FitsSize expected_element_size t → MeansThere place t c
            → Affords place.charging lim.old c → IsOk result }
    {
        let expected = Expected::List(expected_element_size);
        let found = self.read_as_expected(expected, lim, default)?;
        let (from, object) = found;
        match from.target_of(object) {
            Target::List(found) => Ok(found),
            _ => Ok(ListReader::new_default()),
        }
    }

    /// Returns the bytes of the text that the pointer leads to, as a slice of the message, without
    /// the zero byte at the text's end ("Lists"). If the pointer is null, returns the text of
    /// `default`, or no bytes if there is no default. Precondition: `default` has fewer than 2^32
    /// words.
    ///
    /// Takes no level of the nesting limit. If the pointer isn't null, counts it in `lim` as
    /// followed, and charges `lim` the words of its landing pads and of the bytes, before it reads
    /// them.
    ///
    /// Refusals before the words of the bytes are charged:
    /// `MessageContainsNonListPointerWhereTextWasExpected` if the object isn't a list;
    /// `MessageContainsListPointerOfNonBytesWhereTextWasExpected` if the list's elements aren't
    /// bytes. Refusal after these words are charged: `MessageContainsTextThatIsNotNULTerminated` if
    /// there are no bytes or the last byte isn't 0. Other refusals are those of
    /// `PointerReader::next`.
    ///
    /// `default` is read as in `PointerReader::get_struct`. A default whose pointer is null is
    /// refused like an object that isn't a list.
    #[inline(always)]
    pub fn get_text(
        self,
        lim: &mut ReadLimiter,
        default: Option<&'a [u8]>,
    ) -> Result<&'a [u8], ErrorKind>
        requires small { IfSome default (λ bytes. length bytes.now / 8 < 2 ^ 32) }
        ensures read { IfOk result (λ bytes. WhereRead A.ReaderArena
            (record { from = self.entry; expected = text_expected; default = default.entry })
            (λ p. AreBytesRead A.ReaderArena 1 p lim.old lim.new bytes.now)) }
        ensures exactly { IsOk result ↔ WhereRead A.ReaderArena
            (record { from = self.entry; expected = text_expected; default = default.entry })
            (λ p. HasExpected text_expected (read_by A.ReaderArena p) lim.old) }
        ensures refused { IfErr result (IsRefused A.ReaderArena
            (record { from = self.entry; expected = text_expected; default = default.entry })
            lim.old lim.new) }
        ensures value { (t : Tree) → HasValue (place_read A.ReaderArena self.entry default.entry) t
            → IfOk result (λ bytes. bytes.now ≡ text_bytes t) }
        ensures spent { let place = place_read A.ReaderArena self.entry default.entry in
            (t : Tree) (c : ℕ) → t ≢ Null → MeansThere place t c
            → OnOk result (Paid place.charging lim.old lim.new c 1) }
        ensures answered { let place = place_read A.ReaderArena self.entry default.entry in
            (t : Tree) (c : ℕ)
            → IfSome default.entry (λ bytes. (8 ≤ length bytes.now) × (t ≢ Null))
            → IsText t → MeansThere place t c → Affords place.charging lim.old c → IsOk result }
    {
        let found = self.read_as_expected(Expected::Text, lim, default)?;
        match found.1 {
            Object::Flat { start, count, .. } => {
                let bytes = bytes_at(start, count - 1);
                bytes_are_below_256(bytes);
                Ok(bytes)
            }
            _ => Ok(&[]),
        }
    }

    /// Returns the bytes of the data that the pointer leads to, as a slice of the message
    /// ("Lists"). If the pointer is null, returns the data of `default`, or no bytes if there is no
    /// default. Precondition: `default` has fewer than 2^32 words.
    ///
    /// Counts, charges and refuses like `PointerReader::get_text`, with three differences. The data
    /// may be empty, and its last byte, which can have any value, is returned as well. An object
    /// that isn't a list is refused with `MessageContainsNonListPointerWhereDataWasExpected`. A
    /// list whose elements aren't bytes is refused with
    /// `MessageContainsListPointerOfNonBytesWhereDataWasExpected`.
    pub fn get_data(
        &self,
        lim: &mut ReadLimiter,
        default: Option<&'a [u8]>,
    ) -> Result<&'a [u8], ErrorKind>
        requires small { IfSome default (λ bytes. length bytes.now / 8 < 2 ^ 32) }
        ensures read { IfOk result (λ bytes. WhereRead A.ReaderArena
            (record { from = self.now; expected = data_expected; default = default.entry })
            (λ p. AreBytesRead A.ReaderArena 0 p lim.old lim.new bytes.now)) }
        ensures exactly { IsOk result ↔ WhereRead A.ReaderArena
            (record { from = self.now; expected = data_expected; default = default.entry })
            (λ p. HasExpected data_expected (read_by A.ReaderArena p) lim.old) }
        ensures refused { IfErr result (IsRefused A.ReaderArena
            (record { from = self.now; expected = data_expected; default = default.entry })
            lim.old lim.new) }
        ensures value { (t : Tree) → HasValue (place_read A.ReaderArena self.now default.entry) t
            → IfOk result (λ bytes. bytes.now ≡ list_numbers t) }
        ensures spent { let place = place_read A.ReaderArena self.now default.entry in
            (t : Tree) (c : ℕ) → t ≢ Null → MeansThere place t c
            → OnOk result (Paid place.charging lim.old lim.new c 1) }
        ensures answered { let place = place_read A.ReaderArena self.now default.entry in
            (t : Tree) (c : ℕ)
            → IfSome default.entry (λ bytes. (8 ≤ length bytes.now) × (t ≢ Null))
            → IsBytes t → MeansThere place t c → Affords place.charging lim.old c
            → IsOk result }
    {
        let found = self.read_as_expected(Expected::Data, lim, default)?;
        match found.1 {
            Object::Flat { start, count, .. } => {
                let bytes = bytes_at(start, count);
                bytes_are_below_256(bytes);
                Ok(bytes)
            }
            _ => Ok(&[]),
        }
    }

    /// Returns the index of the pointer's capability in the message's capability table
    /// ("Capabilities (Interfaces)"). Doesn't follow the pointer, and counts and charges nothing.
    ///
    /// Refusals: `MessageContainsNullCapabilityPointer` if the pointer is null;
    /// `MessageContainsNonCapabilityPointerWhereCapabilityPointerWasExpected` if the pointer is
    /// neither null nor a capability pointer itself, even if it is a far pointer to one.
    pub fn get_capability(&self) -> Result<u32, ErrorKind>
        ensures exactly { IsOk result ↔ (lower_half (word_of (read_by A.ReaderArena self.now))
            ≡ 3) }
        ensures index { IfOk result (λ i. i ≡ upper_half
            (word_of (read_by A.ReaderArena self.now))) }
        ensures null { IfErr result (λ k. word_of (read_by A.ReaderArena self.now) ≡ 0
            → k ≡ MessageContainsNullCapabilityPointer) }
        ensures another { IfErr result (λ k. word_of (read_by A.ReaderArena self.now) ≢ 0
            → k ≡ MessageContainsNonCapabilityPointerWhereCapabilityPointerWasExpected) }
    {
        let word = self.place.word();
        if word.is_null() {
            return Err(ErrorKind::MessageContainsNullCapabilityPointer);
        }
        if !word.is_capability() {
            return Err(
                ErrorKind::MessageContainsNonCapabilityPointerWhereCapabilityPointerWasExpected,
            );
        }
        Ok(word.cap_index())
    }

    /// Returns what the pointer leads to: nothing, a struct, a list or a capability. The answer is
    /// the kind of the word that describes the object: of the pointer itself, of its landing pad,
    /// or, for a double-far pointer, of the landing pad's second word. The object itself is neither
    /// checked nor charged.
    ///
    /// If the pointer isn't null, counts it in `lim` as followed, and charges `lim` the words of
    /// its landing pads. If it is null, or in a default value, or in an arena that is being built,
    /// counts and charges nothing. Refusals: `UnexpectedFarPointer` if the word that describes the
    /// object is a far pointer; `UnknownPointerType` if that word is of no known kind; those of
    /// `PointerReader::next` if the pointer can't be followed to that word.
    pub fn get_pointer_type(&self, lim: &mut ReadLimiter) -> Result<PointerType, ErrorKind>
        ensures of_type { IfOk result (IsOfType (read_by A.ReaderArena self.now) lim.old lim.new) }
        ensures exactly { IsOk result ↔ (t : PointerType) × (left : Meter)
            × IsOfType (read_by A.ReaderArena self.now) lim.old left t }
        ensures refused { IfErr result
            (HasNoType (read_by A.ReaderArena self.now) lim.old lim.new) }
    {
        self.source.read_type(self.place, self.nesting_limit, lim)
    }

    /// Returns what the pointer leads to: one object, without its children ("Structs", "Lists",
    /// "Inter-Segment Pointers", "Capabilities (Interfaces)").
    ///
    /// If the pointer isn't null, counts it in `lim` as followed, and charges `lim` the words of
    /// its landing pads, the object's own words, and one word for each list element without width,
    /// before it reads them. If the pointer is null, or in a default value, or in an arena that is
    /// being built, nothing is counted or charged. Refuses with the first fault found, like
    /// `Source::read_object`; what was charged before stays charged.
    pub fn next(&self, lim: &mut ReadLimiter) -> Result<Target<'a, A>, ErrorKind>
        ensures target { IfOk result (IsTarget A.ReaderArena self.now lim.old lim.new) }
        ensures exactly { IsOk result ↔ CanBeRead Value (read_by A.ReaderArena self.now) lim.old }
        ensures refused { IfErr result
            (NotRead Value (read_by A.ReaderArena self.now) lim.old lim.new) }
    {
        let object = self
            .source
            .read_object(self.place, self.nesting_limit, lim)?;
        Ok(self.target_of(object))
    }

    // The object that the pointer leads to, as a reader of the same source with one level less.
    #[inline(always)]
    fn target_of(self, object: Object<'a>) -> Target<'a, A>
        requires read { (m : Meter) × (m' : Meter)
            × IsObject Value (read_by A.ReaderArena self) m m' object }
        ensures { (m : Meter) (m' : Meter)
            → IsObject Value (read_by A.ReaderArena self.entry) m m' object.entry
            → IsTarget A.ReaderArena self.entry m m' result }
    {
        match object {
            Object::Null => Target::Null,
            Object::Capability(index) => Target::Cap(index),
            Object::Struct { start, size } => Target::Struct(StructReader::starting_at(
                self.source,
                start,
                size,
                self.nesting_limit - 1,
            )),
            Object::Flat { start, size, count } => Target::List(ListReader::starting_at(
                self.source,
                start,
                size,
                NO_SECTIONS,
                count,
                self.nesting_limit - 1,
            )),
            Object::Pointers { start, count } => Target::List(ListReader::starting_at(
                self.source,
                start,
                ElementSize::Pointer,
                NO_SECTIONS,
                count,
                self.nesting_limit - 1,
            )),
            Object::Structs { start, size, count } => Target::List(ListReader::starting_at(
                self.source,
                start,
                ElementSize::InlineComposite,
                size,
                count,
                self.nesting_limit - 1,
            )),
        }
    }
}

// The `count` bytes from a place on.
fn bytes_at<'a>(start: Place<'a>, count: u32) -> &'a [u8]
    requires { 8 * start.at + count ≤ length start.bytes.now }
    ensures { result.now ≡ take count (drop (8 * start.entry.at) start.entry.bytes.now) }
{
    let first = 8 * start.at as usize;
    &start.bytes[first..first + count as usize]
}

// Each byte is below 256. Does nothing; its contract is that fact.
#[inline(always)]
fn bytes_are_below_256(bytes: &[u8])
    ensures { (i : ℕ) → slice_index bytes.now i < 256 }
{}

// The refusal of a default whose pointer is null; for a struct and a list, it is like no default.
fn null_default_error(expected: Expected) -> Option<ErrorKind>
    ensures { result ≡ (expectation expected).null_default }
{
    match expected {
        Expected::Struct | Expected::List(_) => None,
        Expected::Text => Some(ErrorKind::MessageContainsNonListPointerWhereTextWasExpected),
        Expected::Data => Some(ErrorKind::MessageContainsNonListPointerWhereDataWasExpected),
    }
}
