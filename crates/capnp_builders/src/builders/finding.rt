//! Finds what a pointer leads to, for writing: first replaces a null pointer by a default value,
//! and widens a struct or a list of structs that is too small (encoding specification, "Structs",
//! "Lists" and "Default Values").
ghost use Rattle.std.specs.Prelude.{◌-◌, ◌≡◌, ◌+◌, ◌*◌, ◌^◌, ◌<◌, ◌≤◌, true, IsNone, IsOk, IfOk, IfErr, OnOk, OnErr};
ghost use Rattle.capnp_in_place.specs.Existing.{AreBytesInside, data_in, is_unfound, text_in};
ghost use Rattle.capnp_format.specs.Forest.{target};
ghost use Rattle.capnp_format.specs.Segments.{word_at, Grows};
ghost use Rattle.capnp_format.specs.Word.{struct_word};
ghost use Rattle.capnp_in_place.specs.InPlace.{LendsBytes};
ghost use Rattle.capnp_allocation.specs.Makes.{ReachesArena};
ghost use Rattle.capnp_allocation.specs.Memory.{KeepsMemory, ComesAfter, TakesWords, start_of};
ghost use Rattle.capnp_allocation.specs.Stored.{IsStored};
ghost use Rattle.capnp_words.specs.Sizes.{size_number};
ghost use Rattle.capnp_readers.specs.Readers.{IsListPlace};
ghost use Rattle.capnp_in_place.specs.Opening.{IsNoWider};
ghost use Rattle.capnp_in_place.specs.RowsRemade.{RefusesWider};
ghost use Rattle.capnp_builders.specs.Defaults.{DefaultFits, IsIgnoredDefault, PutsDefaultBy, TakesDefault, object_default};
ghost use Rattle.capnp_builders.specs.Found.{FindsList, FindsBytes};
ghost use Rattle.capnp_builders.specs.Opening.{FindsStruct, FindsStructs, StructFindFits, StructsFindFits};
ghost use Rattle.capnp_builders.specs.Places.{IsAligned};

use super::PointerBuilder;
use super::defaults::{put_blob_default, put_default};
use super::found::{find_list, found_bytes, found_list};
use super::list_builder::ListBuilder;
use super::places::struct_place;
use super::struct_builder::StructBuilder;
use capnp_arena_traits::arena::BuilderArena;
use capnp_in_place::existing::{self, ExistingBytes};
use capnp_in_place::lent;
use capnp_in_place::opening::{open_struct, open_struct_list};
use capnp_readers::readers::{ListPlace, StructPlace};
use capnp_words::error::ErrorKind;
use capnp_words::wire_pointer::{ElementSize, StructSize};

impl<'a, A: BuilderArena> PointerBuilder<'a, A> {
    ghost use Rattle.capnp_builders.specs.Building.{FindsStored, GivesList, GivesStruct, HandsOn, IsNull, LooksUp, OfStored, StaysThere, built, calling};

    /// If the pointer is null, makes it lead to a plain copy of the value of `default` ("Default
    /// Values"). `default` is one segment, and its first word is the pointer to the value. A
    /// pointer that isn't null stays as it is. A null pointer stays null if `default` is `None` or
    /// starts with a null word.
    ///
    /// Preconditions: the pointer's word is allocated; `default` has fewer than 2^32 words.
    ///
    /// Reading `default` charges nothing, and may enter `i32::MAX` levels of structs and lists.
    /// Refuses only if the pointer is null. Refusals: `MessageContainsOutOfBoundsPointer` if
    /// `default` has fewer than 8 bytes, or one of its pointers leads out of it;
    /// `UnknownPointerType` for a capability in `default`; `TriedToReadFromNullArena` for a far
    /// pointer in `default`; for any other fault of `default`, the refusal of reading it. If no
    /// segment has room for an object of the copy: `AllocationFailed` if memory runs out;
    /// `MessageTooLarge(n)` if n is above 536,870,911, where n is the number of that object's
    /// words, plus one for a landing pad; `MessageTooLarge(usize::MAX)` if the message already has
    /// 4,294,967,295 segments. After a refusal the pointer is null, and the words that were
    /// allocated are zero.
    pub fn put_default(&mut self, default: Option<&[u8]>) -> Result<(), ErrorKind>
        requires { TakesDefault (built A.view self.old) default }
        ensures put { PutsDefaultBy (object_default default.entry)
            (calling A.view self.old self.new) result }
        ensures none { IsNone default.entry → IsOk result
            × (A.view self.new.arena.now ≡ A.view self.old.arena.now) }
        ensures fits { DefaultFits default.entry (A.view self.old.arena.now) self.old.segment
            → IsOk result }
        ensures grows { Grows (A.view self.old.arena.now).words (A.view self.new.arena.now).words }
        ensures stays { StaysThere A.view self.old self.new }
    {
        put_default(&mut *self.arena, self.segment, self.at, default)
    }

    /// Does what `get_struct` does, but returns the struct's place. `into_struct` makes the builder
    /// from the place. The contract also states what the message is after a refusal. Preconditions:
    /// the pointer's word is allocated; `default` has fewer than 2^32 words.
    #[inline(always)]
    pub fn get_struct_place(
        &mut self,
        size: StructSize,
        default: Option<&[u8]>,
    ) -> Result<StructPlace, ErrorKind>
        requires { TakesDefault (built A.view self.old) default }
        ensures found { FindsStored A.view (FindsStruct size default.entry)
            self.old self.new.arena.now result }
        ensures fits { StructFindFits size default.entry
            (A.view self.old.arena.now) self.old.segment self.old.at → IsOk result }
        ensures taken { IsNull (built A.view self.old) → IsIgnoredDefault default.entry
            → OnOk result (TakesWords (A.view self.old.arena.now) (A.view self.new.arena.now)
            self.old.segment (size.data_words + size.pointers)) }
        ensures empty { IsNull (built A.view self.old) → IsIgnoredDefault default.entry
            → size.data_words + size.pointers ≡ 0
            → OnOk result (word_at (A.view self.new.arena.now).words self.old.segment self.old.at
            ≡ struct_word (2 ^ 30 - 1) 0 0) }
        ensures behind { IsNull (built A.view self.old) → IsIgnoredDefault default.entry
            → OnOk result (ComesAfter (A.view self.old.arena.now) self.old.segment
            (size.data_words + size.pointers)
            (start_of (target (A.view self.new.arena.now).words self.old.segment self.old.at))) }
        ensures refused { IsNull (built A.view self.old) → IsIgnoredDefault default.entry
            → OnErr result ((A.view self.new.arena.now).words ≡ (A.view self.old.arena.now).words) }
        ensures wide { IfOk result (λ place.
            (64 * size.data_words ≤ place.bits) × (size.pointers ≤ place.pointers)) }
        ensures aligned { IfOk result IsAligned }
        ensures set { (IsNull (built A.view self.old) → ⊥)
            → IfErr result (IsNoWider size (calling A.view self.old self.new)) }
        ensures grows { Grows (A.view self.old.arena.now).words (A.view self.new.arena.now).words }
        ensures stays { StaysThere A.view self.old self.new }
    {
        put_default(&mut *self.arena, self.segment, self.at, default)?;
        let opened = open_struct(&mut *self.arena, self.segment, self.at, size)?;
        Ok(struct_place(opened))
    }

    /// Returns the struct that the pointer leads to, for writing, with sections at least as large
    /// as in `size` ("Structs"). A struct that is large enough is unchanged. If a section is too
    /// small, moves the struct to new words, in which each section has the larger of its old size
    /// and its size in `size`. The new struct has the old data, followed by zeros, and the old
    /// children, followed by null pointers. If the pointer is null, first copies the value of
    /// `default` to it, like `PointerBuilder::put_default`; if the pointer is still null then,
    /// makes a struct of exactly `size`, all zero.
    ///
    /// Preconditions: the pointer's word is allocated; `default` has fewer than 2^32 words.
    ///
    /// Refusals: `MessageContainsNonStructPointerWhereStructPointerWasExpected` if the pointer
    /// leads to something other than a struct; those of `put_default`. If no segment has room for
    /// the new struct, or for a landing pad: `AllocationFailed` if memory runs out;
    /// `MessageTooLarge(usize::MAX)` if the message already has 4,294,967,295 segments; the old
    /// struct, or null, then stays. A default value that replaced null stays even if the call is
    /// refused afterwards.
    #[inline(always)]
    pub fn get_struct(
        mut self,
        size: StructSize,
        default: Option<&[u8]>,
    ) -> Result<StructBuilder<'a, A>, ErrorKind>
        requires { TakesDefault (built A.view self) default }
        ensures arena { IfOk result (λ b. HandsOn A.view self.entry.arena b.arena) }
        ensures grows { IfOk result (λ b.
            Grows (A.view self.entry.arena.now).words (A.view b.arena.now).words) }
        ensures found { ReachesArena GivesStruct
            (FindsStored A.view (FindsStruct size default.entry) self.entry) result }
        ensures fits { StructFindFits size default.entry
            (A.view self.entry.arena.now) self.entry.segment self.entry.at → IsOk result }
        ensures taken { IsNull (built A.view self.entry) → IsIgnoredDefault default.entry
            → IfOk result
            (λ b. TakesWords (A.view self.entry.arena.now) (A.view b.arena.now)
            self.entry.segment (size.data_words + size.pointers)) }
        ensures empty { IsNull (built A.view self.entry) → IsIgnoredDefault default.entry
            → size.data_words + size.pointers ≡ 0
            → IfOk result (λ b.
            word_at (A.view b.arena.now).words self.entry.segment self.entry.at
            ≡ struct_word (2 ^ 30 - 1) 0 0) }
        ensures behind { IsNull (built A.view self.entry) → IsIgnoredDefault default.entry
            → IfOk result (λ b. ComesAfter (A.view self.entry.arena.now) self.entry.segment
            (size.data_words + size.pointers) (start_of
            (target (A.view b.arena.now).words self.entry.segment self.entry.at))) }
        ensures wide { IfOk result (λ b.
            (64 * size.data_words ≤ b.place.bits) × (size.pointers ≤ b.place.pointers)) }
    {
        let place = self.get_struct_place(size, default)?;
        Ok(self.into_struct(place))
    }

    /// Does what `get_struct_list` does, but returns the list's place. `into_list` makes the
    /// builder from the place. The contract also states what the message is after a refusal.
    /// Preconditions: the pointer's word is allocated; `default` has fewer than 2^32 words.
    pub fn get_struct_list_place(
        &mut self,
        size: StructSize,
        default: Option<&[u8]>,
    ) -> Result<ListPlace, ErrorKind>
        requires { TakesDefault (built A.view self.old) default }
        ensures found { FindsStored A.view (FindsStructs size default.entry)
            self.old self.new.arena.now result }
        ensures fits { StructsFindFits size default.entry
            (A.view self.old.arena.now) self.old.segment self.old.at → IsOk result }
        ensures set { (IsNull (built A.view self.old) → ⊥)
            → IfErr result
            (RefusesWider
            (IsStored (A.view self.old.arena.now).words self.old.segment self.old.at)
            size (A.view self.old.arena.now) (A.view self.new.arena.now)) }
        ensures grows { Grows (A.view self.old.arena.now).words (A.view self.new.arena.now).words }
        ensures stays { StaysThere A.view self.old self.new }
    {
        put_default(&mut *self.arena, self.segment, self.at, default)?;
        let opened = open_struct_list(&mut *self.arena, self.segment, self.at, size)?;
        Ok(found_list(self.segment, opened))
    }

    /// Returns the list that the pointer leads to, for writing, as a list of structs with sections
    /// at least as large as in `size` ("Lists"). Preconditions: the pointer's word is allocated;
    /// `default` has fewer than 2^32 words.
    ///
    /// If the elements are structs that are large enough, the list is unchanged. Any other list,
    /// except a list of bits, is moved to new words as a list of structs. Each section has the
    /// larger of its old size and its size in `size`; a number becomes the lowest bits of a
    /// struct's first data word, and a pointer becomes a struct's first pointer. If the pointer is
    /// null, first copies the value of `default` to it, like `PointerBuilder::put_default`; if the
    /// pointer is still null then, returns a list of void without elements, and changes nothing.
    ///
    /// Refusals: `ExistingPointerIsNotAList` if the pointer leads to something other than a list;
    /// `FoundBitListWhereStructListWasExpected` for a list of bits; `MessageTooLarge(n)` if the new
    /// elements would have n words, and n is 2^29 or more; those of `put_default`. If no segment
    /// has room for the new list, or for a landing pad: `AllocationFailed` if memory runs out;
    /// `MessageTooLarge(n)` if n is above 536,870,911, where n is the number of the new elements'
    /// words, plus two for the tag and a landing pad; `MessageTooLarge(usize::MAX)` if the message
    /// already has 4,294,967,295 segments; the old list then stays. A default value that replaced
    /// null stays even if the call is refused afterwards.
    pub fn get_struct_list(
        mut self,
        size: StructSize,
        default: Option<&[u8]>,
    ) -> Result<ListBuilder<'a, A>, ErrorKind>
        requires { TakesDefault (built A.view self) default }
        ensures arena { IfOk result (λ b. HandsOn A.view self.entry.arena b.arena) }
        ensures grows { IfOk result (λ b.
            Grows (A.view self.entry.arena.now).words (A.view b.arena.now).words) }
        ensures found { ReachesArena GivesList
            (FindsStored A.view (FindsStructs size default.entry) self.entry) result }
        ensures fits { StructsFindFits size default.entry
            (A.view self.entry.arena.now) self.entry.segment self.entry.at → IsOk result }
    {
        let place = self.get_struct_list_place(size, default)?;
        Ok(self.into_list(place))
    }

    /// Does what `get_list` does, but returns the list's place. `into_list` makes the builder from
    /// the place. The contract also states what the message is after a refusal. Preconditions: the
    /// pointer's word is allocated; `default` has fewer than 2^32 words; `size` isn't
    /// `InlineComposite`.
    pub fn get_list_place(
        &mut self,
        size: ElementSize,
        default: Option<&[u8]>,
    ) -> Result<ListPlace, ErrorKind>
        requires takes { TakesDefault (built A.view self.old) default }
        requires plain { size_number size ≤ 6 }
        ensures found { LooksUp A.view (FindsList size default.entry)
            self.old self.new.arena.now result }
        ensures inside { OfStored (built A.view self.old)
            (λ t. IfOk result (IsListPlace (A.view self.new.arena.now).words)) }
        ensures grows { Grows (A.view self.old.arena.now).words (A.view self.new.arena.now).words }
        ensures stays { StaysThere A.view self.old self.new }
    {
        put_default(&mut *self.arena, self.segment, self.at, default)?;
        find_list(&*self.arena, self.segment, self.at, size)
    }

    /// Returns the list that the pointer leads to, for writing. Never changes the list, and refuses
    /// one whose elements are narrower than `size`. If the pointer is null, first copies the value
    /// of `default` to it, like `PointerBuilder::put_default`; if the pointer is still null then,
    /// returns a list of void without elements. Preconditions: the pointer's word is allocated;
    /// `default` has fewer than 2^32 words; `size` isn't `InlineComposite`.
    ///
    /// Refusals: `ExistingPointerIsNotAList` if the pointer leads to something other than a list;
    /// `FoundStructListWhereBitListWasExpected` for a list of structs if `size` is `Bit`; those of
    /// `put_default`; otherwise `ExistingListValueIsIncompatibleWithExpectedType` if the elements
    /// have fewer bits of data or fewer pointers than `size`. This includes structs without data
    /// words if `size` is that of numbers, and structs without pointers if `size` is `Pointer`. A
    /// default value that replaced null stays even if the call is refused afterwards.
    pub fn get_list(
        mut self,
        size: ElementSize,
        default: Option<&[u8]>,
    ) -> Result<ListBuilder<'a, A>, ErrorKind>
        requires takes { TakesDefault (built A.view self) default }
        requires plain { size_number size ≤ 6 }
        ensures arena { IfOk result (λ b. HandsOn A.view self.entry.arena b.arena) }
        ensures grows { IfOk result (λ b.
            Grows (A.view self.entry.arena.now).words (A.view b.arena.now).words) }
        ensures found { ReachesArena GivesList
            (LooksUp A.view (FindsList size default.entry) self.entry) result }
        ensures inside { OfStored (built A.view self.entry)
            (λ t. IfOk result (λ b. IsListPlace (A.view b.arena.now).words b.place)) }
    {
        let place = self.get_list_place(size, default)?;
        Ok(self.into_list(place))
    }

    /// Does what `get_data` does, but returns where the data is instead of lending its bytes.
    /// `bytes_mut` then lends them. The contract also states what the message is after a refusal.
    /// Preconditions: the pointer's word is allocated; `default` has fewer than 2^32 words.
    pub fn get_data_place(&mut self, default: Option<&[u8]>) -> Result<ExistingBytes, ErrorKind>
        requires { TakesDefault (built A.view self.old) default }
        ensures found { LooksUp A.view (FindsBytes data_in default.entry)
            self.old self.new.arena.now result }
        ensures inside { IfOk result (AreBytesInside (A.view self.new.arena.now).words) }
        ensures grows { Grows (A.view self.old.arena.now).words (A.view self.new.arena.now).words }
        ensures stays { StaysThere A.view self.old self.new }
    {
        put_blob_default(&mut *self.arena, self.segment, self.at, default)?;
        let found = existing::get_data(&*self.arena, self.segment, self.at);
        found_bytes(&*self.arena, self.segment, found)
    }

    /// Lends the data that the pointer leads to, for writing in place ("Lists"). If the pointer is
    /// null, first copies the value of `default` to it, like `PointerBuilder::put_default`, or
    /// lends no bytes if there is no default. Preconditions: the pointer's word is allocated;
    /// `default` has fewer than 2^32 words.
    ///
    /// Refusals: `ExistingPointerIsNotAList` if the pointer leads to something other than a list,
    /// or if both the pointer and the first word of `default` are null;
    /// `ExistingListPointerIsNotByteSized` if the elements aren't bytes; those of `put_default`. A
    /// default value that replaced null stays even if the call is refused afterwards.
    /// `get_data_place` followed by `bytes_mut` does the same. The contracts of these two calls
    /// also state what the message is once the bytes are written.
    pub fn get_data(mut self, default: Option<&[u8]>) -> Result<&'a mut [u8], ErrorKind>
        requires { TakesDefault (built A.view self) default }
        ensures found { ReachesArena (LendsBytes A.segments)
            (LooksUp A.view (FindsBytes data_in default.entry) self.entry) result }
    {
        let bytes = self.get_data_place(default)?;
        Ok(self.into_bytes(bytes))
    }

    /// Does what `get_text` does, but returns where the text is instead of lending its bytes.
    /// `bytes_mut` then lends them. The contract also states what the message is after a refusal.
    /// Preconditions: the pointer's word is allocated; `default` has fewer than 2^32 words.
    pub fn get_text_place(&mut self, default: Option<&[u8]>) -> Result<ExistingBytes, ErrorKind>
        requires { TakesDefault (built A.view self.old) default }
        ensures found { LooksUp A.view (FindsBytes text_in default.entry)
            self.old self.new.arena.now result }
        ensures inside { IfOk result (AreBytesInside (A.view self.new.arena.now).words) }
        ensures grows { Grows (A.view self.old.arena.now).words (A.view self.new.arena.now).words }
        ensures stays { StaysThere A.view self.old self.new }
    {
        put_blob_default(&mut *self.arena, self.segment, self.at, default)?;
        let found = existing::get_text(&*self.arena, self.segment, self.at);
        found_bytes(&*self.arena, self.segment, found)
    }

    /// Lends the text that the pointer leads to, without the zero byte after it, for writing in
    /// place ("Lists"). If the pointer is null, first copies the value of `default` to it, like
    /// `PointerBuilder::put_default`, or lends no bytes if there is no default. Preconditions: the
    /// pointer's word is allocated; `default` has fewer than 2^32 words.
    ///
    /// Refusals: those of `get_data`; `TextBlobMissingNULTerminator` if the bytes don't end in a
    /// zero byte. `get_text_place` followed by `bytes_mut` does the same. The contracts of these
    /// two calls also state what the message is once the bytes are written.
    pub fn get_text(mut self, default: Option<&[u8]>) -> Result<&'a mut [u8], ErrorKind>
        requires { TakesDefault (built A.view self) default }
        ensures found { ReachesArena (LendsBytes A.segments)
            (LooksUp A.view (FindsBytes text_in default.entry) self.entry) result }
    {
        let bytes = self.get_text_place(default)?;
        Ok(self.into_bytes(bytes))
    }

    /// Lends the bytes of the message that `bytes` names, for writing in place, for as long as the
    /// arena is borrowed.
    #[inline(always)]
    fn into_bytes(self, bytes: ExistingBytes) -> &'a mut [u8]
        requires { AreBytesInside (A.view self.arena.now).words bytes }
        ensures { LendsBytes A.segments self.entry.arena.now bytes result }
    {
        let PointerBuilder {
            arena,
            segment: _,
            at: _,
        } = self;
        lent::bytes_mut(arena, bytes)
    }
}
