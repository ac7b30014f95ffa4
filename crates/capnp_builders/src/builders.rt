//! Builders: pointers, structs and lists of a message being built. Each borrows the message
//! mutably.
ghost use Rattle.std.specs.Prelude.{◌≡◌, ℕ, List, ◌↔◌, ◌∷◌, ◌++◌, [], ◌+◌, ◌-◌, ◌*◌, ◌^◌, ◌<◌, ◌≤◌, IsTrue, length, Ok, Err, IsOk, IfOk, IfErr, OnOk};
ghost use Rattle.capnp_format.specs.Bytes.{message, words_of};
ghost use Rattle.capnp_format.specs.Segments.{segment, word_at, Grows, IsPlace};
ghost use Rattle.capnp_format.specs.Tree.{Null, Capability, Flat, count};
ghost use Rattle.capnp_format.specs.Word.{capability_word, struct_word};
ghost use Rattle.capnp_format.specs.Numbers.{words_for};
ghost use Rattle.capnp_format.specs.Value.{AreBelow};
ghost use Rattle.capnp_in_place.specs.Existing.{AreInside, capability_of, plain_list, struct_list};
ghost use Rattle.capnp_in_place.specs.InPlace.{bytes_there, rewritten, AreZeroOnce, LendsBytes, MakesBytes, Overwrites};
ghost use Rattle.capnp_words.specs.Sizes.{size_number};
ghost use Rattle.capnp_allocation.specs.Made.{zero_struct, zero_structs, zero_list, list_words};
ghost use Rattle.capnp_allocation.specs.Makes.{MakesObject, ReachesArena};
ghost use Rattle.capnp_allocation.specs.Near.{LeadsToEnd};
ghost use Rattle.capnp_allocation.specs.Stored.{Puts};
ghost use Rattle.capnp_allocation.specs.Zeroed.{IsPruned, IsPrunedBut};
ghost use Rattle.capnp_builders.specs.Places.{IsAligned, IsStructOf, IsListOf};
ghost use Rattle.capnp_words.specs.declared.error.ErrorKind.{ErrorKind};
ghost use Rattle.capnp_builders.specs.Reads.{IsArenaOf, IsPointerReader};
ghost use Rattle.capnp_pointers.specs.Wanted.{canonical, plain};
ghost use Rattle.capnp_copies.specs.Changes.{MakesCopy, copy_call};
ghost use Rattle.capnp_copies.specs.Rooms.{CanBeCopied};
ghost use Rattle.capnp_copies.specs.Forms.{form_of};
ghost use Rattle.capnp_copies.specs.Growth.{TakesAtMost};
ghost use Rattle.capnp_builders.specs.ListValues.{list_read};
ghost use Rattle.capnp_copies.specs.Originals.{value_original};
ghost use Rattle.capnp_builders.specs.StructValues.{struct_read};
ghost use Rattle.capnp_readers.specs.Readers.{read_by};

mod content;
pub mod defaults;
mod finding;
pub(crate) mod found;
pub(crate) mod list_builder;
pub mod places;
mod primitive_element;
mod struct_builder;

use crate::{copy, fields};
use capnp_allocation::making;
use capnp_arena_traits::arena::{BuilderArena, ReaderArena, WordPlace};
use capnp_in_place::existing::ExistingBytes;
use capnp_in_place::{bytes, existing, initializing, lent};
use capnp_pointers::object::Place;
use capnp_pointers::source::Source;
use capnp_readers::readers::{ListPlace, ListReader, PointerReader, StructPlace, StructReader};
use capnp_words::error::ErrorKind;
use capnp_words::read_limiter::ReadLimiter;
use capnp_words::wire_pointer::{ElementSize, StructSize};
use capnp_words::words;
pub use list_builder::{ListBuilder, element_place};
pub use primitive_element::PrimitiveElement;
pub use struct_builder::StructBuilder;

// Elements that aren't structs have no sections.
pub(crate) const NO_SECTIONS: StructSize = StructSize {
    data_words: 0,
    pointers: 0,
};

/// A pointer of a message being built.
#[derive(Drop)]
pub struct PointerBuilder<'a, A> {
    /// The message.
    pub arena: &'a mut A,
    /// The segment of the pointer's word.
    pub segment: u32,
    /// The position of the pointer's word in the segment, in words. Calls require that this word is
    /// allocated, and it is allocated for each builder that a call returns.
    pub at: u32,
}

impl<'a, A: BuilderArena> PointerBuilder<'a, A> {
    ghost use Rattle.std.specs.Borrow.{sem, follows, Array, u8 as byte};
    ghost use Rattle.capnp_arena_traits.specs.View.{KeepsLimits};
    ghost use Rattle.capnp_builders.specs.Building.{GivesList, GivesStruct, HandsOn, IsNull, IsSameArena, IsThere, KeepsBuilder, StaysThere, built, calling, calling_last};
    ghost use Rattle.capnp_builders.specs.Kept.{PutsCopy, LeavesCleared, FillsSegment, FillsMessage};
    ghost use Rattle.capnp_builders.specs.contracts.builders.PointerBuilder.{the_row};
    ghost use mir.Syntax.{named};

    /// Returns a builder of the root pointer of the message in `arena`: word 0 of segment 0.
    /// Precondition: that word is allocated.
    pub fn get_root(arena: &'a mut A) -> Self
        requires { IsPlace (A.view arena.old).words 0 0 }
        ensures same { result.arena.ghost_name ≡ arena.entry.ghost_name }
        ensures now { result.arena.now ≡ arena.old }
        ensures place { (result.segment ≡ 0) × (result.at ≡ 0) }
    {
        PointerBuilder {
            arena,
            segment: 0,
            at: 0,
        }
    }

    /// Returns another builder of the same pointer. The new builder borrows `self`.
    pub fn reborrow(&mut self) -> PointerBuilder<'_, A>
        ensures* lends { sem 𝓛 (follows (the_row (record { mir = named 1; lft = [] }) A.row) A.row
            self.entry.ghost_name result.arena.ghost_name
            (λ a. record self.old { arena = record self.old.arena { now = a } })) }
        ensures now { result.arena.now ≡ self.old.arena.now }
        ensures place { (result.segment ≡ self.old.segment) × (result.at ≡ self.old.at) }
    {
        let segment = self.segment;
        let at = self.at;
        let arena = &mut *self.arena;
        PointerBuilder { arena, segment, at }
    }

    /// Whether the pointer is null. Precondition: the pointer's word is allocated.
    pub fn is_null(&self) -> bool
        requires { IsPlace (A.view self.now.arena.now).words self.now.segment self.now.at }
        ensures { IsTrue result
            ↔ (word_at (A.view self.now.arena.now).words self.now.segment self.now.at ≡ 0) }
    {
        words::word_at(segment_bytes(&*self.arena, self.segment), self.at as usize) == 0
    }

    /// Returns a reader of the pointer. Reading charges nothing, and may enter `i32::MAX` levels of
    /// structs and lists.
    pub fn as_reader(&self) -> PointerReader<'_, A>
        ensures { IsPointerReader A.ReaderArena self.now result }
    {
        reader_at(&*self.arena, self.segment, self.at)
    }

    /// Turns the builder into a reader of the pointer, for when building is over. Reading charges
    /// nothing, and may enter `i32::MAX` levels of structs and lists.
    pub fn into_reader(self) -> PointerReader<'a, A>
        ensures { IsPointerReader A.ReaderArena self.entry result }
    {
        let PointerBuilder { arena, segment, at } = self;
        reader_at(arena, segment, at)
    }

    #[tactic(auto, using(capnp_in_place::proofs::Room::PlacesStay::pruned_grows))]
    /// Makes the pointer null, and zeroes what it held: its object, all objects below it, and their
    /// landing pads. These words stay allocated. Precondition: the pointer's word is allocated.
    pub fn clear(&mut self)
        requires { IsThere (built A.view self.old) }
        ensures cleared { Puts (A.view self.old.arena.now).words
            (A.view self.new.arena.now).words self.old.segment self.old.at Null }
        ensures null { IsNull (built A.view self.new) }
        ensures only { IsPruned (A.view self.old.arena.now).words
            (A.view self.new.arena.now).words }
        ensures limits { KeepsLimits (A.view self.old.arena.now) (A.view self.new.arena.now) }
        ensures grows { Grows (A.view self.old.arena.now).words (A.view self.new.arena.now).words }
        ensures stays { StaysThere A.view self.old self.new }
    {
        making::clear(&mut *self.arena, self.segment, self.at);
    }

    /// Makes the pointer the capability with index `index` (encoding specification, "Capabilities
    /// (Interfaces)"). Precondition: the pointer's word is allocated.
    pub fn set_capability(&mut self, index: u32)
        requires { IsThere (built A.view self.old) }
        ensures made { Puts (A.view self.old.arena.now).words
            (A.view self.new.arena.now).words self.old.segment self.old.at (Capability index) }
        ensures only { IsPrunedBut (A.view self.old.arena.now).words
            (A.view self.new.arena.now).words self.old.segment self.old.at (capability_word index) }
        ensures limits { KeepsLimits (A.view self.old.arena.now) (A.view self.new.arena.now) }
        ensures grows { Grows (A.view self.old.arena.now).words (A.view self.new.arena.now).words }
        ensures stays { StaysThere A.view self.old self.new }
    {
        initializing::set_capability(&mut *self.arena, self.segment, self.at, index);
    }

    /// Zeroes what the pointer held, makes the pointer lead to a new struct, all zero, and returns
    /// the struct's place. `into_struct` makes a builder from the place; `init_struct` does both
    /// steps. `self` can still be used after the call, and the contract states what the message is
    /// then, also after a refusal.
    ///
    /// Precondition: the pointer's word is allocated.
    ///
    /// Refusals, if no segment has room: `AllocationFailed` if memory runs out;
    /// `MessageTooLarge(usize::MAX)` if the message already has 4,294,967,295 segments. After a
    /// refusal the pointer is null.
    #[inline(always)]
    pub fn init_struct_place(&mut self, size: StructSize) -> Result<StructPlace, ErrorKind>
        requires { IsThere (built A.view self.old) }
        ensures object { MakesObject result (calling A.view self.old self.new)
            (zero_struct size) (size.data_words + size.pointers) }
        ensures leads { IfOk result (IsStructOf (calling A.view self.old self.new) size) }
        ensures empty { size.data_words + size.pointers ≡ 0
            → OnOk result
            (word_at (A.view self.new.arena.now).words self.new.segment self.new.at
            ≡ struct_word (2 ^ 30 - 1) 0 0) }
        ensures grows { Grows (A.view self.old.arena.now).words (A.view self.new.arena.now).words }
        ensures builder { KeepsBuilder self.old self.new }
    {
        fields::new_struct(&mut *self.arena, self.segment, self.at, size)
    }

    /// Returns a builder of the struct at `place`, in the message of `self`. Precondition: `place`
    /// is aligned (see `StructPlace`).
    pub fn into_struct(self, place: StructPlace) -> StructBuilder<'a, A>
        requires { IsAligned place }
        ensures arena { IsSameArena self.entry.arena result.arena }
        ensures place { result.place ≡ place }
    {
        let PointerBuilder {
            arena,
            segment: _,
            at: _,
        } = self;
        StructBuilder { arena, place }
    }

    /// Zeroes what the pointer held, and makes the pointer lead to a new struct, all zero.
    /// Precondition: the pointer's word is allocated.
    ///
    /// Refusals, if no segment has room: `AllocationFailed` if memory runs out;
    /// `MessageTooLarge(usize::MAX)` if the message already has 4,294,967,295 segments. After a
    /// refusal the pointer is null; the contract of `init_struct_place` states what else holds.
    #[inline(always)]
    pub fn init_struct(mut self, size: StructSize) -> Result<StructBuilder<'a, A>, ErrorKind>
        requires { IsThere (built A.view self) }
        ensures arena { IfOk result (λ b. HandsOn A.view self.entry.arena b.arena) }
        ensures grows { IfOk result (λ b.
            Grows (A.view self.entry.arena.now).words (A.view b.arena.now).words) }
        ensures object { ReachesArena GivesStruct
            (λ now r. MakesObject r (calling_last A.view self.entry now)
            (zero_struct size) (size.data_words + size.pointers)) result }
        ensures leads { IfOk result (λ b.
            IsStructOf (calling_last A.view self.entry b.arena.now) size b.place) }
        ensures empty { size.data_words + size.pointers ≡ 0
            → IfOk result (λ b.
            word_at (A.view b.arena.now).words self.entry.segment self.entry.at
            ≡ struct_word (2 ^ 30 - 1) 0 0) }
    {
        let place = self.init_struct_place(size)?;
        Ok(self.into_struct(place))
    }

    /// Zeroes what the pointer held, makes the pointer lead to a new list of `count` elements that
    /// aren't structs, all zero or null, and returns the list's place. Preconditions: the pointer's
    /// word is allocated; `size` isn't `InlineComposite`; `count` is below 2^29. `into_list` makes
    /// a builder from the place; `init_list` does both steps. The contract states what the message
    /// is afterwards, also after a refusal.
    ///
    /// Refusals, if no segment has room: `AllocationFailed` if memory runs out;
    /// `MessageTooLarge(n)` if n is above 536,870,911, where n is the number of the list's words,
    /// plus one for a landing pad; `MessageTooLarge(usize::MAX)` if the message already has
    /// 4,294,967,295 segments. After a refusal the pointer is null.
    #[inline(always)]
    pub fn init_list_place(&mut self, size: ElementSize, count: u32) -> Result<ListPlace, ErrorKind>
        requires there { IsThere (built A.view self.old) }
        requires few { count < 2 ^ 29 }
        requires plain { size_number size ≤ 6 }
        ensures object { MakesObject result (calling A.view self.old self.new)
            (zero_list (size_number size) count) (list_words (size_number size) count) }
        ensures leads { IfOk result (IsListOf (calling A.view self.old self.new)
            (λ a. plain_list a size count)) }
        ensures at_end { OnOk result (LeadsToEnd (calling A.view self.old self.new)
            (list_words (size_number size) count)) }
        ensures grows { Grows (A.view self.old.arena.now).words (A.view self.new.arena.now).words }
        ensures builder { KeepsBuilder self.old self.new }
    {
        fields::new_list(&mut *self.arena, self.segment, self.at, size, count)
    }

    /// Returns a builder of the list at `place`, in the message of `self`.
    pub fn into_list(self, place: ListPlace) -> ListBuilder<'a, A>
        ensures arena { IsSameArena self.entry.arena result.arena }
        ensures place { result.place ≡ place }
    {
        let PointerBuilder {
            arena,
            segment: _,
            at: _,
        } = self;
        ListBuilder { arena, place }
    }

    /// Zeroes what the pointer held, and makes the pointer lead to a new list of `count` elements
    /// that aren't structs, all zero or null. Preconditions: the pointer's word is allocated;
    /// `size` isn't `InlineComposite`; `count` is below 2^29.
    ///
    /// Refusals, if no segment has room: `AllocationFailed` if memory runs out;
    /// `MessageTooLarge(n)` if n is above 536,870,911, where n is the number of the list's words,
    /// plus one for a landing pad; `MessageTooLarge(usize::MAX)` if the message already has
    /// 4,294,967,295 segments. After a refusal the pointer is null; the contract of
    /// `init_list_place` states what else holds.
    #[inline(always)]
    pub fn init_list(
        mut self,
        size: ElementSize,
        count: u32,
    ) -> Result<ListBuilder<'a, A>, ErrorKind>
        requires there { IsThere (built A.view self) }
        requires few { count < 2 ^ 29 }
        requires plain { size_number size ≤ 6 }
        ensures arena { IfOk result (λ b. HandsOn A.view self.entry.arena b.arena) }
        ensures grows { IfOk result (λ b.
            Grows (A.view self.entry.arena.now).words (A.view b.arena.now).words) }
        ensures object { ReachesArena GivesList
            (λ now r. MakesObject r (calling_last A.view self.entry now)
            (zero_list (size_number size) count) (list_words (size_number size) count)) result }
        ensures leads { IfOk result (λ b.
            IsListOf (calling_last A.view self.entry b.arena.now)
            (λ a. plain_list a size count) b.place) }
        ensures at_end { IfOk result (λ b.
            LeadsToEnd (calling_last A.view self.entry b.arena.now)
            (list_words (size_number size) count)) }
    {
        let place = self.init_list_place(size, count)?;
        Ok(self.into_list(place))
    }

    /// Zeroes what the pointer held, makes the pointer lead to a new list of `count` structs, all
    /// zero, and returns the list's place. Preconditions: the pointer's word is allocated; `count`
    /// is below 2^30; `count` structs of `size` have fewer than 2^29 words. `into_list` makes a
    /// builder from the place; `init_struct_list` does both steps. The contract states what the
    /// message is afterwards, also after a refusal.
    ///
    /// Refusals, if no segment has room: `AllocationFailed` if memory runs out;
    /// `MessageTooLarge(n)` if n is above 536,870,911, where n is the number of the structs' words,
    /// plus two for the tag and a landing pad; `MessageTooLarge(usize::MAX)` if the message already
    /// has 4,294,967,295 segments. After a refusal the pointer is null.
    pub fn init_struct_list_place(
        &mut self,
        count: u32,
        size: StructSize,
    ) -> Result<ListPlace, ErrorKind>
        requires there { IsThere (built A.view self.old) }
        requires few { count < 2 ^ 30 }
        requires words { count * (size.data_words + size.pointers) < 2 ^ 29 }
        ensures object { MakesObject result (calling A.view self.old self.new)
            (zero_structs count size) (1 + count * (size.data_words + size.pointers)) }
        ensures leads { IfOk result (IsListOf (calling A.view self.old self.new)
            (λ a. struct_list a size.data_words size.pointers count)) }
        ensures grows { Grows (A.view self.old.arena.now).words (A.view self.new.arena.now).words }
        ensures builder { KeepsBuilder self.old self.new }
    {
        fields::new_struct_list(&mut *self.arena, self.segment, self.at, count, size)
    }

    /// Zeroes what the pointer held, and makes the pointer lead to a new list of `count` structs,
    /// all zero. Preconditions: the pointer's word is allocated; `count` is below 2^30; `count`
    /// structs of `size` have fewer than 2^29 words.
    ///
    /// Refusals, if no segment has room: `AllocationFailed` if memory runs out;
    /// `MessageTooLarge(n)` if n is above 536,870,911, where n is the number of the structs' words,
    /// plus two for the tag and a landing pad; `MessageTooLarge(usize::MAX)` if the message already
    /// has 4,294,967,295 segments. After a refusal the pointer is null; the contract of
    /// `init_struct_list_place` states what else holds.
    pub fn init_struct_list(
        mut self,
        count: u32,
        size: StructSize,
    ) -> Result<ListBuilder<'a, A>, ErrorKind>
        requires there { IsThere (built A.view self) }
        requires few { count < 2 ^ 30 }
        requires words { count * (size.data_words + size.pointers) < 2 ^ 29 }
        ensures arena { IfOk result (λ b. HandsOn A.view self.entry.arena b.arena) }
        ensures grows { IfOk result (λ b.
            Grows (A.view self.entry.arena.now).words (A.view b.arena.now).words) }
        ensures object { ReachesArena GivesList
            (λ now r. MakesObject r (calling_last A.view self.entry now)
            (zero_structs count size) (1 + count * (size.data_words + size.pointers))) result }
        ensures leads { IfOk result (λ b.
            IsListOf (calling_last A.view self.entry b.arena.now)
            (λ a. struct_list a size.data_words size.pointers count) b.place) }
    {
        let place = self.init_struct_list_place(count, size)?;
        Ok(self.into_list(place))
    }

    /// Lends the bytes of the message that `bytes` names, for writing in place. Preconditions:
    /// segment `bytes.segment` exists; the words that hold `bytes` are allocated. No other bytes
    /// change.
    pub fn bytes_mut(&mut self, bytes: ExistingBytes) -> &mut [u8]
        requires there { bytes.segment < length (A.view self.old.arena.now).words }
        requires inside { AreInside (A.view self.old.arena.now).words bytes }
        ensures* lends { sem 𝓛 (follows (the_row (record { mir = named 1; lft = [] }) A.row)
            (Array byte 0) self.entry.ghost_name result.ghost_name
            (λ ws. record self.old {
              arena = record self.old.arena
                  { now = rewritten A.with_bytes A.segments self.old.arena.now bytes ws };
            })) }
        ensures now { result.now ≡ bytes_there (A.segments self.old.arena.now) bytes }
        ensures count { length result.now ≡ bytes.length }
        ensures written { (ws : List ℕ) → (length ws ≡ bytes.length) × AreBelow 256 ws →
            Overwrites (A.view self.old.arena.now).words
            (A.view (rewritten A.with_bytes A.segments self.old.arena.now bytes ws)).words bytes
            ws }
    {
        let arena = &mut *self.arena;
        lent::bytes_mut(arena, bytes)
    }

    /// Zeroes what the pointer held, makes the pointer lead to new data of `size` bytes, all zero,
    /// and lends these bytes for writing in place ("Lists"). Preconditions: the pointer's word is
    /// allocated; `size` is below 2^29.
    ///
    /// Refusals, if no segment has room: `AllocationFailed` if memory runs out;
    /// `MessageTooLarge(usize::MAX)` if the message already has 4,294,967,295 segments. After a
    /// refusal the pointer is null. `init_list_place` followed by `bytes_mut` does the same. The
    /// contracts of these two calls also state what the message is once the bytes are written.
    pub fn init_data(self, size: u32) -> Result<&'a mut [u8], ErrorKind>
        requires there { IsThere (built A.view self) }
        requires few { size < 2 ^ 29 }
        ensures count { IfOk result (λ bytes. length bytes.now ≡ size) }
        ensures zero { IfOk result (λ bytes. AreZeroOnce
            (A.view self.entry.arena.now).words self.entry.segment self.entry.at bytes.now) }
        ensures made { ReachesArena (LendsBytes A.segments)
            (λ now r. MakesBytes r (calling_last A.view self.entry now) size size) result }
    {
        let PointerBuilder { arena, segment, at } = self;
        lent::init_data(arena, segment, at, size)
    }

    /// Zeroes what the pointer held, makes the pointer lead to a new text of `size` bytes, all
    /// zero, and lends these bytes, but not the zero byte after them, for writing in place
    /// ("Lists"). Preconditions: the pointer's word is allocated; `size` is below 2^29 - 1.
    ///
    /// Refusals, if no segment has room: `AllocationFailed` if memory runs out;
    /// `MessageTooLarge(usize::MAX)` if the message already has 4,294,967,295 segments. After a
    /// refusal the pointer is null. `init_list_place` followed by `bytes_mut` does the same. The
    /// contracts of these two calls also state what the message is once the bytes are written.
    pub fn init_text(self, size: u32) -> Result<&'a mut [u8], ErrorKind>
        requires there { IsThere (built A.view self) }
        requires few { size + 1 < 2 ^ 29 }
        ensures count { IfOk result (λ bytes. length bytes.now ≡ size) }
        ensures zero { IfOk result (λ bytes. AreZeroOnce
            (A.view self.entry.arena.now).words self.entry.segment self.entry.at bytes.now) }
        ensures made { ReachesArena (LendsBytes A.segments)
            (λ now r. MakesBytes r (calling_last A.view self.entry now) (size + 1) size) result }
    {
        let PointerBuilder { arena, segment, at } = self;
        lent::init_text(arena, segment, at, size)
    }

    /// Zeroes what the pointer held, and makes the pointer lead to new data: a copy of `bytes`
    /// ("Lists"). Preconditions: the pointer's word is allocated; `bytes` has fewer than 2^29
    /// bytes.
    ///
    /// Refusals, if no segment has room: `AllocationFailed` if memory runs out;
    /// `MessageTooLarge(usize::MAX)` if the message already has 4,294,967,295 segments. After a
    /// refusal the pointer is null.
    #[inline(always)]
    pub fn set_data(&mut self, bytes: &[u8]) -> Result<(), ErrorKind>
        requires there { IsThere (built A.view self.old) }
        requires few { length bytes.now < 2 ^ 29 }
        ensures object { MakesObject result (calling A.view self.old self.new)
            (Flat 2 bytes.now) (words_for 2 (length bytes.now)) }
        ensures at_end { OnOk result (LeadsToEnd (calling A.view self.old self.new)
            (words_for 2 (length bytes.now))) }
        ensures grows { Grows (A.view self.old.arena.now).words (A.view self.new.arena.now).words }
        ensures builder { KeepsBuilder self.old self.new }
    {
        bytes::set_data(&mut *self.arena, self.segment, self.at, bytes)
    }

    /// Zeroes what the pointer held, and makes the pointer lead to a new text: a copy of `bytes`,
    /// followed by a zero byte ("Lists"). Preconditions: the pointer's word is allocated; `bytes`
    /// has fewer than 2^29 - 1 bytes.
    ///
    /// Refusals, if no segment has room: `AllocationFailed` if memory runs out;
    /// `MessageTooLarge(usize::MAX)` if the message already has 4,294,967,295 segments. After a
    /// refusal the pointer is null.
    #[inline(always)]
    pub fn set_text(&mut self, bytes: &[u8]) -> Result<(), ErrorKind>
        requires there { IsThere (built A.view self.old) }
        requires few { length bytes.now + 1 < 2 ^ 29 }
        ensures object { MakesObject result (calling A.view self.old self.new)
            (Flat 2 (bytes.now ++ 0 ∷ [])) (words_for 2 (length bytes.now + 1)) }
        ensures grows { Grows (A.view self.old.arena.now).words (A.view self.new.arena.now).words }
        ensures builder { KeepsBuilder self.old self.new }
    {
        bytes::set_text(&mut *self.arena, self.segment, self.at, bytes)
    }

    /// Returns the index in the capability pointer ("Capabilities (Interfaces)"). Doesn't follow
    /// far pointers. Precondition: the pointer's word is allocated.
    ///
    /// Refusals: `MessageContainsNullCapabilityPointer` if the pointer is null;
    /// `MessageContainsNonCapabilityPointerWhereCapabilityPointerWasExpected` if it is neither null
    /// nor a capability pointer; a far pointer is refused like this, too.
    pub fn get_capability(&self) -> Result<u32, ErrorKind>
        requires { IsThere (built A.view self.now) }
        ensures { result ≡ capability_of
            (word_at (A.view self.now.arena.now).words self.now.segment self.now.at) }
    {
        existing::get_capability(&*self.arena, self.segment, self.at)
    }

    /// Copies the value of `from` to this pointer, in canonical form if `canonicalize`, otherwise
    /// plain ("Canonicalization"). Charges `lim` what reading the whole value costs. Precondition:
    /// the pointer's word is allocated.
    ///
    /// First zeroes what the pointer held; those words stay allocated. If the copy fits the
    /// pointer's segment, or the message has one segment afterwards, the copy's words follow the
    /// old words of the pointer's segment, in the canonical order of objects. Otherwise the copy is
    /// in as many segments as it needs. A plain copy has all words of the sections and elements; a
    /// canonical copy has only those that canonical form keeps.
    ///
    /// Refusals: the first refusal of reading the value of `from`;
    /// `CannotCreateACanonicalMessageWithACapability` if `canonicalize` and the value has a
    /// capability. If the copy doesn't fit the pointer's segment, and no other segment has room for
    /// one of its objects: `AllocationFailed` if memory runs out; `MessageTooLarge(n)` if n is
    /// above 536,870,911, where n is the number of that object's words, plus one for a landing pad;
    /// `MessageTooLarge(usize::MAX)` if the message already has 4,294,967,295 segments.
    ///
    /// After a refusal the pointer is null, the words that were allocated are zero and stay
    /// allocated, and what was charged stays charged.
    ///
    /// Allocates at most as many words as reading the value costs, plus one landing pad for each
    /// object that has no room in its pointer's segment. If the copy is refused, only the cost of
    /// reading up to the refused object counts here.
    pub fn copy_from<B: ReaderArena>(
        &mut self,
        from: PointerReader<'_, B>,
        lim: &mut ReadLimiter,
        canonicalize: bool,
    ) -> Result<(), ErrorKind>
        requires place { IsThere (built A.view self.old) }
        ensures copied { IfOk result (λ _. PutsCopy
            (value_original (read_by B.ReaderArena from.entry))
            (copy_call (form_of canonicalize) (calling A.view self.old self.new) lim.old lim.new)) }
        ensures near { IsNull (built A.view self.old)
            → IfOk result
            (λ _. MakesCopy (value_original (read_by B.ReaderArena from.entry))
            (copy_call (form_of canonicalize) (calling A.view self.old self.new) lim.old lim.new)) }
        ensures fresh { segment (A.view self.old.arena.now).words self.old.segment ≡ 0 ∷ []
            → IfOk result
            (λ _. FillsSegment (read_by B.ReaderArena from.entry)
            (copy_call (form_of canonicalize) (calling A.view self.old self.new) lim.old lim.new)) }
        ensures alone { (A.view self.old.arena.now).words ≡ (0 ∷ []) ∷ []
            → IfOk result
            (λ _. FillsMessage (read_by B.ReaderArena from.entry)
            (copy_call (form_of canonicalize) (calling A.view self.old self.new) lim.old lim.new)) }
        ensures fits { CanBeCopied (value_original (read_by B.ReaderArena from.entry))
            (form_of canonicalize) lim.old (A.view self.old.arena.now) self.old.segment
            → IsOk result }
        ensures refused { IfErr result (LeavesCleared
            (value_original (read_by B.ReaderArena from.entry))
            (copy_call (form_of canonicalize) (calling A.view self.old self.new) lim.old lim.new)) }
        ensures taken { TakesAtMost result (value_original (read_by B.ReaderArena from.entry))
            (copy_call (form_of canonicalize) (calling A.view self.old self.new) lim.old lim.new) }
        ensures grows { Grows (A.view self.old.arena.now).words (A.view self.new.arena.now).words }
        ensures stays { StaysThere A.view self.old self.new }
    {
        let to = WordPlace {
            segment: self.segment,
            at: self.at,
        };
        let value = from.pointer();
        if self.is_null() {
            return copy::copy_value(&mut *self.arena, to, value, lim, canonicalize);
        }
        making::clear(&mut *self.arena, to.segment, to.at);
        copy::copy_value(&mut *self.arena, to, value, lim, canonicalize)
    }

    /// Copies the struct `value` to this pointer, in canonical form if `canonicalize`, otherwise
    /// plain ("Structs", "Canonicalization"). Pads the struct's data section with zeros to whole
    /// words. Charges `lim` what reading the values of the struct's pointers costs, and nothing for
    /// the struct's own words. These values are read under the nesting limit of `value`.
    ///
    /// Precondition: the pointer's word is allocated.
    ///
    /// First zeroes what the pointer held. If the copy fits the pointer's segment, or the message
    /// has one segment afterwards, the copy's words follow the old words of the pointer's segment,
    /// in the canonical order of objects.
    ///
    /// Refusals: the first refusal of reading the values of the struct's pointers;
    /// `CannotCreateACanonicalMessageWithACapability` if `canonicalize` and the value has a
    /// capability. If the copy doesn't fit the pointer's segment, and no other segment has room for
    /// one of its objects: `AllocationFailed` if memory runs out; `MessageTooLarge(n)` if n is
    /// above 536,870,911, where n is the number of that object's words, plus one for a landing pad;
    /// `MessageTooLarge(usize::MAX)` if the message already has 4,294,967,295 segments. Also
    /// `MessageTooLarge(n)` if n data words have to be copied, and n is above 65535; then nothing
    /// is charged.
    ///
    /// After a refusal the pointer is null, the words that were allocated are zero and stay
    /// allocated, and what was charged stays charged.
    pub fn set_struct<B: ReaderArena>(
        &mut self,
        value: &StructReader<'_, B>,
        lim: &mut ReadLimiter,
        canonicalize: bool,
    ) -> Result<(), ErrorKind>
        requires place { IsThere (built A.view self.old) }
        ensures copied { IfOk result (λ _. PutsCopy (struct_read B.ReaderArena value.now)
            (copy_call (form_of canonicalize) (calling A.view self.old self.new) lim.old lim.new)) }
        ensures fits { CanBeCopied (struct_read B.ReaderArena value.now)
            (form_of canonicalize) lim.old (A.view self.old.arena.now) self.old.segment
            → IsOk result }
        ensures refused { IfErr result (LeavesCleared (struct_read B.ReaderArena value.now)
            (copy_call (form_of canonicalize) (calling A.view self.old self.new) lim.old lim.new)) }
        ensures taken { TakesAtMost result (struct_read B.ReaderArena value.now)
            (copy_call (form_of canonicalize) (calling A.view self.old self.new) lim.old lim.new) }
        ensures wide { (k : ErrorKind) → (struct_read B.ReaderArena value.now).exceeds
            (form_of canonicalize) k → (result ≡ Err k) × (lim.new ≡ lim.old) }
        ensures grows { Grows (A.view self.old.arena.now).words (A.view self.new.arena.now).words }
        ensures stays { StaysThere A.view self.old self.new }
    {
        let to = WordPlace {
            segment: self.segment,
            at: self.at,
        };
        making::clear(&mut *self.arena, to.segment, to.at);
        copy::copy_struct_value(&mut *self.arena, to, *value, lim, canonicalize)
    }

    /// Copies the list `value` to this pointer, in canonical form if `canonicalize`, otherwise
    /// plain ("Lists", "Canonicalization"). In both forms, the bits after the last number of a list
    /// of numbers are zero, up to the end of its word. Charges `lim` what reading the values of the
    /// list's pointers costs, and nothing for the list's own words or its number of elements. These
    /// values are read under the nesting limit of `value`.
    ///
    /// Precondition: the pointer's word is allocated.
    ///
    /// First zeroes what the pointer held. If the copy fits the pointer's segment, or the message
    /// has one segment afterwards, the copy's words follow the old words of the pointer's segment,
    /// in the canonical order of objects.
    ///
    /// Refusals: the first refusal of reading the values of the list's pointers;
    /// `CannotCreateACanonicalMessageWithACapability` if `canonicalize` and the value has a
    /// capability. If the copy doesn't fit the pointer's segment, and no other segment has room for
    /// one of its objects: `AllocationFailed` if memory runs out; `MessageTooLarge(n)` if n is
    /// above 536,870,911, where n is the number of that object's words, plus one for a landing pad;
    /// `MessageTooLarge(usize::MAX)` if the message already has 4,294,967,295 segments. Also
    /// `MessageTooLarge(usize::MAX)` if `value` has more elements or words than a list pointer can
    /// state; a list that was read from a message never has.
    ///
    /// After a refusal the pointer is null, the words that were allocated are zero and stay
    /// allocated, and what was charged stays charged.
    pub fn set_list<B: ReaderArena>(
        &mut self,
        value: &ListReader<'_, B>,
        lim: &mut ReadLimiter,
        canonicalize: bool,
    ) -> Result<(), ErrorKind>
        requires place { IsThere (built A.view self.old) }
        ensures copied { IfOk result (λ _. PutsCopy (list_read B.ReaderArena value.now)
            (copy_call (form_of canonicalize) (calling A.view self.old self.new) lim.old lim.new)) }
        ensures fits { CanBeCopied (list_read B.ReaderArena value.now)
            (form_of canonicalize) lim.old (A.view self.old.arena.now) self.old.segment
            → IsOk result }
        ensures refused { IfErr result (LeavesCleared (list_read B.ReaderArena value.now)
            (copy_call (form_of canonicalize) (calling A.view self.old self.new) lim.old lim.new)) }
        ensures taken { TakesAtMost result (list_read B.ReaderArena value.now)
            (copy_call (form_of canonicalize) (calling A.view self.old self.new) lim.old lim.new) }
        ensures long { (k : ErrorKind) → (list_read B.ReaderArena value.now).exceeds
            (form_of canonicalize) k → (result ≡ Err k) × (lim.new ≡ lim.old) }
        ensures grows { Grows (A.view self.old.arena.now).words (A.view self.new.arena.now).words }
        ensures stays { StaysThere A.view self.old self.new }
    {
        let to = WordPlace {
            segment: self.segment,
            at: self.at,
        };
        making::clear(&mut *self.arena, to.segment, to.at);
        copy::copy_list(&mut *self.arena, to, *value, lim, canonicalize)
    }
}

/// Returns the bytes of segment `id`; no bytes if there is no such segment.
fn segment_bytes<A: ReaderArena>(arena: &A, id: u32) -> &[u8]
    ensures words { words_of result.now ≡ segment (message (A.segments arena.now)) id }
    ensures whole { length result.now ≡ 8 * length (segment (message (A.segments arena.now)) id) }
    ensures small { length result.now < 8 * 2 ^ 32 }
{
    match arena.get_segment(id) {
        Ok(bytes) => bytes,
        Err(_) => &[],
    }
}

/// Returns a reader of the pointer at word `at` of segment `segment`.
fn reader_at<A: ReaderArena>(arena: &A, segment: u32, at: u32) -> PointerReader<'_, A>
    ensures reads { IsArenaOf result.source arena.now }
    ensures place { (result.place.segment ≡ segment) × (result.place.at ≡ at) }
    ensures nesting { result.nesting_limit ≡ i32.MAX }
{
    PointerReader {
        source: Source::Arena(arena),
        place: Place {
            segment: u64::from(segment),
            bytes: segment_bytes(arena, segment),
            at,
        },
        nesting_limit: i32::MAX,
    }
}
