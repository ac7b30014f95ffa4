//! Structs of a message being built (encoding specification, "Structs").
ghost use Rattle.std.specs.Prelude.{◌≡◌, ◌≢◌, ◌↔◌, ◌+◌, ◌*◌, ◌<◌, [], IsTrue, IsOk, IfOk, IfErr, cond, true, false, min};
ghost use Rattle.capnp_format.specs.Segments.{segment, word_at, Grows, IsPlace};
ghost use Rattle.capnp_format.specs.Fields.{field_in};
ghost use Rattle.capnp_readers.specs.Readers.{IsStructPlace};
ghost use Rattle.capnp_builders.specs.Places.{HasField, IsAligned, WritesField, number_field, field};
ghost use Rattle.capnp_arena_traits.specs.View.{View};
ghost use Rattle.capnp_builders.specs.Content.{TakesContent, StopsAtContent, ContentFits, pointers_copied};
ghost use Rattle.capnp_copies.specs.Growth.{TakesAtMost};
ghost use Rattle.capnp_copies.specs.Originals.{children_original};
ghost use Rattle.capnp_readers.specs.Sizes.{pointers_read};

use super::content::{clear_pointers, write_content};
use crate::builders::PointerBuilder;
use crate::{copy, fields};
use capnp_arena_traits::arena::{BuilderArena, ReaderArena, WordPlace};
use capnp_in_place::numbers;
use capnp_pointers::pointers::Pointer;
use capnp_readers::readers::{StructPlace, StructReader};
use capnp_words::error::ErrorKind;
use capnp_words::mask::Mask;
use capnp_words::primitive::Primitive;
use capnp_words::read_limiter::ReadLimiter;
use capnp_words::zero::Zero;

/// A struct of a message being built.
#[derive(Drop)]
pub struct StructBuilder<'a, A> {
    /// Where the struct is. Required: the place is aligned. Calls also require that it is inside the
    /// message.
    pub place: StructPlace,
    /// The message.
    pub arena: &'a mut A,
    ghost aligned: { IsAligned place },
}

impl<'a, A: BuilderArena> StructBuilder<'a, A> {
    ghost use Rattle.std.specs.Borrow.{sem, follows};
    ghost use Rattle.capnp_builders.specs.Building.{HoldsBit, HoldsField, IsSameArena, KeepsStructBuilder};
    ghost use Rattle.capnp_builders.specs.Reads.{IsStructReader};
    ghost use Rattle.capnp_builders.specs.contracts.builders.struct_builder.StructBuilder.{the_row};
    ghost use mir.Syntax.{named};

    /// Returns another builder of the same struct. The new builder borrows `self`.
    pub fn reborrow(&mut self) -> StructBuilder<'_, A>
        ensures* lends { sem 𝓛 (follows (the_row (record { mir = named 1; lft = [] }) A.row) A.row
            self.entry.ghost_name result.arena.ghost_name
            (λ a. record self.old { arena = record self.old.arena { now = a } })) }
        ensures now { result.arena.now ≡ self.old.arena.now }
        ensures place { result.place ≡ self.old.place }
    {
        let place = self.place;
        let arena = &mut *self.arena;
        StructBuilder { arena, place }
    }

    /// Returns a reader of the struct. Reading charges nothing, and may enter `i32::MAX` levels of
    /// structs and lists. Precondition: the struct is inside the message.
    pub fn as_reader(&self) -> StructReader<'_, A>
        requires { IsStructPlace (A.view self.now.arena.now).words self.now.place }
        ensures { IsStructReader A.ReaderArena self.now result }
    {
        StructReader::at(&*self.arena, self.place, i32::MAX)
    }

    /// Turns the builder into a reader of the struct, for when building is over. Reading charges
    /// nothing, and may enter `i32::MAX` levels of structs and lists. Precondition: the struct is
    /// inside the message.
    pub fn into_reader(self) -> StructReader<'a, A>
        requires { IsStructPlace (A.view self.arena.now).words self.place }
        ensures { IsStructReader A.ReaderArena self.entry result }
    {
        let StructBuilder { arena, place } = self;
        StructReader::at(arena, place, i32::MAX)
    }

    /// Returns a builder of pointer `index` of the pointer section. Preconditions: the struct is
    /// inside the message; `index` is below the struct's number of pointers.
    pub fn get_pointer_field(self, index: usize) -> PointerBuilder<'a, A>
        requires inside { IsStructPlace (A.view self.arena.now).words self.place }
        requires field { index < self.place.pointers }
        ensures arena { IsSameArena self.entry.arena result.arena }
        ensures place { (result.segment ≡ self.entry.place.segment)
            × (result.at ≡ self.entry.place.pointers_at + index) }
        ensures inside { IsPlace (A.view result.arena.now).words result.segment result.at }
    {
        let StructBuilder { arena, place } = self;
        PointerBuilder {
            arena,
            segment: place.segment,
            at: place.pointers_at + index as u32,
        }
    }

    /// Replaces the struct's content by a plain copy of the content of `value`. Copies the data
    /// that fits both data sections, and zeroes the rest of the data section of `self`. Then makes
    /// all pointers of `self` null, zeroes what they held, and copies, in order, the pointers that
    /// both structs have. Charges `lim` what reading the values of the copied pointers costs, and
    /// nothing else. These values are read under the nesting limit of `value`.
    ///
    /// Precondition: the struct is inside the message.
    ///
    /// Refusals: the first refusal of reading the values of the copied pointers. If the copies
    /// don't fit after the words of the struct's segment, and no other segment has room for one of
    /// their objects: `AllocationFailed` if memory runs out; `MessageTooLarge(n)` if n is above
    /// 536,870,911, where n is the number of that object's words, plus one for a landing pad;
    /// `MessageTooLarge(usize::MAX)` if the message already has 4,294,967,295 segments. After a
    /// refusal, the data and the pointers before the refused pointer are copied; the refused
    /// pointer and those after it are null. The words that were allocated for the refused pointer
    /// are zero and stay allocated, and what was charged stays charged.
    pub fn copy_content_from<B: ReaderArena>(
        &mut self,
        value: &StructReader<'_, B>,
        lim: &mut ReadLimiter,
    ) -> Result<(), ErrorKind>
        requires inside { IsStructPlace (A.view self.old.arena.now).words self.old.place }
        ensures copied { IfOk result (λ _. TakesContent B.ReaderArena value.now self.old.place
            (pointers_copied self.old.place (A.view self.old.arena.now)
            (A.view self.new.arena.now) lim.old lim.new)) }
        ensures refused { IfErr result
            (StopsAtContent B.ReaderArena value.now self.old.place
            (pointers_copied self.old.place (A.view self.old.arena.now)
            (A.view self.new.arena.now) lim.old lim.new)) }
        ensures fits { ContentFits B.ReaderArena value.now self.old.place
            (pointers_copied self.old.place (A.view self.old.arena.now)
            (A.view self.new.arena.now) lim.old lim.new) → IsOk result }
        ensures taken { TakesAtMost result
            (children_original (pointers_read B.ReaderArena value.now)
            (min self.old.place.pointers value.now.pointer_count))
            (pointers_copied self.old.place (A.view self.old.arena.now)
            (A.view self.new.arena.now) lim.old lim.new) }
        ensures grows { Grows (A.view self.old.arena.now).words (A.view self.new.arena.now).words }
        ensures builder { KeepsStructBuilder A.view self.old self.new }
    {
        let place = self.place;
        let to = WordPlace {
            segment: place.segment,
            at: place.pointers_at,
        };
        write_content(&mut *self.arena, place, value.content, value.bits);
        clear_pointers(&mut *self.arena, to.segment, to.at, place.pointers);
        let from = Pointer {
            source: value.source,
            place: value.pointers,
            nesting_limit: value.nesting_limit,
        };
        let count = u32::from(place.pointers.min(value.pointer_count));
        copy::copy_each(&mut *self.arena, to, from, count, lim)
    }

    /// Whether pointer `index` of the pointer section is null. Preconditions: the struct is inside
    /// the message; `index` is below the struct's number of pointers.
    pub fn is_pointer_field_null(&self, index: usize) -> bool
        requires inside { IsStructPlace (A.view self.now.arena.now).words self.now.place }
        requires field { index < self.now.place.pointers }
        ensures { IsTrue result
            ↔ (word_at (A.view self.now.arena.now).words self.now.place.segment
            (self.now.place.pointers_at + index) ≡ 0) }
    {
        self.as_reader().is_pointer_field_null(index)
    }

    /// Writes the field of the data section at `offset`, counted in values of `T`. Preconditions:
    /// the struct is inside the message; the field at `offset` is inside the data section.
    pub fn set_data_field<T: Primitive + Zero>(&mut self, offset: usize, value: T)
        requires { HoldsField A.view self.old (8 * T.BYTES) offset }
        ensures written { WritesField (A.view self.old.arena.now)
            (A.view self.new.arena.now) self.old.place.segment self.old.place.byte
            (number_field T.BYTES offset (T.bits_of value)) }
        ensures grows { Grows (A.view self.old.arena.now).words (A.view self.new.arena.now).words }
        ensures builder { KeepsStructBuilder A.view self.old self.new }
    {
        fields::write_number(&mut *self.arena, self.place, offset, value);
    }

    /// Like `set_data_field`, for a field with the default `mask`: `get_data_field_mask` with the
    /// same mask then returns `value`. Preconditions: the struct is inside the message; the field
    /// at `offset` is inside the data section.
    pub fn set_data_field_mask<T: Primitive + Zero + Mask>(
        &mut self,
        offset: usize,
        value: T,
        mask: <T as Mask>::T,
    )
        requires { HoldsField A.view self.old (8 * T.BYTES) offset }
        ensures written { WritesField (A.view self.old.arena.now)
            (A.view self.new.arena.now) self.old.place.segment self.old.place.byte
            (number_field T.BYTES offset (T.bits_of (T.masked value mask))) }
        ensures grows { Grows (A.view self.old.arena.now).words (A.view self.new.arena.now).words }
        ensures builder { KeepsStructBuilder A.view self.old self.new }
    {
        self.set_data_field(offset, T::mask(value, mask));
    }

    /// Writes bit `offset` of the data section. Preconditions: the struct is inside the message;
    /// bit `offset` is inside the data section.
    pub fn set_bool_field(&mut self, offset: usize, value: bool)
        requires { HoldsBit A.view self.old offset }
        ensures written { WritesField (A.view self.old.arena.now)
            (A.view self.new.arena.now) self.old.place.segment self.old.place.byte
            (field offset 1 (cond value 1 0)) }
        ensures grows { Grows (A.view self.old.arena.now).words (A.view self.new.arena.now).words }
        ensures builder { KeepsStructBuilder A.view self.old self.new }
    {
        fields::write_bit(&mut *self.arena, self.place, offset, value);
    }

    /// Like `set_bool_field`, for a bit with the default `mask`: `get_bool_field_mask` with the
    /// same mask then returns `value`. Preconditions: the struct is inside the message; bit
    /// `offset` is inside the data section.
    pub fn set_bool_field_mask(&mut self, offset: usize, value: bool, mask: bool)
        requires { HoldsBit A.view self.old offset }
        ensures written { WritesField (A.view self.old.arena.now)
            (A.view self.new.arena.now) self.old.place.segment self.old.place.byte
            (field offset 1 (cond mask (cond value 0 1) (cond value 1 0))) }
        ensures grows { Grows (A.view self.old.arena.now).words (A.view self.new.arena.now).words }
        ensures builder { KeepsStructBuilder A.view self.old self.new }
    {
        self.set_bool_field(offset, value != mask);
    }

    /// Returns the field of the data section at `offset`, counted in values of `T`. Preconditions:
    /// the struct is inside the message; the field at `offset` is inside the data section.
    pub fn get_data_field<T: Primitive + Zero>(&self, offset: usize) -> T
        requires { HoldsField A.view self.now (8 * T.BYTES) offset }
        ensures { HasField (A.view self.now.arena.now) self.now.place.segment self.now.place.byte
            (number_field T.BYTES offset (T.bits_of result)) }
    {
        let byte = self.place.byte + (offset * T::BYTES) as u64;
        numbers::get_number(&*self.arena, self.place.segment, byte)
    }

    /// Returns what `get_data_field` returns, with the field's default `mask` applied.
    /// Preconditions: the struct is inside the message; the field at `offset` is inside the data
    /// section.
    pub fn get_data_field_mask<T: Primitive + Zero + Mask>(
        &self,
        offset: usize,
        mask: <T as Mask>::T,
    ) -> T
        requires { HoldsField A.view self.now (8 * T.BYTES) offset }
        ensures { (raw : T)
            × HasField (A.view self.now.arena.now) self.now.place.segment self.now.place.byte
            (number_field T.BYTES offset (T.bits_of raw))
            × (result ≡ T.masked raw mask) }
    {
        T::mask(self.get_data_field(offset), mask)
    }

    /// Returns bit `offset` of the data section. Preconditions: the struct is inside the message;
    /// bit `offset` is inside the data section.
    pub fn get_bool_field(&self, offset: usize) -> bool
        requires { HoldsBit A.view self.now offset }
        ensures { IsTrue result
            ↔ (field_in (segment (A.view self.now.arena.now).words self.now.place.segment)
            (8 * self.now.place.byte + offset) 1 ≡ 1) }
    {
        let bit = 8 * self.place.byte + offset as u64;
        numbers::get_bit(&*self.arena, self.place.segment, bit)
    }

    /// Returns what `get_bool_field` returns, with the bit's default `mask` applied. Preconditions:
    /// the struct is inside the message; bit `offset` is inside the data section.
    pub fn get_bool_field_mask(&self, offset: usize, mask: bool) -> bool
        requires { HoldsBit A.view self.now offset }
        ensures plain { mask ≡ false
            → (IsTrue result
            ↔ (field_in (segment (A.view self.now.arena.now).words self.now.place.segment)
            (8 * self.now.place.byte + offset) 1 ≡ 1)) }
        ensures turned { mask ≡ true → (IsTrue result
            ↔ (field_in (segment (A.view self.now.arena.now).words self.now.place.segment)
            (8 * self.now.place.byte + offset) 1 ≡ 1 → ⊥)) }
    {
        self.get_bool_field(offset) != mask
    }
}
