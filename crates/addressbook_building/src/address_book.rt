//! AddressBook
ghost use Rattle.std.specs.Prelude.{◌≡◌, ◌≢◌, ◌<◌, ◌+◌, ◌*◌, ◌^◌, ◌↔◌, ℕ, List, IsTrue, IfOk, IfErr, IsOk};
ghost use Rattle.capnp_format.specs.Path.{struct_at, tree_at};
ghost use Rattle.capnp_format.specs.Segments.{Grows, IsPlace};
ghost use Rattle.capnp_format.specs.Tree.{Elements, Null, Struct, Structs, Tree, Trees, element_count};
ghost use Rattle.capnp_words.specs.Sizes.{sized};
ghost use Rattle.capnp_allocation.specs.Made.{nulls, words_of_zero, zero_elements, zero_struct, zero_structs};
ghost use Rattle.capnp_allocation.specs.Makes.{MakesObject, call_at};
ghost use Rattle.capnp_allocation.specs.Stored.{IsStored};
ghost use Rattle.capnp_in_place.specs.Rooms.{WiderListFits};
ghost use Rattle.capnp_pointers.specs.Wanted.{plain};
ghost use Rattle.capnp_readers.specs.Values.{ShowsListOf};
ghost use Rattle.capnp_copies.specs.Changes.{copy_call};
ghost use Rattle.capnp_copies.specs.Rooms.{CanBeCopied};
ghost use Rattle.capnp_builders.specs.ListValues.{list_read};
ghost use Rattle.capnp_builders.specs.Held.{HasStruct, Holder, MakesChild, call_in, element_of, pointer_to};
ghost use Rattle.capnp_builders.specs.Kept.{LeavesCleared, PutsCopy};
ghost use Rattle.capnp_builders.specs.Places.{element_place};
ghost use Rattle.typed_building.specs.Copied.{copied_list};
ghost use Rattle.typed_building.specs.Opened.{OpensChild, opened_list};
ghost use Rattle.typed_building.specs.There.{HasStructPlace, HasStructsPlace, call_on};
ghost use Rattle.typed_reading.specs.Values.{child};
ghost use Rattle.addressbook_building.specs.Sizes.{person_size, address_book_size};

use crate::person;
use capnp_arena_traits::arena::{BuilderArena, ReaderArena};
use capnp_readers::readers::{ListPlace, StructPlace};
use capnp_words::error::ErrorKind;
use capnp_words::read_limiter::ReadLimiter;
use capnp_words::wire_pointer::StructSize;
use typed_building::places::{FromListPlace, FromStructPlace};
use typed_building::{copying, list, places, reading};

/// The sections of a struct AddressBook.
pub const SIZE: StructSize = StructSize {
    data_words: 0,
    pointers: 1,
};

/// The place of a struct AddressBook.
#[derive(Clone, Copy, Debug)]
pub struct Builder {
    /// The place of the struct.
    pub place: StructPlace,
}

impl FromStructPlace for Builder {
    ghost place_of = { λ b. b.place };

    fn from_place(place: StructPlace) -> Self
        ensures { result.place ≡ place }
    {
        Builder { place }
    }
}

impl Builder {
    /// Makes the root of a message a struct AddressBook.
    ///
    /// Its fields have their default values.
    pub fn init_root<A: BuilderArena>(arena: &mut A) -> Result<Self, ErrorKind>
        requires { IsPlace (A.view arena.old).words 0 0 }
        ensures object { MakesObject result (call_at 0 0 (A.view arena.old) (A.view arena.new))
            (zero_struct address_book_size) 1 }
        ensures grows { Grows (A.view arena.old).words (A.view arena.new).words }
        ensures there { IfOk result (λ b.
            HasStructPlace (A.view arena.new).words address_book_size b.place) }
        ensures made { (t : Tree) → IsStored (A.view arena.old).words 0 0 t
            → IfOk result (λ b. HasStruct (A.view arena.new).words (pointer_to 0 0) b.place
            (words_of_zero 0) (nulls 1)) }
    {
        places::init_root(arena, SIZE)
    }

    /// people @0 :List(Person)
    pub fn init_people<A: BuilderArena>(
        self,
        arena: &mut A,
        count: u32,
    ) -> Result<person::Builders, ErrorKind>
        requires there { HasStructPlace (A.view arena.old).words address_book_size self.place }
        requires few { count * 5 < 2 ^ 29 }
        ensures object { MakesObject result
            (call_on self.place 0 (A.view arena.old) (A.view arena.new))
            (zero_structs count person_size) (1 + count * 5) }
        ensures grows { Grows (A.view arena.old).words (A.view arena.new).words }
        ensures there { IfOk result (λ list.
            HasStructsPlace (A.view arena.new).words person_size list.place) }
        ensures count { IfOk result (λ list. list.place.count ≡ count) }
        ensures made { (x : Holder) (ws : List ℕ) (ts : Trees) (i : ℕ) → i < count
            → HasStruct (A.view arena.old).words x self.place ws ts
            → IfOk result (λ list. HasStruct (A.view arena.new).words
            (element_of self.place.segment (self.place.pointers_at + 0)
            person_size (zero_elements 1 4 count) i)
            (element_place list.place.size list.place i)
            (words_of_zero 1) (nulls 4)) }
        ensures child { MakesChild result
            (call_in self.place (A.view arena.old).words (A.view arena.new).words) 0
            (zero_structs count person_size) }
    {
        places::init_struct_list(arena, self.place, 0, count, person::SIZE)
    }

    /// Returns people, for writing.
    ///
    /// Makes structs that are too small larger. Null is a list without elements.
    pub fn get_people<A: BuilderArena>(self, arena: &mut A) -> Result<person::Builders, ErrorKind>
        requires { HasStructPlace (A.view arena.old).words address_book_size self.place }
        ensures fits { WiderListFits
            (IsStored (A.view arena.old).words self.place.segment (self.place.pointers_at + 0))
            (A.view arena.old) self.place.segment (self.place.pointers_at + 0)
            person_size
            → IsOk result }
        ensures child { OpensChild result
            (call_in self.place (A.view arena.old).words (A.view arena.new).words) 0
            (opened_list person_size) }
        ensures there { (x : Holder) (ws : List ℕ) (ts : Trees)
            → HasStruct (A.view arena.old).words x self.place ws ts
            → IfOk result (λ list.
            HasStructsPlace (A.view arena.new).words person_size list.place) }
        ensures made { (x : Holder) (ws : List ℕ) (ts : Trees) (d q : ℕ) (es : Elements) (i : ℕ)
            (vs : List ℕ) (us : Trees)
            → HasStruct (A.view arena.old).words x self.place ws ts
            → opened_list person_size (tree_at ts 0)
            ≡ Structs d q es
            → i < element_count es → struct_at es i ≡ Struct vs us
            → IfOk result (λ list. HasStruct (A.view arena.new).words
            (element_of self.place.segment (self.place.pointers_at + 0) (sized d q) es i)
            (element_place list.place.size list.place i) vs us) }
        ensures grows { (x : Holder) (ws : List ℕ) (ts : Trees)
            → HasStruct (A.view arena.old).words x self.place ws ts
            → Grows (A.view arena.old).words (A.view arena.new).words }
    {
        places::get_struct_list(arena, self.place, 0, person::SIZE)
    }

    /// Sets people to a copy of `from`.
    ///
    /// Charges `lim` what reading what its pointers lead to costs.
    pub fn set_people<A: BuilderArena, B: ReaderArena>(
        self,
        arena: &mut A,
        from: &addressbook_reading::person::Readers<'_, B>,
        lim: &mut ReadLimiter,
    ) -> Result<(), ErrorKind>
        requires { HasStructPlace (A.view arena.old).words address_book_size self.place }
        ensures fits { CanBeCopied
            (list_read B.ReaderArena from.now.list.reader) plain lim.old
            (A.view arena.old) self.place.segment
            → IsOk result }
        ensures grows { Grows (A.view arena.old).words (A.view arena.new).words }
        ensures child { (t : Tree) → ShowsListOf B.ReaderArena from.now.list.reader t
            → MakesChild result
            (call_in self.place (A.view arena.old).words (A.view arena.new).words) 0
            (copied_list from.now.list.reader.element_size from.now.list.reader.struct_size t) }
        ensures copied { IfOk result (λ _. PutsCopy
            (list_read B.ReaderArena from.now.list.reader)
            (copy_call plain
            (call_on self.place 0 (A.view arena.old) (A.view arena.new))
            lim.old lim.new)) }
        ensures refused { IfErr result (LeavesCleared
            (list_read B.ReaderArena from.now.list.reader)
            (copy_call plain
            (call_on self.place 0 (A.view arena.old) (A.view arena.new))
            lim.old lim.new)) }
    {
        copying::set_list_from(arena, self.place, 0, &from.list.reader, lim)
    }

    /// Whether the pointer of people is not null.
    pub fn has_people<A: BuilderArena>(self, arena: &A) -> bool
        requires { HasStructPlace (A.view arena.now).words address_book_size self.place }
        ensures { (x : Holder) (ws : List ℕ) (ts : Trees)
            → HasStruct (A.view arena.now).words x self.place ws ts
            → (IsTrue result ↔ (child 0 (Struct ws ts) ≢ Null)) }
    {
        reading::has(arena, self.place, 0)
    }
}

/// The place of a list of AddressBook.
#[derive(Clone, Copy, Debug)]
pub struct Builders {
    /// The place of the list.
    pub place: ListPlace,
}

impl FromListPlace for Builders {
    ghost place_of = { λ b. b.place };

    fn from_place(place: ListPlace) -> Self
        ensures { result.place ≡ place }
    {
        Builders { place }
    }
}

impl Builders {
    /// The number of elements.
    pub fn len(self) -> u32
        ensures { result ≡ self.place.count }
    {
        self.place.count
    }

    /// Returns element `index`. Precondition: `index` is below the number of elements.
    pub fn get<A: BuilderArena>(self, arena: &A, index: u32) -> Builder
        requires there { HasStructsPlace (A.view arena.now).words address_book_size self.place }
        requires range { index < self.place.count }
        ensures there { HasStructPlace (A.view arena.now).words address_book_size result.place }
        ensures place { result.place ≡ element_place self.place.size self.place index }
    {
        Builder {
            place: list::element(arena, self.place, SIZE, index),
        }
    }
}
