//! Person.PhoneNumber
ghost use Rattle.std.specs.Prelude.{◌≡◌, ◌≢◌, ◌<◌, ◌≤◌, ◌+◌, ◌^◌, ◌++◌, ◌∷◌, ◌↔◌, [], ℕ, List, IsTrue, IfOk, IfErr, length};
ghost use Rattle.capnp_format.specs.Numbers.{words_for};
ghost use Rattle.capnp_format.specs.Segments.{Grows, IsPlace};
ghost use Rattle.capnp_format.specs.Tree.{Flat, Null, Struct, Tree, Trees};
ghost use Rattle.capnp_allocation.specs.Made.{nulls, words_of_zero, zero_struct};
ghost use Rattle.capnp_allocation.specs.Makes.{MakesObject, call_at};
ghost use Rattle.capnp_allocation.specs.Stored.{IsStored};
ghost use Rattle.capnp_in_place.specs.Anew.{OnlyWrites};
ghost use Rattle.capnp_builders.specs.Held.{HasStruct, Holder, MakesChild, ReplacesField, SetsField, call_in, pointer_to};
ghost use Rattle.capnp_builders.specs.Places.{element_place, field};
ghost use Rattle.typed_building.specs.There.{HasStructPlace, HasStructsPlace, call_on};
ghost use Rattle.typed_reading.specs.Values.{child};
ghost use Rattle.addressbook_building.specs.Sizes.{person_phone_number_size};
ghost use Rattle.addressbook_reading.specs.Schema.{person_phone_number_type};
ghost use Rattle.addressbook_reading.specs.OfPersonPhoneNumberType.{person_phone_number_type_number};

use crate::person_phone_number_type;
use capnp_arena_traits::arena::BuilderArena;
use capnp_readers::readers::{ListPlace, StructPlace};
use capnp_words::error::ErrorKind;
use capnp_words::wire_pointer::StructSize;
use typed_building::places::{FromListPlace, FromStructPlace};
use typed_building::{list, places, reading, value};
use typed_reading::error::NotInSchema;

/// The sections of a struct Person.PhoneNumber.
pub const SIZE: StructSize = StructSize {
    data_words: 1,
    pointers: 1,
};

/// The place of a struct Person.PhoneNumber.
#[derive(Clone, Copy, Debug)]
pub struct Builder {
    /// The place of the struct.
    pub place: StructPlace,
}

impl FromStructPlace for Builder {
    ghost place_of = { λ b. b.place };

    fn from_place(place: StructPlace) -> Self
        ensures { result.place ≡ place }
    {
        Builder { place }
    }
}

impl Builder {
    /// Makes the root of a message a struct Person.PhoneNumber.
    ///
    /// Its fields have their default values.
    pub fn init_root<A: BuilderArena>(arena: &mut A) -> Result<Self, ErrorKind>
        requires { IsPlace (A.view arena.old).words 0 0 }
        ensures object { MakesObject result (call_at 0 0 (A.view arena.old) (A.view arena.new))
            (zero_struct person_phone_number_size) 2 }
        ensures grows { Grows (A.view arena.old).words (A.view arena.new).words }
        ensures there { IfOk result (λ b.
            HasStructPlace (A.view arena.new).words person_phone_number_size b.place) }
        ensures made { (t : Tree) → IsStored (A.view arena.old).words 0 0 t
            → IfOk result (λ b. HasStruct (A.view arena.new).words (pointer_to 0 0) b.place
            (words_of_zero 1) (nulls 1)) }
    {
        places::init_root(arena, SIZE)
    }

    /// number @0 :Text
    pub fn set_number<A: BuilderArena>(self, arena: &mut A, text: &[u8]) -> Result<(), ErrorKind>
        requires there { HasStructPlace (A.view arena.old).words
            person_phone_number_size self.place }
        requires few { length text.now + 1 < 2 ^ 29 }
        ensures object { MakesObject result
            (call_on self.place 0 (A.view arena.old) (A.view arena.new))
            (Flat 2 (text.now ++ 0 ∷ [])) (words_for 2 (length text.now + 1)) }
        ensures grows { Grows (A.view arena.old).words (A.view arena.new).words }
        ensures child { MakesChild result
            (call_in self.place (A.view arena.old).words (A.view arena.new).words) 0
            (Flat 2 (text.now ++ 0 ∷ [])) }
    {
        value::set_text(arena, self.place, 0, text)
    }

    /// Whether the pointer of number is not null.
    pub fn has_number<A: BuilderArena>(self, arena: &A) -> bool
        requires { HasStructPlace (A.view arena.now).words person_phone_number_size self.place }
        ensures { (x : Holder) (ws : List ℕ) (ts : Trees)
            → HasStruct (A.view arena.now).words x self.place ws ts
            → (IsTrue result ↔ (child 0 (Struct ws ts) ≢ Null)) }
    {
        reading::has(arena, self.place, 0)
    }

    /// type @1 :Person.PhoneNumber.Type
    #[tactic(auto, using(typed_building::proofs::Sets::sets_as, typed_building::proofs::Sets::replaces_as))]
    pub fn set_type<A: BuilderArena>(self, arena: &mut A, value: person_phone_number_type::Type_)
        requires { HasStructPlace (A.view arena.old).words person_phone_number_size self.place }
        ensures grows { Grows (A.view arena.old).words (A.view arena.new).words }
        ensures sets { SetsField
            (call_in self.place (A.view arena.old).words (A.view arena.new).words)
            (field 0 16 (person_phone_number_type_number value)) }
        ensures replaces { ReplacesField
            (call_in self.place (A.view arena.old).words (A.view arena.new).words)
            (field 0 16 (person_phone_number_type_number value)) }
        ensures memory { OnlyWrites (A.view arena.old) (A.view arena.new) }
    {
        value::set_number(
            arena,
            self.place,
            0,
            person_phone_number_type::number(value),
        );
    }

    /// Returns type.
    pub fn get_type<A: BuilderArena>(
        self,
        arena: &A,
    ) -> Result<person_phone_number_type::Type_, NotInSchema>
        requires { HasStructPlace (A.view arena.now).words person_phone_number_size self.place }
        ensures value { (x : Holder) (ws : List ℕ) (ts : Trees)
            → HasStruct (A.view arena.now).words x self.place ws ts
            → IfOk result (λ e. person_phone_number_type_number e
            ≡ person_phone_number_type (Struct ws ts)) }
        ensures unknown { (x : Holder) (ws : List ℕ) (ts : Trees)
            → HasStruct (A.view arena.now).words x self.place ws ts
            → IfErr result (λ e. (e.0 ≡ person_phone_number_type (Struct ws ts))
            × (3 ≤ person_phone_number_type (Struct ws ts))) }
    {
        let number = reading::get_number(arena, self.place, 0);
        person_phone_number_type::of_number(number)
    }
}

/// The place of a list of Person.PhoneNumber.
#[derive(Clone, Copy, Debug)]
pub struct Builders {
    /// The place of the list.
    pub place: ListPlace,
}

impl FromListPlace for Builders {
    ghost place_of = { λ b. b.place };

    fn from_place(place: ListPlace) -> Self
        ensures { result.place ≡ place }
    {
        Builders { place }
    }
}

impl Builders {
    /// The number of elements.
    pub fn len(self) -> u32
        ensures { result ≡ self.place.count }
    {
        self.place.count
    }

    /// Returns element `index`. Precondition: `index` is below the number of elements.
    pub fn get<A: BuilderArena>(self, arena: &A, index: u32) -> Builder
        requires there { HasStructsPlace (A.view arena.now).words
            person_phone_number_size self.place }
        requires range { index < self.place.count }
        ensures there { HasStructPlace (A.view arena.now).words
            person_phone_number_size result.place }
        ensures place { result.place ≡ element_place self.place.size self.place index }
    {
        Builder {
            place: list::element(arena, self.place, SIZE, index),
        }
    }
}
