//! Person.employment
ghost use Rattle.std.specs.Prelude.{◌≡◌, ◌≢◌, ◌<◌, ◌≤◌, ◌+◌, ◌^◌, ◌++◌, ◌∷◌, ◌↔◌, [], ℕ, List, IsTrue, IfOk, IfErr, length};
ghost use Rattle.capnp_format.specs.Numbers.{words_for};
ghost use Rattle.capnp_format.specs.Segments.{Grows};
ghost use Rattle.capnp_format.specs.Tree.{Flat, Null, Struct, Trees};
ghost use Rattle.capnp_allocation.specs.Makes.{Allocates};
ghost use Rattle.capnp_in_place.specs.Anew.{OnlyWrites};
ghost use Rattle.capnp_builders.specs.Held.{HasStruct, Holder, ReplacesField, SetsField, call_in};
ghost use Rattle.capnp_builders.specs.Places.{field};
ghost use Rattle.typed_building.specs.Members.{MakesMember, tagged};
ghost use Rattle.typed_building.specs.There.{HasStructPlace, call_on};
ghost use Rattle.typed_reading.specs.Values.{child};
ghost use Rattle.addressbook_building.specs.Sizes.{person_size};
ghost use Rattle.addressbook_reading.specs.Schema.{person_employment_tag};
ghost use Rattle.addressbook_reading.specs.OfPersonEmploymentWhich.{person_employment_which_number};

use capnp_arena_traits::arena::BuilderArena;
use capnp_readers::readers::StructPlace;
use capnp_words::error::ErrorKind;
use typed_building::tag::UnionTag;
use typed_building::{reading, value};
use typed_reading::error::NotInSchema;

/// The place of the group Person.employment.
#[derive(Clone, Copy, Debug)]
pub struct Builder {
    /// The place of the struct.
    pub place: StructPlace,
}

impl Builder {
    /// unemployed @4 :Void
    pub fn set_unemployed<A: BuilderArena>(self, arena: &mut A)
        requires { HasStructPlace (A.view arena.old).words person_size self.place }
        ensures grows { Grows (A.view arena.old).words (A.view arena.new).words }
        ensures sets { SetsField
            (call_in self.place (A.view arena.old).words (A.view arena.new).words)
            (field 32 16 0) }
        ensures replaces { ReplacesField
            (call_in self.place (A.view arena.old).words (A.view arena.new).words)
            (field 32 16 0) }
        ensures memory { OnlyWrites (A.view arena.old) (A.view arena.new) }
    {
        let tag = UnionTag {
            offset: 2,
            number: 0,
        };
        value::set_tag(arena, self.place, tag);
    }

    /// employer @5 :Text
    pub fn set_employer<A: BuilderArena>(self, arena: &mut A, text: &[u8]) -> Result<(), ErrorKind>
        requires there { HasStructPlace (A.view arena.old).words person_size self.place }
        requires few { length text.now + 1 < 2 ^ 29 }
        ensures grows { Grows (A.view arena.old).words (A.view arena.new).words }
        ensures member { MakesMember result
            (call_in self.place (A.view arena.old).words (A.view arena.new).words)
            (tagged 2 1) 3 (Flat 2 (text.now ++ 0 ∷ [])) }
        ensures memory { Allocates result
            (call_on self.place 3 (A.view arena.old) (A.view arena.new))
            (words_for 2 (length text.now + 1)) }
    {
        let tag = UnionTag {
            offset: 2,
            number: 1,
        };
        value::set_text_member(arena, self.place, tag, 3, text)
    }

    /// Whether the pointer of employer is not null.
    pub fn has_employer<A: BuilderArena>(self, arena: &A) -> bool
        requires { HasStructPlace (A.view arena.now).words person_size self.place }
        ensures { (x : Holder) (ws : List ℕ) (ts : Trees)
            → HasStruct (A.view arena.now).words x self.place ws ts
            → (IsTrue result ↔ (child 3 (Struct ws ts) ≢ Null)) }
    {
        reading::has(arena, self.place, 3)
    }

    /// school @6 :Text
    pub fn set_school<A: BuilderArena>(self, arena: &mut A, text: &[u8]) -> Result<(), ErrorKind>
        requires there { HasStructPlace (A.view arena.old).words person_size self.place }
        requires few { length text.now + 1 < 2 ^ 29 }
        ensures grows { Grows (A.view arena.old).words (A.view arena.new).words }
        ensures member { MakesMember result
            (call_in self.place (A.view arena.old).words (A.view arena.new).words)
            (tagged 2 2) 3 (Flat 2 (text.now ++ 0 ∷ [])) }
        ensures memory { Allocates result
            (call_on self.place 3 (A.view arena.old) (A.view arena.new))
            (words_for 2 (length text.now + 1)) }
    {
        let tag = UnionTag {
            offset: 2,
            number: 2,
        };
        value::set_text_member(arena, self.place, tag, 3, text)
    }

    /// Whether the pointer of school is not null.
    pub fn has_school<A: BuilderArena>(self, arena: &A) -> bool
        requires { HasStructPlace (A.view arena.now).words person_size self.place }
        ensures { (x : Holder) (ws : List ℕ) (ts : Trees)
            → HasStruct (A.view arena.now).words x self.place ws ts
            → (IsTrue result ↔ (child 3 (Struct ws ts) ≢ Null)) }
    {
        reading::has(arena, self.place, 3)
    }

    /// selfEmployed @7 :Void
    pub fn set_self_employed<A: BuilderArena>(self, arena: &mut A)
        requires { HasStructPlace (A.view arena.old).words person_size self.place }
        ensures grows { Grows (A.view arena.old).words (A.view arena.new).words }
        ensures sets { SetsField
            (call_in self.place (A.view arena.old).words (A.view arena.new).words)
            (field 32 16 3) }
        ensures replaces { ReplacesField
            (call_in self.place (A.view arena.old).words (A.view arena.new).words)
            (field 32 16 3) }
        ensures memory { OnlyWrites (A.view arena.old) (A.view arena.new) }
    {
        let tag = UnionTag {
            offset: 2,
            number: 3,
        };
        value::set_tag(arena, self.place, tag);
    }

    /// Returns which member is set.
    pub fn which<A: BuilderArena>(
        self,
        arena: &A,
    ) -> Result<addressbook_reading::person_employment_which::Which, NotInSchema>
        requires { HasStructPlace (A.view arena.now).words person_size self.place }
        ensures value { (x : Holder) (ws : List ℕ) (ts : Trees)
            → HasStruct (A.view arena.now).words x self.place ws ts
            → IfOk result (λ e. person_employment_which_number e
            ≡ person_employment_tag (Struct ws ts)) }
        ensures unknown { (x : Holder) (ws : List ℕ) (ts : Trees)
            → HasStruct (A.view arena.now).words x self.place ws ts
            → IfErr result (λ e. (e.0 ≡ person_employment_tag (Struct ws ts))
            × (4 ≤ person_employment_tag (Struct ws ts))) }
    {
        let number = reading::get_number(arena, self.place, 2);
        addressbook_reading::person_employment_which::of_number(number)
    }
}
