//! The text of generated builders. A word between two `~` stands for what `push_filled` puts there.

/// The sections of a struct.
pub const SIZE: &str = "/// The sections of a struct ~full~.
pub const SIZE: StructSize = StructSize {
    data_words: ~data~,
    pointers: ~pointers~,
};

";

/// What each struct and group has.
pub const BUILDER: &str = "/// The place of ~what~ ~full~.
#[derive(Clone, Copy, Debug)]
pub struct Builder {
    /// The place of the struct.
    pub place: StructPlace,
}
";

/// What each struct has, so that calls that return its place return its builder.
pub const FROM_PLACE: &str = "
impl FromStructPlace for Builder {
    ghost place_of = { λ b. b.place };

    fn from_place(place: StructPlace) -> Self
        ensures { result.place ≡ place }
    {
        Builder { place }
    }
}
";

/// The root of a message, which can be a struct, and no group.
pub const ROOT: &str = "    /// Makes the root of a message a struct ~full~.
    ///
    /// Its fields have their default values.
    pub fn init_root<A: BuilderArena>(arena: &mut A) -> Result<Self, ErrorKind>
        requires { IsPlace (A.view arena.old).words 0 0 }
        ensures object { MakesObject result (call_at 0 0 (A.view arena.old) (A.view arena.new))
            (zero_struct ~owner~_size) ~words~ }
        ensures grows { Grows (A.view arena.old).words (A.view arena.new).words }
        ensures there { IfOk result (λ b.
            HasStructPlace (A.view arena.new).words ~owner~_size b.place) }
        ensures made { (t : Tree) → IsStored (A.view arena.old).words 0 0 t
            → IfOk result (λ b. HasStruct (A.view arena.new).words (pointer_to 0 0) b.place
            (words_of_zero ~data~) (nulls ~pointers~)) }
    {
        places::init_root(arena, SIZE)
    }
";

/// A list of structs.
pub const BUILDERS: &str = "
/// The place of a list of ~full~.
#[derive(Clone, Copy, Debug)]
pub struct Builders {
    /// The place of the list.
    pub place: ListPlace,
}

impl FromListPlace for Builders {
    ghost place_of = { λ b. b.place };

    fn from_place(place: ListPlace) -> Self
        ensures { result.place ≡ place }
    {
        Builders { place }
    }
}

impl Builders {
    /// The number of elements.
    pub fn len(self) -> u32
        ensures { result ≡ self.place.count }
    {
        self.place.count
    }

    /// Returns element `index`. Precondition: `index` is below the number of elements.
    pub fn get<A: BuilderArena>(self, arena: &A, index: u32) -> Builder
        requires there { HasStructsPlace (A.view arena.now).words ~owner~_size self.place }
        requires range { index < self.place.count }
        ensures there { HasStructPlace (A.view arena.now).words ~owner~_size result.place }
        ensures place { result.place ≡ element_place self.place.size self.place index }
    {
        Builder {
            place: list::element(arena, self.place, SIZE, index),
        }
    }
}
";

/// What each call that reads ensures begins with.
pub const READS: &str = "(x : Holder) (ws : List ℕ) (ts : Trees)
            → HasStruct (A.view arena.now).words x self.place ws ts
            → ";

/// An enum: the number of each name.
pub const NUMBER: &str = "pub use ~reading~::~module~::{~enum~, of_number};

/// Returns the number of `value`.
pub fn number(value: ~enum~) -> u16
    ensures { result ≡ ~module~_number value }
{
    match value {
~arms~    }
}
";

/// The definition of a struct's sections.
pub const SIZE_DEFINITION: &str = "
-- ~full~
abbrev pub ~owner~_size : StructSize
~owner~_size = sized ~data~ ~pointers~
";

/// What is before these definitions.
pub const SIZE_DEFINITIONS: &str = "-- The sections of the structs.
use Rattle.capnp_words.specs.Sizes.{sized}
use Rattle.capnp_words.specs.declared.wire_pointer.StructSize.{StructSize}
";
