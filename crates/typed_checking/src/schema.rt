//! The table of a schema as a part of a type, and the members of unions.
ghost use Rattle.std.specs.Prelude.{◌≡◌, ℕ, List};

/// The table of a schema, as `typed_conforming::schema` describes it.
pub trait Schema {
    ghost table: { List ℕ };

    /// Returns the table.
    fn table() -> &'static [u32]
        ensures { result.now ≡ table };
}

/// A member of a union: where the union's tag is in the struct's data, counted in 16 bits, and the
/// number that the tag has if the member is set.
#[derive(Clone, Copy, Debug, PartialEq, Eq)]
pub struct Member(pub u32, pub u16);
