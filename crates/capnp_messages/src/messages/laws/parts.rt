//! What a path leads to in a message that has a value.

ghost use Rattle.std.specs.Prelude.{◌≡◌, ◌⊎◌, ◌+◌, ℕ, List, true, Some, None, Ok, Err};
ghost use Rattle.capnp_words.specs.declared.error.ErrorKind.{ErrorKind};
ghost use Rattle.capnp_words.specs.declared.error.ErrorKind.TheVariants.{NoSuchPlace, ReadLimitExceeded};
ghost use Rattle.capnp_words.specs.Meter.{FitsIn, Meter};
ghost use Rattle.capnp_format.specs.Means.{Means};
ghost use Rattle.capnp_format.specs.Segments.{Segments};
ghost use Rattle.capnp_format.specs.Tree.{Tree};
ghost use Rattle.capnp_messages.specs.EndValues.{EndMeans, end_place};
ghost use Rattle.capnp_messages.specs.Parts.{PathEnd, part, part_of};
ghost use Rattle.capnp_messages.specs.Roots.{CoversRoot};

/// If the root of a message means a value t, a path that is followed leads to a pointer or an element
/// of the message which means the part of t at the end of the path. If the limiter covers reading all of
/// t, it then still covers reading the part (`found`). A path is refused for one of two reasons: it
/// leads nowhere in t, or the limiter doesn't cover reading all of t (`refused`).
pub fn parts_found()
    ensures found { (S : Segments) (n c : ℕ) (t : Tree) (path : List ℕ) (m m' : Meter) (e : PathEnd)
        → Means S n 0 0 t c → CoversRoot S m.left → part S n path m ≡ (Ok e, m')
        → (u : Tree) × (k : ℕ) × (part_of t path ≡ Some u) × EndMeans e u k
        × ((end_place e).segments ≡ S) × ((end_place e).charging ≡ true)
        × (FitsIn m.left (1 + c) → FitsIn m'.left k) }
    ensures refused { (S : Segments) (n c : ℕ) (t : Tree) (path : List ℕ) (m m' : Meter)
        (k : ErrorKind) → Means S n 0 0 t c → CoversRoot S m.left
        → part S n path m ≡ (Err k, m')
        → ((k ≡ NoSuchPlace) × (part_of t path ≡ None))
        ⊎ ((k ≡ ReadLimitExceeded) × (FitsIn m.left (1 + c) → ⊥)) }
{}
