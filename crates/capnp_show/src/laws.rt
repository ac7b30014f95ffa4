//! Laws of the line of JSON that is written of a value. The function does nothing: its contract is
//! the law, proved for all values. `specs/Line.antt` has the line.

ghost use Rattle.std.specs.Prelude.{◌≡◌, ◌++◌, ℕ, List};
ghost use Rattle.capnp_format.specs.Means.{Means};
ghost use Rattle.capnp_format.specs.Segments.{AreWords, Segments};
ghost use Rattle.capnp_format.specs.Tree.{Tree};
ghost use Rattle.capnp_format.specs.Value.{IsValue};
ghost use Rattle.capnp_show.specs.Line.{value_line};

/// A line determines the value: two values of the format that have the same line are equal
/// (`determined`), and so are two values that messages mean (`meant`). This is so even if more
/// follows each line: no line is a proper prefix of another one (`alone`).
#[tactic(auto, using(crate::proofs::Lines::one_line, crate::proofs::Lines::line_alike, crate::proofs::Lines::meant_line))]
pub fn lines_differ()
    ensures determined { (t u : Tree) → IsValue t → IsValue u → value_line t ≡ value_line u
        → t ≡ u }
    ensures meant { (S R : Segments) (n m s p u q : ℕ) (t v : Tree) (c e : ℕ) → AreWords S
        → AreWords R → Means S n s p t c → Means R m u q v e → value_line t ≡ value_line v
        → t ≡ v }
    ensures alone { (t u : Tree) (r s : List ℕ) → IsValue t → IsValue u
        → value_line t ++ r ≡ value_line u ++ s → (t ≡ u) × (r ≡ s) }
{}
