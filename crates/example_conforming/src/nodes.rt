//! A list of nodes, `struct Node { name @0 :Text; next @1 :Node; }`.
ghost use Rattle.std.specs.Prelude.{◌≡◌, ℕ, IfOk};
ghost use Rattle.capnp_format.specs.Bytes.{message};
ghost use Rattle.capnp_format.specs.Means.{Means};
ghost use Rattle.capnp_format.specs.Tree.{Tree};
ghost use Rattle.capnp_pointers.specs.Source.{levels};
ghost use Rattle.capnp_readers.specs.Values.{text_bytes};
ghost use Rattle.typed_reading.specs.Values.{child};

use capnp_arena_traits::arena::ReaderArena;
use capnp_words::read_limiter::ReadLimiter;
use typed_conforming::checked::CheckedStruct;
use typed_conforming::schema::Misfit;

/// The row of `Node`.
pub const NODE: u32 = 1;

/// The table of `Node`: its row has a text and a struct of the same row.
pub static NODES: [u32; 4] = [0, 2, 2, 21];

/// Returns the name of the node after the root.
pub fn second_name<'a, A: ReaderArena>(
    arena: &'a A,
    lim: &mut ReadLimiter,
) -> Result<&'a [u8], Misfit>
    ensures { (t : Tree) (c : ℕ)
        → Means (message (A.segments arena.now)) (levels (A.nesting arena.now)) 0 0 t c
        → IfOk result (λ name. name.now ≡ text_bytes (child 0 (child 1 t))) }
{
    let node = match CheckedStruct::root(arena, &NODES, NODE, lim) {
        Ok(node) => node,
        Err(misfit) => return Err(misfit),
    };
    Ok(node.get_struct(1, NODE).get_text(0))
}
