//! Objects made for a null pointer, in its own segment, which has room for them: the case that most
//! calls have. What is made in other cases takes more code, and the calls keep that out of line.
ghost use Rattle.std.specs.Prelude.{◌≡◌, ◌<◌, ◌+◌, ◌*◌, ◌^◌, Ok};
ghost use Rattle.capnp_format.specs.Segments.{IsPlace, word_at};
ghost use Rattle.capnp_allocation.specs.Made.{zero_structs};
ghost use Rattle.capnp_allocation.specs.Makes.{call_at};
ghost use Rattle.capnp_allocation.specs.Near.{HasOwnRoom};
ghost use Rattle.capnp_in_place.specs.Initialized.{GivesObject};

use capnp_allocation::making::{Shape, pointer_to};
use capnp_arena_traits::arena::{BuilderArena, WordPlace, set_word};
use capnp_words::wire_pointer::{ElementSize, StructSize, WirePointer};

/// Makes a list of `count` structs, all zero, and makes the pointer at `at` of segment `id` lead to
/// it. Preconditions: word `at` of segment `id` is allocated, and zero; `count` structs of `size`
/// have fewer than 2^29 words; the segment has room for them and a tag.
#[inline(always)]
pub(crate) fn put_structs<A: BuilderArena>(
    arena: &mut A,
    id: u32,
    at: u32,
    count: u32,
    size: StructSize,
) -> WordPlace
    requires place { IsPlace (A.view arena.old).words id at }
    requires null { word_at (A.view arena.old).words id at ≡ 0 }
    requires few { count < 2 ^ 29 }
    requires words { count * (size.data_words + size.pointers) < 2 ^ 29 }
    requires room { HasOwnRoom (A.view arena.old) id
        (1 + count * (size.data_words + size.pointers)) }
    ensures gives { GivesObject (Ok result)
        (call_at id at (A.view arena.old) (A.view arena.new)) (zero_structs count size)
        (1 + count * (size.data_words + size.pointers)) }
    ensures segment { result.segment ≡ id }
{
    let words = count * size.total();
    match arena.allocate(id, 1 + words) {
        Some(start) => {
            let shape = Shape::List(ElementSize::InlineComposite, words);
            let pointer = pointer_to(shape, at, start);
            set_word(arena, id, at, pointer.0);
            let tag = WirePointer::new_tag(count, size);
            set_word(arena, id, start, tag.0);
            WordPlace {
                segment: id,
                at: start,
            }
        }
        None => WordPlace { segment: id, at },
    }
}
