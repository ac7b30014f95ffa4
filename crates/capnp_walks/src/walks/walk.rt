//! Walks over the objects of a value.
ghost use Rattle.std.specs.Prelude.{◌≡◌, ◌≤◌, ◌+◌, ◌*◌, Ok, length};
ghost use Rattle.capnp_pointers.specs.Reading.{segment_read};
ghost use Rattle.capnp_pointers.specs.Pointers.{reading, reading_on};
ghost use Rattle.capnp_walks.specs.Listing.{into_array, no_parent};
ghost use Rattle.capnp_walks.specs.Walks.{walk_elements, walk_place, walk_pointers};

use crate::walks::listing::{NO_PARENT, WalkedObject, add_object};
use capnp_arena_traits::arena::ReaderArena;
use capnp_pointers::object::{Place, Purpose, rows_of_object};
use capnp_pointers::pointers::Pointer;
use capnp_refusals::refusals::RefusedPointer;
use capnp_words::read_limiter::ReadLimiter;

/// Lists the object that the pointer `from`, a message's root, leads to, and all objects below it:
/// adds their entries at index `count` of `objects`. Returns the pointer at which it stops; `None`
/// if it reads the whole value.
pub(crate) fn walk_value<A: ReaderArena>(
    from: &Pointer<'_, A>,
    objects: &mut [WalkedObject],
    count: &mut u64,
    lim: &mut ReadLimiter,
) -> Option<RefusedPointer>
    ensures { walk_place into_array no_parent (reading A.ReaderArena from.now)
        (objects.old, count.old) lim.old ≡ (Ok ((objects.new, count.new), result), lim.new) }
{
    let at = from.place.at;
    walk_object(from, at, NO_PARENT, from.nesting_limit, objects, count, lim)
}

// Lists the objects that `pointers` consecutive pointers from position `at` on lead to.
#[cycle(walk)]
#[inline(never)]
fn walk_pointers<A: ReaderArena>(
    from: &Pointer<'_, A>,
    parent: u64,
    at: u32,
    pointers: u32,
    objects: &mut [WalkedObject],
    count: &mut u64,
    lim: &mut ReadLimiter,
) -> Option<RefusedPointer>
    requires inside { at + pointers ≤ length (segment_read (reading A.ReaderArena from.now)) }
    ensures { walk_pointers into_array parent pointers
        (reading_on A.ReaderArena from.now at from.now.nesting_limit) (objects.old, count.old)
        lim.old ≡ (Ok ((objects.new, count.new), result), lim.new) }
{
    for i in 0..pointers {
        let limit = from.nesting_limit;
        match walk_object(from, at + i, parent, limit, objects, count, lim) {
            Some(refused) => return Some(refused),
            None => {}
        }
    }
    None
}

// Lists the object that the pointer at `at` leads to, and all objects below it.
#[cycle(walk)]
fn walk_object<A: ReaderArena>(
    from: &Pointer<'_, A>,
    at: u32,
    parent: u64,
    nesting_limit: i32,
    objects: &mut [WalkedObject],
    count: &mut u64,
    lim: &mut ReadLimiter,
) -> Option<RefusedPointer>
    ensures { walk_place into_array parent (reading_on A.ReaderArena from.now at nesting_limit)
        (objects.old, count.old) lim.old ≡ (Ok ((objects.new, count.new), result), lim.new) }
{
    let here = Pointer {
        source: from.source,
        place: Place { at, ..from.place },
        nesting_limit,
    };
    let segment = from.place.segment;
    let object = match here.read(Purpose::Value, lim) {
        Ok(object) => object,
        Err(refusal) => {
            return Some(RefusedPointer {
                segment,
                word: at,
                refusal,
            });
        }
    };
    let index = *count;
    add_object(parent, here.place, object, objects, count);
    let Some(rows) = rows_of_object(object) else {
        return None;
    };
    let first = here.inside(rows.start);
    walk_elements(
        &first,
        index,
        rows.data_words,
        rows.pointers,
        rows.count,
        objects,
        count,
        lim,
    )
}

// Lists the objects that the pointers of `elements` consecutive elements lead to, each element of
// `data_words` data words and `pointers` pointers.
#[cycle(walk)]
fn walk_elements<A: ReaderArena>(
    from: &Pointer<'_, A>,
    parent: u64,
    data_words: u32,
    pointers: u32,
    elements: u32,
    objects: &mut [WalkedObject],
    count: &mut u64,
    lim: &mut ReadLimiter,
) -> Option<RefusedPointer>
    requires inside { from.now.place.at + elements * (data_words + pointers)
        ≤ length (segment_read (reading A.ReaderArena from.now)) }
    ensures { walk_elements into_array parent data_words pointers elements
        (reading A.ReaderArena from.now) (objects.old, count.old) lim.old
        ≡ (Ok ((objects.new, count.new), result), lim.new) }
{
    if pointers == 0 {
        return None;
    }
    let width = u64::from(data_words) + u64::from(pointers);
    for i in 0..elements {
        let at = u64::from(from.place.at) + u64::from(i) * width + u64::from(data_words);
        match walk_pointers(from, parent, at as u32, pointers, objects, count, lim) {
            Some(refused) => return Some(refused),
            None => {}
        }
    }
    None
}
