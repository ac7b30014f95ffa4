//! Validates a whole message before it is read.
ghost use Rattle.std.specs.Prelude.{◌≡◌, ◌≢◌, ◌↔◌, ◌+◌, ℕ, true, Some, Ok, IsOk, OnOk, OnErr, IfOk, IfErr};
ghost use Rattle.capnp_words.specs.Meter.{spent};
ghost use Rattle.capnp_format.specs.Tree.{Tree};
ghost use Rattle.capnp_pointers.specs.Outcomes.{MeansThere};
ghost use Rattle.capnp_pointers.specs.Pointers.{reading};
ghost use Rattle.capnp_pointers.specs.Source.{levels};
ghost use Rattle.capnp_messages.specs.Extents.{root_extent};
ghost use Rattle.capnp_messages.specs.Messages.{IsReadable, arena_limits};
ghost use Rattle.capnp_messages.specs.Roots.{CoversRoot, RefusesRoot, message_root};
ghost use Rattle.capnp_refusals.specs.RefusedPointers.{message_searched};
ghost use Rattle.capnp_refusals.specs.Search.{of_values};
ghost use Rattle.capnp_layout_c.specs.Lent.{Leaves, lent, lent_pointer};
ghost use Rattle.capnp_layout_c.specs.Validated.{RefusesValue};

use crate::limits::store_left;
use crate::segments::Segments;
use capnp_arena_traits::arena::ReaderArena;
use capnp_numbers::layout_number;
use capnp_pointers::object::Purpose;
use capnp_pointers::pointers::{Extent, Pointer};
use capnp_refusals::refusals::{Demands, RefusedPointer, search_value};
use capnp_words::error::ErrorKind;
use capnp_words::read_limiter::ReadLimiter;

/// Returns the root pointer of a message, and charges the pointer's word.
pub fn read_root<'a, 'b>(
    segments: &'a Segments<'b>,
    nesting: i32,
    lim: &mut ReadLimiter,
) -> Result<Pointer<'a, Segments<'b>>, ErrorKind>
    ensures exactly { IsOk result ↔ CoversRoot (lent segments.now.list.now) lim.old.left }
    ensures place { IfOk result (λ root. reading ⟦<Segments<'b> as ReaderArena>⟧ root
        ≡ message_root (lent segments.now.list.now) (levels nesting)) }
    ensures charged { OnOk result (lim.new ≡ spent lim.old 1) }
    ensures refused { IfErr result (RefusesRoot (lent segments.now.list.now) lim.old.left) }
    ensures unread { OnErr result (lim.new ≡ lim.old) }
{
    let root = Pointer::get_root_from_arena(segments, lim)?;
    Ok(Pointer {
        source: root.source,
        place: root.place,
        nesting_limit: nesting,
    })
}

/// Reads the whole value of a message, from its root on.
fn validate_root(
    segments: &Segments<'_>,
    nesting: i32,
    lim: &mut ReadLimiter,
) -> Result<Extent, ErrorKind>
    ensures { root_extent (lent segments.now.list.now) (levels nesting) lim.old
        ≡ (result, lim.new) }
{
    let root = read_root(segments, nesting, lim)?;
    root.validate(lim)
}

/// Returns the first pointer of a message whose object can't be read, with its refusal.
#[inline(never)]
fn refused_pointer(
    segments: &Segments<'_>,
    nesting: i32,
    lim: &mut ReadLimiter,
) -> Option<RefusedPointer>
    ensures { message_searched (of_values true) (lent segments.now.list.now) (levels nesting) lim.old
        ≡ (Ok result, lim.new) }
{
    match read_root(segments, nesting, lim) {
        Ok(root) => {
            let demands = Demands {
                purpose: Purpose::Value,
                capabilities: true,
            };
            search_value(demands, &root, lim)
        }
        Err(refusal) => Some(RefusedPointer {
            segment: 0,
            word: 0,
            refusal,
        }),
    }
}

/// Reads the whole value of a message, from its root on, within `nesting` levels: its objects, but
/// not their data. If this succeeds, the value can be read: no call is refused at a pointer of the
/// message for anything but the kind of what it leads to, if `left` covers it. Charges one word for
/// the root pointer, and then each object once.
///
/// If it is refused, stores the place of the first pointer whose object can't be read; otherwise
/// `segment` and `word` are 0. Calls itself for each level, so its stack grows with the depth of the
/// value, which `nesting` bounds.
#[unsafe(no_mangle)]
pub extern "C" fn capnp_layout_validate(
    segments: &Segments<'_>,
    left: &mut u64,
    nesting: i32,
    segment: &mut u64,
    word: &mut u32,
) -> u32
    ensures exactly { (result ≡ 0) ↔ IsReadable (lent segments.now.list.now)
        (arena_limits nesting (Some left.old)) }
    ensures takes { (t : Tree) (c : ℕ)
        → MeansThere (lent_pointer segments.now.list.now 0 0 nesting) t c
        → result ≡ 0 → Leaves left.old left.new (1 + c) }
    ensures refused { result ≢ 0 → RefusesValue segments.now.list.now nesting left.old left.new
        segment.new word.new result }
    ensures none { result ≡ 0 → (segment.new ≡ 0) × (word.new ≡ 0) }
{
    *segment = 0;
    *word = 0;
    let mut lim = ReadLimiter::new(Some(*left as usize));
    let found = validate_root(segments, nesting, &mut lim);
    let Err(kind) = found else {
        store_left(&lim, left);
        return 0;
    };
    let mut again = ReadLimiter::new(Some(*left as usize));
    store_left(&lim, left);
    if let Some(pointer) = refused_pointer(segments, nesting, &mut again) {
        *segment = pointer.segment;
        *word = pointer.word;
    }
    layout_number(kind)
}
