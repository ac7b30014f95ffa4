//! Lists the objects of a message: the kind and place of each, and the pointer that leads to it.
ghost use Rattle.std.specs.Prelude.{◌≡◌, length};
ghost use Rattle.capnp_format.specs.Bytes.{message};
ghost use Rattle.capnp_arena_traits.specs.Limits.{IsSmall};
ghost use Rattle.capnp_pointers.specs.Extents.{capped};
ghost use Rattle.capnp_walks.specs.Walks.{written_over, walk_message};

mod listing;
mod walk;

use capnp_arena::arena::{ReaderArenaImpl, ReaderOptions, ReaderSegments};
use capnp_messages::messages::read_root;
use capnp_refusals::refusals::RefusedPointer;
use capnp_words::read_limiter::ReadLimiter;
pub use listing::{CAPABILITY, NO_PARENT, STRUCT, WalkedObject};
use walk::walk_value;

/// How a walk over a message ended.
#[derive(Clone, Copy, Debug, PartialEq, Eq)]
pub struct WalkedMessage {
    /// The number of objects that were found; `u64::MAX` if there are more.
    pub count: u64,
    /// The pointer at which the walk stopped, with its refusal; `None` if the message was read to
    /// its end.
    pub refused: Option<RefusedPointer>,
}

/// Lists the objects of the message in `segments`: writes one entry to `objects` for each struct,
/// list and capability, each before those that its own pointers lead to. Null pointers have no
/// entry, and neither has an element of a list of structs. An object that several pointers lead to
/// has one entry for each of them. Takes no memory.
///
/// Precondition: `segments` has fewer than 2^32 segments, each of fewer than 2^32 words.
///
/// Reads within `limits`, in the order of the pointers, and counts, charges and refuses like
/// `validate` of `capnp_messages`. A walk that is refused ends at that pointer; the entries before it are kept.
///
/// If `objects` is too short, the objects that don't fit are counted, but not written. So
/// `result.count` is the number of entries that the array needs. Entries of `objects` after the
/// last object are unchanged. If `limits` has a traversal limit, `result.count` is at most that
/// limit.
pub fn walk_message<S: ReaderSegments + Drop>(
    segments: S,
    limits: ReaderOptions,
    objects: &mut [WalkedObject],
) -> WalkedMessage
    requires { IsSmall (S.segments segments) }
    ensures objects { objects.new
        ≡ written_over (walk_message (message (S.segments segments)) limits).0 objects.old }
    ensures count { result.count
        ≡ capped (length (walk_message (message (S.segments segments)) limits).0) }
    ensures refused { result.refused ≡ (walk_message (message (S.segments segments)) limits).1 }
{
    let arena = ReaderArenaImpl::new(segments, limits);
    let mut lim = ReadLimiter::new(limits.traversal_limit_in_words);
    match read_root(&arena, &mut lim) {
        Ok(root) => {
            let mut count = 0;
            let refused = walk_value(&root, objects, &mut count, &mut lim);
            WalkedMessage { count, refused }
        }
        Err(refusal) => WalkedMessage {
            count: 0,
            refused: Some(RefusedPointer {
                segment: 0,
                word: 0,
                refusal,
            }),
        },
    }
}
