//! Finds the pointer at which a command on a message stops reading. The message is read once more,
//! so that the command itself doesn't have to remember where it is.
ghost use Rattle.std.specs.Prelude.{◌≡◌};
ghost use Rattle.capnp_format.specs.Bytes.{message};
ghost use Rattle.capnp_arena_traits.specs.Limits.{IsSmall};
ghost use Rattle.capnp_refusals.specs.RefusedPointers.{demands_of, has_pointer, pointer_of_refusal, refused_pointer};

mod search;

use capnp_arena::arena::{ReaderArenaImpl, ReaderOptions, ReaderSegments};
use capnp_messages::messages::{Command, read_root};
use capnp_pointers::object::Purpose;
use capnp_words::error::ErrorKind;
use capnp_words::read_limiter::ReadLimiter;
pub use search::{Demands, RefusedPointer, search_value};

/// Returns what `command` demands of the objects that it reads.
fn demands_of(command: Command) -> Demands
    ensures { result ≡ demands_of command }
{
    match command {
        Command::Canon(_) | Command::Digest => Demands {
            purpose: Purpose::Value,
            capabilities: false,
        },
        Command::Check | Command::Validate => Demands {
            purpose: Purpose::Value,
            capabilities: true,
        },
        Command::Size => Demands {
            purpose: Purpose::Size,
            capabilities: true,
        },
    }
}

/// Returns the pointer at which `command` stops reading the message in `segments` within `limits`,
/// with the refusal; `None` if `command` reads the whole value. If the root pointer itself is
/// refused, returns its place, word 0 of segment 0. Takes no memory. Precondition: `segments` has
/// fewer than 2^32 segments, each of fewer than 2^32 words.
///
/// `Canon`, `Digest`: the pointer whose object can't be read, or is a capability. `Validate` and
/// `Check`: the pointer whose object can't be read; for `Check` this is so only if the message has
/// one segment, and no fault comes before that pointer. `Size`: the pointer whose object can't be
/// measured.
pub fn refused_pointer<S: ReaderSegments + Drop>(
    command: Command,
    segments: S,
    limits: ReaderOptions,
) -> Option<RefusedPointer>
    requires { IsSmall (S.segments segments) }
    ensures { result ≡ refused_pointer command (message (S.segments segments)) limits }
{
    let arena = ReaderArenaImpl::new(segments, limits);
    let mut lim = ReadLimiter::new(limits.traversal_limit_in_words);
    match read_root(&arena, &mut lim) {
        Ok(root) => search_value(demands_of(command), &root, &mut lim),
        Err(refusal) => Some(RefusedPointer {
            segment: 0,
            word: 0,
            refusal,
        }),
    }
}

/// Whether a refusal of a command is that of a pointer. Others are `AllocationFailed` and
/// `MessageTooLarge`.
fn has_pointer(refusal: ErrorKind) -> bool
    ensures { result ≡ has_pointer refusal }
{
    !matches!(
        refusal,
        ErrorKind::AllocationFailed | ErrorKind::MessageTooLarge(_)
    )
}

/// Returns the pointer at which `command` was refused with `refusal`, like `refused_pointer`;
/// `None` for a refusal that no pointer has: `AllocationFailed` or `MessageTooLarge`. Precondition:
/// `segments` has fewer than 2^32 segments, each of fewer than 2^32 words.
pub fn pointer_of_refusal<S: ReaderSegments + Drop>(
    refusal: ErrorKind,
    command: Command,
    segments: S,
    limits: ReaderOptions,
) -> Option<RefusedPointer>
    requires { IsSmall (S.segments segments) }
    ensures { result ≡ pointer_of_refusal refusal command (message (S.segments segments)) limits }
{
    if has_pointer(refusal) {
        refused_pointer(command, segments, limits)
    } else {
        None
    }
}
