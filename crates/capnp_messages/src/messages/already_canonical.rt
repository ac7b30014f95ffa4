//! Finds messages that are canonical already (encoding specification, "Canonicalization"), and so
//! needn't be copied.
ghost use Rattle.std.specs.Prelude.{◌≡◌, ◌<◌, ◌≤◌, ◌*◌, ◌∷◌, [], length, IsNone, IfSome};
ghost use Rattle.capnp_format.specs.Bytes.{message, words_of};
ghost use Rattle.capnp_format.specs.Canonical.{encoding, trim};
ghost use Rattle.capnp_format.specs.Tree.{Tree};
ghost use Rattle.capnp_arena_traits.specs.Allocations.{max_segment_words};
ghost use Rattle.capnp_arena_traits.specs.Checks.{total_words};
ghost use Rattle.capnp_framing.specs.Frames.{bytes_of_words};
ghost use Rattle.capnp_messages.specs.CanonicalMessages.{IsCanonicalMessage};
ghost use Rattle.capnp_messages.specs.Messages.{IsCanonicalWithin, IsValueOf, arena_limits};

use super::message_fault::canonical_fault;
use super::writing::whole_words;
use capnp_arena::arena::{MAX_SEGMENT_WORDS, ReaderArena, ReaderArenaImpl, ReaderSegments};
use capnp_words::read_limiter::ReadLimiter;

/// If the message is canonical as a whole, returns the bytes of its only segment: the canonical
/// words of its value. Returns `None` if the message isn't canonical, if testing it exceeds the
/// nesting limit of `source` or `traversal_limit_in_words`, or if it has more than 536,870,911 words,
/// the most that a copy can have. Takes no memory.
pub fn canonical_segment<S: ReaderSegments>(
    source: &ReaderArenaImpl<S>,
    traversal_limit_in_words: Option<usize>,
) -> Option<&[u8]>
    ensures words { IfSome result (λ s. (t : Tree) × IsValueOf
        (message (⟦<ReaderArenaImpl<S> as ReaderArena>⟧.segments source.now))
        (arena_limits source.now.nesting_limit traversal_limit_in_words) t
        × (words_of s.now ≡ encoding (trim t))) }
    ensures whole { IfSome result (λ s. s.now ≡ bytes_of_words (words_of s.now)) }
    ensures own { IfSome result (λ s.
        IsCanonicalMessage (message (⟦<ReaderArenaImpl<S> as ReaderArena>⟧.segments source.now))
        × (message (⟦<ReaderArenaImpl<S> as ReaderArena>⟧.segments source.now)
        ≡ words_of s.now ∷ [])) }
    ensures short { IfSome result (λ s. length s.now ≤ 8 * max_segment_words) }
    ensures none { IsNone result →
        IsCanonicalWithin (message (⟦<ReaderArenaImpl<S> as ReaderArena>⟧.segments source.now))
        (arena_limits source.now.nesting_limit traversal_limit_in_words)
        → max_segment_words
        < total_words (⟦<ReaderArenaImpl<S> as ReaderArena>⟧.segments source.now) }
{
    if source.size_in_words() > MAX_SEGMENT_WORDS as usize {
        return None;
    }
    let mut lim = ReadLimiter::new(traversal_limit_in_words);
    match canonical_fault(source, &mut lim) {
        Ok(None) => match source.get_segment(0) {
            Ok(segment) => Some(whole_words(segment)),
            Err(_) => None,
        },
        Ok(Some(_)) => None,
        Err(_) => None,
    }
}
