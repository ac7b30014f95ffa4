//! The arena of a message being read.
ghost use Rattle.std.specs.Prelude.{◌≡◌, ◌<◌, ◌+◌, ◌*◌, ◌/◌, ◌^◌, ℕ, ℤ, pos, List, length, map, true, refl, Some, None};
ghost use Rattle.capnp_format.specs.Bytes.{message};
ghost use Rattle.capnp_arena_traits.specs.Limits.{whole, IsSmall};
ghost use Rattle.capnp_arena_traits.specs.Checks.{total_words};
ghost use Rattle.capnp_words.specs.declared.error.ErrorKind.TheVariants.{InvalidSegmentId};

use crate::arena::{ReaderArena, ReaderSegments};
use capnp_words::error::ErrorKind;

/// The limits for reading a message. The default is 8,388,608 words and a nesting limit of 64.
#[derive(Clone, Copy)]
pub struct ReaderOptions {
    /// The traversal limit: how many words may be read; `None` for no limit. An arena doesn't use
    /// this limit: the caller passes it to `ReadLimiter::new`.
    pub traversal_limit_in_words: Option<usize>,
    /// The nesting limit: how many structs and lists may be inside one another.
    pub nesting_limit: i32,
}

impl Default for ReaderOptions {
    fn default() -> Self
        ensures words { result.traversal_limit_in_words ≡ Some 8388608 }
        ensures nesting { result.nesting_limit ≡ pos 64 }
    {
        ReaderOptions {
            traversal_limit_in_words: Some(8_388_608),
            nesting_limit: 64,
        }
    }
}

/// The arena of a message being read. Consists of the whole words of each segment; ignores the
/// bytes, at most 7, after a segment's last whole word.
#[derive(Drop)]
pub struct ReaderArenaImpl<S: ReaderSegments> {
    segments: S,
    nesting_limit: i32,
    words: usize,
    ghost small: { IsSmall (S.segments segments) },
    ghost counted: { words ≡ total_words (S.segments segments) },
}

impl<S: ReaderSegments> ReaderArenaImpl<S> {
    /// Makes the arena of `segments`, with the nesting limit of `options`. Precondition: `segments`
    /// has fewer than 2^32 segments, each of fewer than 2^32 words.
    #[tactic(auto, using(capnp_arena_traits::proofs::MessageLemmas::message_wholes))]
    pub fn new(segments: S, options: ReaderOptions) -> Self
        requires { IsSmall (S.segments segments) }
        ensures segments { result.segments ≡ segments }
        ensures words { message (⟦<Self as ReaderArena>⟧.segments result)
            ≡ message (S.segments segments) }
        ensures nesting { result.nesting_limit ≡ options.nesting_limit }
    {
        let mut words = 0;
        for id in 0..segments.len() as u64 {
            if let Some(segment) = segments.get_segment(id as u32) {
                words += segment.len() / 8;
            }
        }
        ReaderArenaImpl {
            segments,
            nesting_limit: options.nesting_limit,
            words,
        }
    }

    /// Returns the segments that `new` took.
    pub fn into_segments(self) -> S
        ensures { result ≡ self.segments }
    {
        let ReaderArenaImpl {
            segments,
            nesting_limit: _,
            words: _,
        } = self;
        segments
    }
}

impl<S: ReaderSegments> ReaderArena for ReaderArenaImpl<S> {
    ghost segments = { λ a. map whole (S.segments a.segments) };

    ghost nesting = { λ a. a.nesting_limit };

    ghost charging = { λ _. true };

    ghost absent = { λ _ id. InvalidSegmentId id };

    ghost use Rattle.std.proofs.Common.{inl};

    ghost absent_named = { λ _ _. inl refl };

    #[tactic(auto, using(capnp_arena_traits::proofs::MessageLemmas::wholes))]
    fn get_segment(&self, id: u32) -> Result<&[u8], ErrorKind> {
        match self.segments.get_segment(id) {
            Some(s) => Ok(&s[..8 * (s.len() / 8)]),
            None => Err(ErrorKind::InvalidSegmentId(id)),
        }
    }

    fn nesting_limit(&self) -> i32 {
        self.nesting_limit
    }

    fn charges(&self) -> bool {
        true
    }

    fn size_in_words(&self) -> usize {
        self.words
    }
}
