//! The segments of a message that C lends, as an arena.
ghost use Rattle.std.specs.Prelude.{◌≡◌, ◌<◌, ◌-◌, ◌*◌, ◌/◌, ◌^◌, ◌↔◌, ℕ, ℤ, pos, List, length, map, true, refl, Some, None, IsSome, IfSome};
ghost use Rattle.capnp_format.specs.Bytes.{message, words_of};
ghost use Rattle.capnp_format.specs.Segments.{segment};
ghost use Rattle.capnp_arena_traits.specs.Limits.{whole, AreSmall, IsSmall};
ghost use Rattle.capnp_words.specs.declared.error.ErrorKind.TheVariants.{InvalidSegmentId};
ghost use Rattle.capnp_pointers.specs.Source.{levels};
ghost use Rattle.capnp_layout_c.specs.Lent.{lent, lent_pointer};

use capnp_arena_traits::arena::ReaderArena;
use capnp_pointers::object::Place;
use capnp_pointers::source::Source;
use capnp_readers::readers::PointerReader;
use capnp_words::error::ErrorKind;

/// The segments of a message: fewer than 2^32, each of fewer than 2^32 words. Up to 7 bytes after a
/// segment's last whole word are ignored.
#[repr(C)]
#[derive(Clone, Copy)]
pub struct Segments<'a> {
    list: &'a [&'a [u8]],
    ghost small: { IsSmall (map (λ s. s.now) list.now) },
}

// The whole words of a segment. C may have passed a null pointer for no bytes.
#[inline(always)]
fn whole_words(bytes: &[u8]) -> &[u8]
    ensures { result.now ≡ whole bytes.now }
{
    if bytes.len() < 8 {
        &[]
    } else {
        &bytes[..8 * (bytes.len() / 8)]
    }
}

impl<'a> Segments<'a> {
    ghost use Rattle.capnp_readers.specs.Readers.{read_by};

    /// Takes `list`. Returns `None` exactly if there are 2^32 segments or more, or a segment has
    /// 2^32 words or more.
    pub fn new(list: &'a [&'a [u8]]) -> Option<Self>
        ensures exactly { IsSome result ↔ AreSmall list.now }
        ensures segments { IfSome result (λ r. r.list.now ≡ list.now) }
    {
        if list.len() >= 0x1_0000_0000 {
            return None;
        }
        if list.iter().all(|s| s.len() / 8 < 0x1_0000_0000) {
            Some(Segments { list })
        } else {
            None
        }
    }

    // The whole words of segment `id`; none if there is no such segment.
    #[inline(always)]
    pub fn words(&self, id: u64) -> &[u8]
        ensures words { words_of result.now ≡ segment (lent self.now.list.now) id }
        ensures whole { length result.now ≡ 8 * length (segment (lent self.now.list.now) id) }
        ensures small { length result.now < 8 * 2 ^ 32 }
    {
        match self.list.get(id as usize) {
            Some(s) => whole_words(*s),
            None => &[],
        }
    }

    /// Returns a reader of the pointer at word `word` of segment `segment`: of a null pointer if
    /// there is no such word.
    #[inline(always)]
    pub fn pointer(
        &self,
        segment: u64,
        word: u32,
        nesting_limit: i32,
    ) -> PointerReader<'_, Segments<'a>>
        ensures place { read_by ⟦<Self as ReaderArena>⟧ result
            ≡ lent_pointer self.now.list.now segment word nesting_limit }
        ensures source { result.source ≡ Source.Arena self.entry }
    {
        PointerReader {
            source: Source::Arena(self),
            place: Place {
                segment,
                bytes: self.words(segment),
                at: word,
            },
            nesting_limit,
        }
    }
}

impl ReaderArena for Segments<'_> {
    ghost segments = { λ a. map whole (map (λ s. s.now) a.list.now) };

    ghost nesting = { λ _. pos (2 ^ 31 - 1) };

    ghost charging = { λ _. true };

    ghost absent = { λ _ id. InvalidSegmentId id };

    ghost use Rattle.std.proofs.Common.{inl};

    ghost absent_named = { λ _ _. inl refl };

    #[tactic(auto, using(capnp_arena_traits::proofs::MessageLemmas::wholes))]
    fn get_segment(&self, id: u32) -> Result<&[u8], ErrorKind> {
        match self.list.get(id as usize) {
            Some(s) => Ok(whole_words(*s)),
            None => Err(ErrorKind::InvalidSegmentId(id)),
        }
    }

    fn nesting_limit(&self) -> i32 {
        i32::MAX
    }

    fn charges(&self) -> bool {
        true
    }

    fn size_in_words(&self) -> usize {
        let mut words = 0;
        for segment in self.list {
            words += segment.len() / 8;
        }
        words
    }
}
