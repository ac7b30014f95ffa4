//! The segments of a message that was read.
ghost use Rattle.std.specs.Prelude.{◌≡◌, ◌<◌, ◌≤◌, ◌+◌, ◌*◌, [], length};
ghost use Rattle.capnp_format.specs.Bytes.{message};
ghost use Rattle.capnp_framing.specs.Flat.{AreEnds, parts};
ghost use Rattle.capnp_framing.specs.Frames.{frame};
ghost use Rattle.capnp_framing.specs.Reading.{words_told};

use capnp_arena::arena::ReaderSegments;
use std::alloc::Global;

/// The segments of a message that was read, each of whole words. Their memory can be reused for the
/// next message.
#[derive(Drop)]
pub struct OwnedSegments {
    pub(super) count: usize,
    // The sizes of the segments in words, four bytes each, and what follows them.
    pub(super) table: Vec<u8>,
    // The number of words up to the end of each segment.
    pub(super) ends: Vec<usize>,
    // The words of the segments, in order, and what follows them.
    pub(super) words: Vec<u8>,
    ghost few: { count ≤ 512 },
    ghost told: { 4 * count ≤ length table.items },
    ghost whole: { 8 * words_told count table.items ≤ length words.items },
    ghost kept: { AreEnds count table.items ends.items },
}

impl OwnedSegments {
    /// Makes a value without segments. Takes no memory.
    pub fn new(alloc: Global) -> Self
        ensures none { ⟦<Self as ReaderSegments>⟧.segments result ≡ [] }
    {
        OwnedSegments {
            count: 0,
            table: Vec::new(alloc),
            ends: Vec::new(alloc),
            words: Vec::new(alloc),
        }
    }

    /// The number of words up to the end of segment `id`.
    fn end_of(&self, id: usize) -> usize
        requires { id < self.now.count }
        ensures { result ≡ words_told (id + 1) self.now.table.items }
    {
        self.ends.as_slice()[id]
    }

    /// The number of words before segment `id`; if `id` is the number of segments, the number of
    /// words in all segments.
    fn words_before(&self, id: usize) -> usize
        requires { id ≤ self.now.count }
        ensures { result ≡ words_told id self.now.table.items }
    {
        if id == 0 { 0 } else { self.end_of(id - 1) }
    }

    /// The size in bytes of the frame that the segments were read from: its table with padding, and
    /// its words.
    pub fn size_in_bytes(&self) -> usize
        ensures { result ≡ length (frame (message (⟦<Self as ReaderSegments>⟧.segments self.now))) }
    {
        let table = 4 + 4 * self.count + 4 * ((self.count + 1) % 2);
        table + 8 * self.words_before(self.count)
    }
}

impl ReaderSegments for OwnedSegments {
    ghost segments = { λ m. parts m.count m.table.items m.words.items };

    fn get_segment(&self, id: u32) -> Option<&[u8]> {
        let id = id as usize;
        if id >= self.count {
            return None;
        }
        let start = self.words_before(id);
        let end = self.end_of(id);
        Some(&self.words.as_slice()[8 * start..8 * end])
    }

    fn len(&self) -> usize {
        self.count
    }
}

/// Segments behind a reference.
impl ReaderSegments for &OwnedSegments {
    ghost segments = { λ m. ⟦<OwnedSegments as ReaderSegments>⟧.segments m.now };

    fn get_segment(&self, id: u32) -> Option<&[u8]> {
        (**self).get_segment(id)
    }

    fn len(&self) -> usize {
        (**self).len()
    }
}
