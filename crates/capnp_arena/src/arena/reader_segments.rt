//! Where a reader's segments come from.
ghost use Rattle.std.specs.Prelude.{◌≡◌, ◌<◌, ◌↔◌, ℕ, List, length, map, IsTrue, IsSome, IfSome, Some, slice_get};
ghost use Rattle.capnp_arena_traits.specs.Limits.{AreSmall, IsSmall};

/// The segments of a message, each as a slice of bytes. Section "Messages" of the encoding
/// specification.
pub trait ReaderSegments {
    // The bytes of each segment, including those after its last whole word.
    ghost segments: { Self → List (List ℕ) };

    /// The bytes of segment `id`; `None` exactly if `id` isn't below `len`.
    fn get_segment(&self, id: u32) -> Option<&[u8]>
        ensures there { IsSome result ↔ (id < length (segments self.now)) }
        ensures bytes { IfSome result (λ s. slice_get (segments self.now) id ≡ Some s.now) };

    /// The number of segments.
    fn len(&self) -> usize
        ensures { result ≡ length (segments self.now) };

    /// Whether there are no segments.
    fn is_empty(&self) -> bool
        ensures { IsTrue result ↔ (length (segments self.now) ≡ 0) }
    {
        self.len() == 0
    }
}

/// Returns `bytes`. If `bytes` is empty, returns an empty slice with another pointer, because C may
/// have passed a null pointer.
fn without_null(bytes: &[u8]) -> &[u8]
    ensures { result.now ≡ bytes.now }
{
    if bytes.is_empty() { &[] } else { bytes }
}

/// Borrowed segments: fewer than 2^32, each of fewer than 2^32 words. C may have lent an empty one as
/// a null pointer.
#[derive(Clone, Copy)]
pub struct SegmentArray<'a> {
    segments: &'a [&'a [u8]],
    ghost small: { IsSmall (map (λ s. s.now) segments.now) },
}

impl<'a> SegmentArray<'a> {
    /// Takes `segments`, in this order. Returns `None` exactly if there are 2^32 segments or more,
    /// or a segment has 2^32 words or more.
    pub fn new(segments: &'a [&'a [u8]]) -> Option<Self>
        ensures exactly { IsSome result ↔ AreSmall segments.now }
        ensures segments { IfSome result (λ r. r.segments.now ≡ segments.now) }
    {
        if segments.len() >= 0x1_0000_0000 {
            return None;
        }
        if segments.iter().all(|s| s.len() / 8 < 0x1_0000_0000) {
            Some(SegmentArray { segments })
        } else {
            None
        }
    }
}

impl ReaderSegments for SegmentArray<'_> {
    ghost segments = { λ a. map (λ s. s.now) a.segments.now };

    fn get_segment(&self, id: u32) -> Option<&[u8]> {
        match self.segments.get(id as usize) {
            Some(s) => Some(without_null(*s)),
            None => None,
        }
    }

    fn len(&self) -> usize {
        self.segments.len()
    }
}
