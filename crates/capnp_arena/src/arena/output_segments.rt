//! The segments of a built message, for writing them out.
ghost use Rattle.std.specs.Prelude.{◌≡◌, length};
ghost use Rattle.capnp_arena.specs.Output.{output_bytes};

use crate::arena::ReaderSegments;

/// The allocated words of each segment of a builder arena, in order of number. Section "Messages"
/// of the encoding specification.
#[derive(Drop)]
pub enum OutputSegments<'a> {
    /// The only segment.
    SingleSegment(&'a [u8]),
    /// No segment, or more than one.
    MultiSegment(Vec<&'a [u8]>),
}

impl ReaderSegments for OutputSegments<'_> {
    ghost segments = { output_bytes };

    fn get_segment(&self, id: u32) -> Option<&[u8]> {
        match self {
            OutputSegments::SingleSegment(segment) => {
                if id == 0 { Some(*segment) } else { None }
            }
            OutputSegments::MultiSegment(segments) => match segments.get(id as usize) {
                Some(s) => Some(*s),
                None => None,
            },
        }
    }

    fn len(&self) -> usize {
        match self {
            OutputSegments::SingleSegment(_) => 1,
            OutputSegments::MultiSegment(segments) => segments.len(),
        }
    }
}
