//! Reads the lines of the program's input. Each line is a segment, in pairs of hex digits.
ghost use Rattle.std.specs.Prelude.{◌≡◌, ◌↔◌, ◌<◌, ◌≤◌, ◌+◌, ◌/◌, ◌^◌, ◌++◌, ◌∷◌, ◌==◌, [], ℕ, List, length, map, Some, None, Ok, IsTrue, IsSome, IfSome, IsErr, IfOk, OnOk, OnErr, IfErr, slice_get, vec_items};
ghost use Rattle.std.specs.List.{All, position, position_or_len};
ghost use Rattle.hex.specs.Hex.{decode_of};
ghost use Rattle.capnp_arena_traits.specs.Allocations.{one_more};
ghost use Rattle.capnp_arena_traits.specs.Limits.{IsSmall};
ghost use Rattle.capnp_layout.specs.Lines.{lines_of, segments_of};
ghost use Rattle.capnp_layout.specs.Reading.{CountsRead};
ghost use Rattle.capnp_words.specs.declared.error.ErrorKind.TheVariants.{AllocationFailed};

use capnp_arena::arena::{Allocator, ReaderSegments};
use std::alloc::Global;

/// Why no message could be read.
#[derive(Clone, Copy, PartialEq, Eq)]
pub enum InputFault {
    /// A line isn't pairs of hex digits, or the input failed.
    BadInput,
    /// Memory ran out for the bytes that were read.
    NoMemory,
}

/// The segments of a message that was read.
#[derive(Drop)]
pub struct Message {
    segments: Vec<Vec<u8>>,
}

impl Message {
    /// Whether the message is small enough for readers: it has fewer than 2^32 segments, each of
    /// fewer than 2^32 words.
    pub fn is_small(&self) -> bool
        ensures { IsTrue result ↔ IsSmall (⟦<Self as ReaderSegments>⟧.segments self.now) }
    {
        self.segments.len() < 0x1_0000_0000 && are_small(self.segments.as_slice())
    }
}

/// Whether each segment has fewer than 2^32 words.
fn are_small(segments: &[Vec<u8>]) -> bool
    ensures { IsTrue result ↔ All (λ segment. length segment.items / 8 < 2 ^ 32) segments.now }
{
    segments
        .iter()
        .all(|segment| segment.len() / 8 < 0x1_0000_0000)
}

impl ReaderSegments for Message {
    ghost segments = { λ m. map vec_items m.segments.items };

    fn get_segment(&self, id: u32) -> Option<&[u8]> {
        match self.segments.get(id as usize) {
            Some(segment) => Some(segment.as_slice()),
            None => None,
        }
    }

    fn len(&self) -> usize {
        self.segments.len()
    }

    fn is_empty(&self) -> bool {
        self.segments.is_empty()
    }
}

/// Appends `bytes` to `list`. Stops with `NoMemory` if `allocator` refuses memory for a byte; the
/// bytes before that one are then in `list`.
pub(crate) fn append_bytes<A: Allocator>(
    allocator: &mut A,
    list: &mut Vec<u8>,
    bytes: &[u8],
) -> Result<(), InputFault>
    ensures kept { OnOk result ((list.new.items ≡ list.old.items ++ bytes.now)
        × (A.refusals allocator.new ≡ A.refusals allocator.old)) }
    ensures named { IfErr result (λ e. (e ≡ InputFault.NoMemory)
        × (A.refusals allocator.new ≡ one_more (A.refusals allocator.old))) }
{
    for byte in bytes {
        if allocator.keep(list, *byte).is_some() {
            return Err(InputFault::NoMemory);
        }
    }
    Ok(())
}

/// Returns the position of the first line feed of `text`; `None` if there is none.
fn find_line_feed(text: &[u8]) -> Option<usize>
    ensures { result ≡ position (λ byte. byte == 10) text.now }
{
    text.iter().position(|byte| *byte == b'\n')
}

/// Returns the end of the first line: the position of the first line feed, or the end of `text` if
/// there is none.
#[tactic(auto, using(crate::proofs::LineLemmas::feed_found, crate::proofs::LineLemmas::no_feed))]
fn line_end(text: &[u8]) -> usize
    ensures { result ≡ position_or_len (λ byte. byte == 10) text.now }
{
    match find_line_feed(text) {
        Some(n) => n,
        None => text.len(),
    }
}

/// Returns the first line of `text`, without its line feed, and what follows the line feed.
/// Precondition: `text` isn't empty.
#[tactic(auto, using(crate::proofs::LineLemmas::cut_line, crate::proofs::LineLemmas::last_line))]
fn split_first_line(text: &[u8]) -> (&[u8], &[u8])
    requires { 0 < length text.now }
    ensures lines { lines_of text.now ≡ result.0.now ∷ lines_of result.1.now }
    ensures shorter { length result.1.now < length text.now }
{
    let n = line_end(text);
    if n < text.len() {
        (&text[..n], &text[n + 1..])
    } else {
        (text, &[])
    }
}

/// Returns the bytes that a line of hex digits encodes. Refusals: `BadInput` if the line isn't
/// pairs of hex digits; `NoMemory` if `allocator` refuses memory for a byte.
fn decode_line<A: Allocator>(
    alloc: Global,
    allocator: &mut A,
    line: &[u8],
) -> Result<Vec<u8>, InputFault>
    ensures bytes { IfOk result (λ v. decode_of line.now ≡ Ok v.items) }
    ensures bad { IfErr result (λ e. e ≡ InputFault.BadInput → IsErr (decode_of line.now)) }
    ensures counted { CountsRead (A.refusals allocator.old) (A.refusals allocator.new) result }
{
    let mut bytes = Vec::new(alloc);
    for _ in 0..line.len() / 2 {
        if allocator.keep(&mut bytes, 0u8).is_some() {
            return Err(InputFault::NoMemory);
        }
    }
    match hex::decode_to_slice(line, bytes.as_mut_slice()) {
        Ok(()) => Ok(bytes),
        Err(_) => Err(InputFault::BadInput),
    }
}

/// Returns the segments that `text` encodes, one for each line. Refuses with `BadInput` if a line
/// isn't pairs of hex digits, or with `NoMemory` if `allocator` refuses memory.
pub fn decode_lines<A: Allocator>(
    alloc: Global,
    allocator: &mut A,
    text: &[u8],
) -> Result<Message, InputFault>
    ensures segments { IfOk result (λ m. segments_of text.now
        ≡ Some (⟦<Message as ReaderSegments>⟧.segments m)) }
    ensures bad { IfErr result (λ e. e ≡ InputFault.BadInput → segments_of text.now ≡ None) }
    ensures counted { CountsRead (A.refusals allocator.old) (A.refusals allocator.new) result }
{
    let mut segments = Vec::new(alloc);
    let mut rest = text;
    while !rest.is_empty() {
        let (line, behind) = split_first_line(rest);
        let segment = decode_line(alloc, allocator, line)?;
        if allocator.keep(&mut segments, segment).is_some() {
            return Err(InputFault::NoMemory);
        }
        rest = behind;
    }
    Ok(Message { segments })
}
