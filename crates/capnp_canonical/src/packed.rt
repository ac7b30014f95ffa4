//! Unpacks packed bytes to a buffer (encoding specification, "Packing").
ghost use Rattle.std.specs.Prelude.{◌≡◌, ◌≤◌, length, take, drop, IfOk, IfErr, IsOk, OnErr};
ghost use Rattle.capnp_packing.specs.Packing.{IsWhole, Packs, unpacked_bytes};
ghost use Rattle.capnp_packing.specs.Pieces.{unpacked_piece};
ghost use Rattle.capnp_canonical.specs.Calls.{Fills, RefusesPacked};
ghost use Rattle.capnp_canonical.specs.Pieces.{next_place, unpacking_at, written_piece};

use crate::refusal::Refusal;
use capnp_framing::framing::FrameError;
use capnp_packing::packing::{Place, unpack_piece, unpack_to_slice, unpacked_size};

/// How far a packed stream is unpacked, in the form for C. All 0 at the start of a stream. Any
/// numbers are a state; the calls only make those that `of` returns.
#[repr(C)]
#[derive(Clone, Copy)]
pub struct Unpacking {
    /// The number of zero bytes that come before what the next packed byte unpacks to.
    pub zeros: u16,
    /// The number in the place of the next packed byte: how many bytes of the word, or of the words
    /// that aren't packed, come after it.
    pub left: u16,
    /// Which place that is: 0 for a tag.
    pub place: u8,
    /// Which of the bytes that come after it are packed.
    pub bits: u8,
}

impl Unpacking {
    /// Returns the state with these zero bytes and this place.
    fn of(zeros: u16, place: Place) -> Self
        ensures zeros { result.zeros ≡ zeros }
        ensures place { next_place result ≡ place }
        ensures state { result ≡ unpacking_at zeros place }
    {
        let (number, left, bits): (u8, u16, u8) = match place {
            Place::Tag => (0, 0, 0),
            Place::Kept { bits, left } => (1, u16::from(left), bits),
            Place::Zeros => (2, 0, 0),
            Place::Whole(left) => (3, u16::from(left), 0),
            Place::Count => (4, 0, 0),
            Place::Raw(left) => (5, left, 0),
        };
        Unpacking {
            zeros,
            left,
            place: number,
            bits,
        }
    }

    /// Returns the place of the next packed byte.
    fn next_place(self) -> Place
        ensures { result ≡ next_place self }
    {
        match self.place {
            0 => Place::Tag,
            1 => Place::Kept {
                bits: self.bits,
                left: (self.left % 256) as u8,
            },
            2 => Place::Zeros,
            3 => Place::Whole((self.left % 256) as u8),
            4 => Place::Count,
            _ => Place::Raw(self.left),
        }
    }
}

/// Unpacks `packed` to the front of `to`, and returns the number of unpacked bytes. Counts them
/// first, so it writes nothing if `packed` is cut short or `to` is too small.
pub fn unpack(packed: &[u8], to: &mut [u8]) -> Result<usize, Refusal>
    ensures unpacked { Fills result to.old to.new (Packs packed.now) }
    ensures refused { IfErr result (RefusesPacked packed.now (length to.old)) }
    ensures granted { IsWhole Place.Tag packed.now
        → length (unpacked_bytes Place.Tag packed.now) ≤ length to.old → IsOk result }
{
    let room = to.len();
    let Some((size, place)) = unpacked_size(packed) else {
        return Err(Refusal::NoRoom(usize::MAX));
    };
    if !matches!(place, Place::Tag) {
        return Err(Refusal::Frame(FrameError::Truncated));
    }
    if room < size {
        return Err(Refusal::NoRoom(size));
    }
    unpack_to_slice(packed, &mut to[..size]);
    Ok(size)
}

/// Unpacks the next bytes of a packed stream to the front of `to`: first the zero bytes that are
/// due, and then what `packed` unpacks to. Stores how far the stream is unpacked in `unpacking`,
/// and how many packed bytes it took in `taken`. Returns the number of bytes written.
pub fn unpack_further(
    unpacking: &mut Unpacking,
    packed: &[u8],
    to: &mut [u8],
    taken: &mut usize,
) -> usize
    ensures piece { written_piece taken.new result to.new unpacking.new
        ≡ unpacked_piece (length to.old) unpacking.old.zeros (next_place unpacking.old) packed.now }
    ensures state { unpacking.new ≡ unpacking_at unpacking.new.zeros (next_place unpacking.new) }
    ensures taken { taken.new ≤ length packed.now }
    ensures within { result ≤ length to.new }
{
    let from = *unpacking;
    let done = unpack_piece(from.zeros, from.next_place(), packed, to);
    *unpacking = Unpacking::of(done.zeros, done.place);
    *taken = done.taken;
    done.given
}
