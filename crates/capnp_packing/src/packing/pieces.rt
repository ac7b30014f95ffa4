//! Unpacks a packed stream piece by piece (encoding specification, "Packing").
ghost use Rattle.std.specs.Prelude.{◌≡◌, ◌≢◌, ◌≤◌, ◌<◌, ◌+◌, ◌++◌, ◌&&◌, ◌∷◌, [], length, take, drop, replicate, nat_lt, true};
ghost use Rattle.capnp_packing.specs.Packing.{place_at_end};
ghost use Rattle.capnp_packing.specs.Pieces.{UnpacksNext, bytes_due, is_before_count, piece_of, takes_next, taken_of, unpacked_piece};

use super::place::{Place, step};
use super::unpacking::{Progress, UNIT, fill_with_zeros, place_after_raw, unpack_words};

/// Whether the next packed byte is a count.
fn is_before_count(place: Place) -> bool
    ensures { result ≡ is_before_count place }
{
    matches!(place, Place::Zeros | Place::Count)
}

/// Writes `zeros` zero bytes to the front of `to`, or as many as fit.
fn unpack_zeros_due(zeros: u16, place: Place, to: &mut [u8]) -> Progress
    ensures none { result.taken ≡ 0 }
    ensures place { result.place ≡ place }
    ensures within { result.given ≤ length to.new }
    ensures all { result.given + result.zeros ≡ zeros }
    ensures full { result.zeros ≢ 0 → result.given ≡ length to.new }
    ensures bytes { take result.given to.new ≡ replicate result.given 0 }
{
    let given = to.len().min(zeros as usize);
    fill_with_zeros(&mut to[..given]);
    Progress {
        taken: 0,
        given,
        zeros: zeros - given as u16,
        place,
    }
}

/// Unpacks the byte `packed`, and writes the result to the front of `to`: a byte, if it stands for
/// one, and then zero bytes, or as many of them as fit.
fn unpack_byte(place: Place, packed: u8, to: &mut [u8]) -> Progress
    requires { takes_next (length to.old) 0 place ≡ true }
    ensures { UnpacksNext place (packed ∷ []) to.new result }
{
    let unpacked = step(place, packed);
    match unpacked.byte {
        Some(byte) => {
            to[0] = byte;
            let zeros = unpack_zeros_due(unpacked.zeros, unpacked.next, &mut to[1..]);
            Progress {
                taken: 1,
                given: 1 + zeros.given,
                ..zeros
            }
        }
        None => {
            let zeros = unpack_zeros_due(unpacked.zeros, unpacked.next, to);
            Progress { taken: 1, ..zeros }
        }
    }
}

/// Copies bytes of words that aren't packed to the front of `to`: as many as there are, and as fit.
/// `left` + 1 bytes of these words are still to come.
fn unpack_raw(left: u16, packed: &[u8], to: &mut [u8]) -> Progress
    requires some { 0 < length packed.now }
    requires room { 0 < length to.old }
    ensures { UnpacksNext (Place.Raw left) packed.now to.new result }
{
    let given = packed.len().min(to.len()).min(left as usize + 1);
    to[..given].copy_from_slice(&packed[..given]);
    Progress {
        taken: given,
        given,
        zeros: 0,
        place: place_after_raw(left, given),
    }
}

/// Unpacks bytes from the front of `packed`, at least one, to the front of `to`.
fn unpack_next(place: Place, packed: &[u8], to: &mut [u8]) -> Progress
    requires some { 0 < length packed.now }
    requires room { takes_next (length to.old) 0 place ≡ true }
    ensures { UnpacksNext place packed.now to.new result }
{
    if let Place::Raw(left) = place {
        return unpack_raw(left, packed, to);
    }
    if matches!(place, Place::Tag) && packed.len() >= UNIT && to.len() >= 8 {
        return unpack_words(packed, to);
    }
    unpack_byte(place, packed[0], to)
}

/// Whether there is a further packed byte, and it is unpacked before the call ends.
fn takes_more(done: Progress, packed: &[u8], room: usize) -> bool
    requires within { done.given ≤ room }
    requires full { done.zeros ≢ 0 → done.given ≡ room }
    ensures { result ≡ (nat_lt done.taken (length packed.now)
        && takes_next room (done.given + done.zeros) done.place) }
{
    done.zeros == 0
        && done.taken < packed.len()
        && (done.given < room || is_before_count(done.place))
}

/// Unpacks the next bytes of a packed stream to the front of `to`: first `zeros` zero bytes, and
/// then what `packed` unpacks to from `place` on. At the start of a stream, `zeros` is 0 and `place`
/// is `Place::Tag`; afterwards, they are those that the last call returned.
///
/// Stops when `to` is full or all of `packed` is unpacked. Takes no more packed bytes than it needs
/// to fill `to`, and the count after the last word if that is in `packed`. So for a whole message it
/// takes exactly the message's packed bytes, if no run of words begins in one message and ends in
/// another.
pub fn unpack_piece(zeros: u16, place: Place, packed: &[u8], to: &mut [u8]) -> Progress
    ensures piece { piece_of result to.new ≡ unpacked_piece (length to.old) zeros place packed.now }
    ensures rest { bytes_due zeros place packed.now ≡ take result.given to.new
        ++ bytes_due result.zeros result.place (drop result.taken packed.now) }
    ensures end { place_at_end result.place (drop result.taken packed.now)
        ≡ place_at_end place packed.now }
    ensures taken { result.taken ≤ length packed.now }
    ensures within { result.given ≤ length to.new }
{
    let mut done = unpack_zeros_due(zeros, place, to);
    while takes_more(done, packed, to.len()) {
        let next = unpack_next(done.place, &packed[done.taken..], &mut to[done.given..]);
        done = Progress {
            taken: done.taken + next.taken,
            given: done.given + next.given,
            ..next
        };
    }
    done
}
