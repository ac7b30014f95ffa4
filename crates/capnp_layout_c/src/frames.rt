//! The segments of a message whose frame is in the caller's memory (encoding specification,
//! "Serialization Over a Stream").
ghost use Rattle.std.specs.Prelude.{◌≡◌, ◌≢◌, ◌≤◌, ◌<◌, ◌⊎◌, ◌+◌, ◌*◌, [], ℕ, map, length, take, drop, IfOk, IfErr};
ghost use Rattle.std.specs.Int.{from_le_bytes, w32};
ghost use Rattle.capnp_framing.specs.Flat.{parts};
ghost use Rattle.capnp_framing.specs.Reading.{table_size, words_told};
ghost use Rattle.capnp_layout_c.specs.Opened.{IsWholeFrame, IsNoFrameNumber};

use capnp_framing::framing::{FrameError, size_from_prefix};
use capnp_numbers::{NO_MESSAGE, frame_number};

// Returns the number in the four bytes of `frame` from position `at` on, the lowest byte first.
#[inline(always)]
fn number_in(frame: &[u8], at: usize) -> u32
    requires { at + 4 ≤ length frame.now }
    ensures { result ≡ from_le_bytes w32 (take 4 (drop at frame.now)) }
{
    u32::from_le_bytes([frame[at], frame[at + 1], frame[at + 2], frame[at + 3]])
}

/// Returns the number of segments and the size in bytes of the frame at the front of `frame`, or the
/// number of a refusal. Refuses a frame of more than `words` words.
pub fn whole_frame(frame: &[u8], words: u64) -> Result<(u32, u64), u32>
    ensures whole { IfOk result (λ x. IsWholeFrame frame.now words x.0 x.1) }
    ensures refused { IfErr result (IsNoFrameNumber frame.now words) }
{
    if frame.is_empty() {
        return Err(NO_MESSAGE);
    }
    match size_from_prefix(frame, words) {
        Ok(size) => {
            if frame.len() < size {
                return Err(frame_number(FrameError::Truncated));
            }
            Ok((number_in(frame, 0) + 1, size as u64))
        }
        Err(error) => Err(frame_number(error)),
    }
}

/// Writes the `count` segments of the frame at the front of `frame` to the front of `room`.
pub fn cut<'m>(frame: &'m [u8], count: u32, room: &mut [&'m [u8]])
    requires whole { table_size count + 8 * words_told count (drop 4 frame.now)
        ≤ length frame.now }
    requires few { count ≤ 512 }
    requires room { count ≤ length room.old }
    ensures segments { map (λ s. s.now) (take count room.new)
        ≡ parts count (drop 4 frame.now) (drop (table_size count) frame.now) }
    ensures behind { drop count room.new ≡ drop count room.old }
    ensures long { length room.new ≡ length room.old }
{
    let n = count as usize;
    let mut at = 4 + 4 * n + 4 * ((n + 1) % 2);
    for i in 0..n {
        let size = 8 * number_in(frame, 4 + 4 * i) as usize;
        room[i] = &frame[at..at + size];
        at += size;
    }
}
