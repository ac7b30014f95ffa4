//! The words of the data section of a struct being read. The section may end inside a word, and
//! even inside a byte (encoding specification, "Structs").
ghost use Rattle.std.specs.Prelude.{◌≡◌, ◌+◌, ◌*◌, ◌/◌, ◌%◌, ◌^◌, ◌≤◌, length, take, drop};
ghost use Rattle.capnp_format.specs.Numbers.{from_digits};
ghost use Rattle.capnp_format.specs.Segments.{segment};
ghost use Rattle.capnp_arena_traits.specs.Written.{with_words};
ghost use Rattle.capnp_readers.specs.Sections.{bytes_for};
ghost use Rattle.capnp_copies.specs.Forms.{form_of};
ghost use Rattle.capnp_builders.specs.StructValues.{section_words};
ghost use Rattle.capnp_copies.specs.Originals.{kept_count};

use capnp_arena_traits::arena::{BuilderArena, WordPlace, set_word};
use capnp_copies::copy::put_words;
use capnp_words::words::{used_words_in, word_range};

/// The number of words that a copy keeps of a data section: in plain form all, the last one filled
/// up with zeros; in canonical form those up to the last one that isn't zero.
pub(crate) fn kept_words(bytes: &[u8], bits: u32, canonicalize: bool) -> usize
    requires long { length bytes.now ≡ bytes_for bits }
    ensures { result ≡ kept_count (form_of canonicalize) (section_words bits bytes.now) }
{
    if !canonicalize {
        return (bits as usize + 63) / 64;
    }
    let whole = bits as usize / 64;
    if last_partial_word(bytes, bits) != 0 {
        return whole + 1;
    }
    used_words_in(bytes, 0, whole)
}

/// Writes the first `kept` words of a data section over the words from `to` on.
pub(crate) fn write_section<A: BuilderArena>(
    arena: &mut A,
    to: WordPlace,
    bytes: &[u8],
    bits: u32,
    kept: u16,
)
    requires long { length bytes.now ≡ bytes_for bits }
    requires few { kept ≤ length (section_words bits bytes.now) }
    requires inside { to.at + kept ≤ length (segment (A.view arena.old).words to.segment) }
    ensures { A.view arena.new
        ≡ record (A.view arena.old) {
          words = with_words (A.view arena.old).words to.segment to.at
              (take kept (section_words bits bytes.now));
        } }
{
    let WordPlace { segment: id, at } = to;
    let whole = bits / 64;
    let kept = u32::from(kept);
    if kept <= whole {
        put_words(arena, id, at, word_range(bytes, 0, kept as usize));
        return;
    }
    put_words(arena, id, at, word_range(bytes, 0, whole as usize));
    set_word(arena, id, at + whole, last_partial_word(bytes, bits));
}

/// The bits after the last whole word of a data section, as a number; 0 if there are none.
fn last_partial_word(bytes: &[u8], bits: u32) -> u64
    requires long { length bytes.now ≡ bytes_for bits }
    ensures { result ≡ from_digits 256 (drop (8 * (bits / 64)) bytes.now) % 2 ^ (bits % 64) }
{
    let whole = 8 * (bits as usize / 64);
    let mut word: u64 = 0;
    let mut i = bytes.len();
    while i > whole {
        i -= 1;
        word = word * 256 + u64::from(bytes[i]);
    }
    word & ((1 << (bits % 64)) - 1)
}
