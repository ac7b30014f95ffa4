//! Words in slices of bytes: eight bytes each, the lowest byte first. Positions and counts are in
//! words from the slice's start; up to seven bytes after the last whole word are ignored.
ghost use Rattle.std.specs.Prelude.{◌≡◌, ◌<◌, ◌≤◌, ◌+◌, ◌*◌, ◌/◌, ◌^◌, ◌++◌, [], ℕ, length, take, drop, replicate, slice_set, slice_index};
ghost use Rattle.capnp_format.specs.Bytes.{words_of};
ghost use Rattle.capnp_format.specs.Canonical.{used_words};
ghost use borrow.Rule.Slice.PartMut.{put_mid};

use crate::lanes;
use std::simd::prelude::*;

/// The word at position `at`. Precondition: `bytes` has at least `at + 1` words.
pub fn word_at(bytes: &[u8], at: usize) -> u64
    requires { 8 * at + 8 ≤ length bytes.now }
    ensures { result ≡ slice_index (words_of bytes.now) at }
{
    let i = 8 * at;
    let word = &bytes[i..i + 8];
    u64::from_le_bytes([
        word[0], word[1], word[2], word[3], word[4], word[5], word[6], word[7],
    ])
}

/// Writes `word` at position `at`. Precondition: `bytes` has at least `at + 1` words.
#[tactic(auto, using(capnp_format::proofs::WordsOf::put_words))]
pub fn put_word(bytes: &mut [u8], at: usize, word: u64)
    requires { 8 * at + 8 ≤ length bytes.old }
    ensures { words_of bytes.new ≡ slice_set (words_of bytes.old) at word }
{
    u64x1::splat(word)
        .to_le_bytes()
        .copy_to_slice(&mut bytes[8 * at..]);
}

/// Copies the words of `from` over those of `bytes` from position `at` on. Preconditions: the
/// length of `from` is a multiple of 8; `bytes` has at least `at` words more than `from`.
#[tactic(auto, using(capnp_format::proofs::WordsOf::put_words))]
pub fn copy_words(bytes: &mut [u8], at: usize, from: &[u8])
    requires whole { length from.now ≡ 8 * length (words_of from.now) }
    requires room { 8 * (at + length (words_of from.now)) ≤ length bytes.old }
    ensures { words_of bytes.new ≡ put_mid at (length (words_of from.now)) (words_of bytes.old)
        (words_of from.now) }
{
    let start = 8 * at;
    lanes::copy(from, &mut bytes[start..start + from.len()]);
}

/// Zeroes `n` words from position `at` on. Precondition: `bytes` has at least `at + n` words.
#[tactic(auto, using(capnp_format::proofs::WordsOf::put_words))]
pub fn zero_words(bytes: &mut [u8], at: usize, n: usize)
    requires { 8 * (at + n) ≤ length bytes.old }
    ensures { words_of bytes.new ≡ put_mid at n (words_of bytes.old) (replicate n 0) }
{
    let start = 8 * at;
    lanes::zero(&mut bytes[start..start + 8 * n]);
}

/// The number of words up to and including the last one that isn't zero; 0 if all are zero.
pub fn used_words(bytes: &[u8]) -> usize
    ensures value { result ≡ used_words (words_of bytes.now) }
    ensures within { result ≤ length bytes.now / 8 }
{
    let words = bytes.len() / 8;
    words - lanes::trailing_zero_words(&bytes[..8 * words])
}

/// The `n` words from position `at` on. Precondition: `bytes` has at least `at + n` words.
#[tactic(auto, using(capnp_format::proofs::WordsOf::part_words))]
pub fn word_range(bytes: &[u8], at: usize, n: usize) -> &[u8]
    requires { 8 * (at + n) ≤ length bytes.now }
    ensures words { words_of result.now ≡ take n (drop at (words_of bytes.now)) }
    ensures length { length result.now ≡ 8 * n }
    ensures count { length (words_of result.now) ≡ n }
{
    &bytes[8 * at..8 * at + 8 * n]
}

/// The number of whole words in `bytes`.
#[tactic(auto, using(capnp_format::proofs::WordsOf::part_words))]
pub fn count(bytes: &[u8]) -> usize
    ensures { result ≡ length (words_of bytes.now) }
{
    bytes.len() / 8
}

/// Of the `n` words from position `at` on, the number up to and including the last one that isn't
/// zero; 0 if all are zero. Precondition: `bytes` has at least `at + n` words.
pub fn used_words_in(bytes: &[u8], at: usize, n: usize) -> usize
    requires { 8 * (at + n) ≤ length bytes.now }
    ensures value { result ≡ used_words (take n (drop at (words_of bytes.now))) }
    ensures within { result ≤ n }
{
    used_words(word_range(bytes, at, n))
}

/// Copies `n` words from position `from` to position `to`; the two ranges may overlap.
/// Precondition: `bytes` has at least `from + n` words, and at least `to + n`.
pub fn move_words(bytes: &mut [u8], from: usize, to: usize, n: usize)
    requires there { 8 * (from + n) ≤ length bytes.old }
    requires room { 8 * (to + n) ≤ length bytes.old }
    ensures { words_of bytes.new ≡ put_mid to n (words_of bytes.old)
        (take n (drop from (words_of bytes.old))) }
{
    if from + n <= to {
        let (front, back) = bytes.split_at_mut(8 * to);
        lanes::copy(&front[8 * from..8 * (from + n)], &mut back[..8 * n]);
    } else {
        bytes.copy_within(8 * from..8 * (from + n), 8 * to);
    }
}
