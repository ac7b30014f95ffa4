//! Copies a list of numbers: its words, with zeros after the last number (encoding specification,
//! "Lists" and "Canonicalization").
ghost use Rattle.std.specs.Prelude.{◌≡◌, ◌+◌, ◌*◌, ◌/◌, ◌%◌, ◌<◌, ◌≤◌, ◌^◌, length, IsOk, OnOk, OnErr, IfErr, MatchResult};
ghost use Rattle.capnp_format.specs.Bytes.{words_of};
ghost use Rattle.capnp_format.specs.Numbers.{words_for, unpacked, digits, from_digits};
ghost use Rattle.capnp_format.specs.Segments.{segment, IsPlace};
ghost use Rattle.capnp_arena_traits.specs.Written.{with_words};
ghost use Rattle.capnp_copies.specs.Growth.{MakesAtMost, TakesNone};
ghost use Rattle.capnp_format.specs.Tree.{Null, Flat};
ghost use Rattle.capnp_allocation.specs.Memory.{KeepsMemory, SpendsMemory, RefusesWords};
ghost use Rattle.capnp_allocation.specs.Near.{HasOwnRoom};
ghost use Rattle.capnp_allocation.specs.Stored.{IsReplaced};
ghost use Rattle.capnp_words.specs.Sizes.{size_number};
ghost use Rattle.capnp_copies.specs.Changes.{IsCopiedInRoom};

use capnp_allocation::making::make_list;
use capnp_arena_traits::arena::{BuilderArena, WordPlace, copy_words, set_word};
use capnp_words::error::ErrorKind;
use capnp_words::wire_pointer::{ElementSize, data_bits_per_element};
use capnp_words::words;

/// Copies a list of `count` numbers of the element size `size`, which are in the words `elements`,
/// and makes the pointer at `to` lead to the copy. Refuses only if the arena refuses the words;
/// then no word changes. Preconditions: the word at `to` is allocated; `size` is neither `Pointer`
/// nor `InlineComposite`; `count` is below 2^29; `elements` has exactly the words that `count`
/// elements take.
#[inline(always)]
pub fn copy_primitive_list<A: BuilderArena>(
    arena: &mut A,
    to: WordPlace,
    size: ElementSize,
    count: u32,
    elements: &[u8],
) -> Result<(), ErrorKind>
    requires place { IsPlace (A.view arena.old).words to.segment to.at }
    requires flat { size_number size ≤ 5 }
    requires few { count < 2 ^ 29 }
    requires whole { length elements.now ≡ 8 * length (words_of elements.now) }
    requires all { length (words_of elements.now) ≡ words_for (size_number size) count }
    ensures copied { OnOk result (IsReplaced (A.view arena.old).words
        (A.view arena.new).words to.segment to.at Null
        (Flat (size_number size) (unpacked (size_number size) count (words_of elements.now)))) }
    ensures stands { OnOk result (IsCopiedInRoom (A.view arena.old) (A.view arena.new)
        to.segment to.at
        (Flat (size_number size) (unpacked (size_number size) count (words_of elements.now)))) }
    ensures fits { HasOwnRoom (A.view arena.old) to.segment (words_for (size_number size) count)
        → IsOk result }
    ensures taken { MatchResult result
        (λ _. MakesAtMost to.segment (A.view arena.old) (A.view arena.new)
        (words_for (size_number size) count) 1)
        (λ _. TakesNone (A.view arena.old) (A.view arena.new)) }
    ensures granted { OnOk result (KeepsMemory (A.view arena.old) (A.view arena.new)) }
    ensures refused { IfErr result
        (RefusesWords (A.view arena.old) (A.view arena.new) (words_for (size_number size) count)) }
    ensures kept { OnErr result ((A.view arena.new).words ≡ (A.view arena.old).words) }
    ensures memory { IfErr result (SpendsMemory (A.view arena.old) (A.view arena.new)) }
{
    let start = make_list(arena, to.segment, to.at, size, count)?;
    let bits = u64::from(count) * u64::from(data_bits_per_element(size));
    put_elements(arena, start.segment, start.at, elements, bits);
    Ok(())
}

/// Writes `elements`, which have `bits` bits in total, over the words of segment `id` from `start`
/// on. Zeroes the bits after the elements in the last word.
#[inline(always)]
fn put_elements<A: BuilderArena>(arena: &mut A, id: u32, start: u32, elements: &[u8], bits: u64)
    requires whole { length elements.now ≡ 8 * length (words_of elements.now) }
    requires inside { start + length (words_of elements.now)
        ≤ length (segment (A.view arena.old).words id) }
    requires all { (bits + 63) / 64 ≡ length (words_of elements.now) }
    ensures { A.view arena.new
        ≡ record (A.view arena.old) {
          words = with_words (A.view arena.old).words id start
              (digits (2 ^ 64) (length (words_of elements.now))
              (from_digits (2 ^ 64) (words_of elements.now) % 2 ^ bits));
        } }
{
    copy_words(arena, id, start, elements);
    let used = bits % 64;
    if used != 0 {
        let last = words::count(elements) - 1;
        let word = words::word_at(elements, last);
        set_word(arena, id, start + last as u32, word & ((1 << used) - 1));
    }
}
