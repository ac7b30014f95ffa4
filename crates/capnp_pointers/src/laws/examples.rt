//! Worked examples of reading: the words of a message, the limits, the result of reading the root,
//! and what the limiter has left. There is at least one for each step of the tables in
//! docs/FORMAT.md ("Charges and refusals"). The checker computes each. A word is written in
//! hexadecimal: its upper half, then its lower half. A reader is charged one word more, for the
//! root pointer itself.

ghost use Rattle.std.specs.Prelude.{◌≡◌, [], ◌∷◌, Ok, Err};
ghost use Rattle.capnp_words.specs.declared.error.ErrorKind.TheVariants.{CannotCreateACanonicalMessageWithACapability, InlineCompositeListsElementsOverrunItsWordCount, InlineCompositeListsOfNonStructTypeAreNotSupported, InvalidSegmentId, MalformedDoubleFarPointer, MessageContainsNonStructPointerWhereStructPointerWasExpected, MessageContainsOutOfBoundsPointer, MessageContainsTextThatIsNotNULTerminated, MessageIsTooDeeplyNestedOrContainsCycles, NestingLimitExceeded, ReadLimitExceeded, UnknownPointerType};
ghost use Rattle.capnp_words.specs.declared.wire_pointer.ElementSize.TheVariants.{EightBytes};
ghost use Rattle.capnp_format.specs.Tree.{Null, Capability, Struct, Flat, no_trees};
ghost use Rattle.capnp_pointers.specs.Enter.{flat};
ghost use Rattle.capnp_pointers.specs.Examples.{root_value, root_expected, left_with, alone};
ghost use Rattle.capnp_pointers.specs.Expected.{struct_expected, list_expected, text_expected};
ghost use Rattle.capnp_pointers.specs.Wanted.{plain, canonical, of_default};

/// What reading the roots of worked messages results in. The numbers after a message are the levels
/// and the traversal limit in words; those after the result are the words that are left, and the
/// pointers that were followed.
#[tactic(none)]
pub fn worked_readings()
    // A null pointer, and a message without words.
    ensures null { root_value plain (alone (0x00000000_00000000 ∷ [])) 0 0
        ≡ (Ok Null, left_with 0 0) }
    ensures nothing { root_value plain [] 0 0 ≡ (Ok Null, left_with 0 0) }
    // A far pointer to segment 5, which isn't there; one to word 1 of its own segment of one word.
    ensures no_segment { root_value plain (alone (0x00000005_00000002 ∷ [])) 1 9
        ≡ (Err (InvalidSegmentId 5), left_with 9 1) }
    ensures no_pad { root_value plain (alone (0x00000000_0000000a ∷ [])) 1 9
        ≡ (Err MessageContainsOutOfBoundsPointer, left_with 9 1) }
    // A landing pad for which no word is left.
    ensures pad_exceeds { root_value plain
        ((0x00000001_00000002 ∷ []) ∷ (0x00000001_00000000 ∷ 0x00000000_00000005 ∷ []) ∷ []) 1 0
        ≡ (Err ReadLimitExceeded, left_with 0 1) }
    // A landing pad that leads out of its segment; a double far pointer to segment 9.
    ensures pad_leads_out { root_value plain
        ((0x00000001_00000002 ∷ []) ∷ (0x00000001_00000004 ∷ []) ∷ []) 1 9
        ≡ (Err MessageContainsOutOfBoundsPointer, left_with 8 1) }
    ensures no_second_segment { root_value plain
        (alone (0x00000000_0000000e ∷ 0x00000009_00000002 ∷ 0x00000001_00000000 ∷ [])) 1 9
        ≡ (Err (InvalidSegmentId 9), left_with 7 1) }
    // A landing pad that is a far pointer itself; a pointer of no known kind.
    ensures far_to_far { root_value plain
        ((0x00000001_00000002 ∷ []) ∷ (0x00000001_00000002 ∷ 0x00000000_00000000 ∷ []) ∷ []) 1 9
        ≡ (Err MalformedDoubleFarPointer, left_with 8 1) }
    ensures unknown { root_value plain
        (alone (0x00000000_00000007 ∷ 0x00000000_00000000 ∷ 0x00000000_00000000 ∷ [])) 1 9
        ≡ (Err UnknownPointerType, left_with 9 1) }
    // A capability takes no level and no words, and canonical form and a default have none.
    ensures capability { root_value plain (alone (0x00000002_00000003 ∷ [])) 0 0
        ≡ (Ok (Capability 2), left_with 0 1) }
    ensures canonical_capability { root_value canonical (alone (0x00000002_00000003 ∷ [])) 0 0
        ≡ (Err CannotCreateACanonicalMessageWithACapability, left_with 0 1) }
    ensures default_capability { root_value of_default (alone (0x00000002_00000003 ∷ [])) 0 0
        ≡ (Err UnknownPointerType, left_with 0 1) }
    // A struct of one data word: without a level; outside of its segment; with no word left; and
    // within both limits.
    ensures no_level { root_value plain
        (alone (0x00000001_00000000 ∷ 0x00000000_00000005 ∷ [])) 0 9
        ≡ (Err MessageIsTooDeeplyNestedOrContainsCycles, left_with 9 1) }
    ensures claim_outside { root_value plain (alone (0x00000001_00000000 ∷ [])) 1 9
        ≡ (Err MessageContainsOutOfBoundsPointer, left_with 9 1) }
    ensures claim_exceeds { root_value plain
        (alone (0x00000001_00000000 ∷ 0x00000000_00000005 ∷ [])) 1 0
        ≡ (Err ReadLimitExceeded, left_with 0 1) }
    ensures one_word { root_value plain
        (alone (0x00000001_00000000 ∷ 0x00000000_00000005 ∷ [])) 1 1
        ≡ (Ok (Struct (0x00000000_00000005 ∷ []) no_trees), left_with 0 1) }
    // A list of structs of one word: its tag is a list pointer; its tag has two elements.
    ensures no_tag { root_value plain
        (alone (0x0000000f_00000001 ∷ 0x00000000_00000001 ∷ 0x00000000_00000005 ∷ [])) 1 9
        ≡ (Err InlineCompositeListsOfNonStructTypeAreNotSupported, left_with 7 1) }
    ensures overrun { root_value plain
        (alone (0x0000000f_00000001 ∷ 0x00000001_00000008 ∷ 0x00000000_00000005 ∷ [])) 1 9
        ≡ (Err InlineCompositeListsElementsOverrunItsWordCount, left_with 7 1) }
    // Three elements without width: of Void, with two words left and with three; structs without
    // words, with two words left after their tag.
    ensures void_exceeds { root_value plain (alone (0x00000018_00000001 ∷ [])) 1 2
        ≡ (Err ReadLimitExceeded, left_with 2 1) }
    ensures void { root_value plain (alone (0x00000018_00000001 ∷ [])) 1 3
        ≡ (Ok (Flat 0 (0 ∷ 0 ∷ 0 ∷ [])), left_with 0 1) }
    ensures empty_structs_exceed { root_value plain
        (alone (0x00000007_00000001 ∷ 0x00000000_0000000c ∷ [])) 1 3
        ≡ (Err ReadLimitExceeded, left_with 2 1) }
    // If several names are true, the first in the order of checks: there is no level, and the
    // struct is outside of its segment; it is outside, and no word is left.
    ensures level_before_bounds { root_value plain (alone (0x00000001_00000000 ∷ [])) 0 0
        ≡ (Err MessageIsTooDeeplyNestedOrContainsCycles, left_with 0 1) }
    ensures bounds_before_charge { root_value plain (alone (0x00000001_00000000 ∷ [])) 1 0
        ≡ (Err MessageContainsOutOfBoundsPointer, left_with 0 1) }
    // A struct of two pointers: the value of the first is read before the second is refused.
    ensures second_pointer { root_value plain
        (alone (0x00020000_00000000 ∷ 0x00000001_00000004 ∷ 0x00000002_00000000
        ∷ 0x00000000_00000005 ∷ [])) 2 9
        ≡ (Err MessageContainsOutOfBoundsPointer, left_with 6 3) }
    ensures first_pointer { root_value plain
        (alone (0x00020000_00000000 ∷ 0x00000001_00000004 ∷ 0x00000002_00000000
        ∷ 0x00000000_00000005 ∷ [])) 2 2
        ≡ (Err ReadLimitExceeded, left_with 0 2) }
    // A struct is expected, and a list is there; a list is expected, and no level is left.
    ensures no_struct { root_expected struct_expected (alone (0x00000018_00000001 ∷ [])) 1 9
        ≡ (Err MessageContainsNonStructPointerWhereStructPointerWasExpected, left_with 9 1) }
    ensures no_level_for_a_list { root_expected (list_expected EightBytes)
        (alone (0x00000018_00000001 ∷ [])) 0 9
        ≡ (Err NestingLimitExceeded, left_with 9 0) }
    // Two bytes as a text, which takes no level: without a zero byte at its end, and with one.
    ensures no_zero_byte { root_expected text_expected
        (alone (0x00000012_00000001 ∷ 0x00000000_00006261 ∷ [])) 0 9
        ≡ (Err MessageContainsTextThatIsNotNULTerminated, left_with 8 1) }
    ensures text { root_expected text_expected
        (alone (0x00000012_00000001 ∷ 0x00000000_00000061 ∷ [])) 0 9
        ≡ (Ok (flat 0 1 2 2), left_with 8 1) }
{}
