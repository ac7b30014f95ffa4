//! Worked examples of the definitions; the checker computes each example. A word is written in
//! hexadecimal: its upper half, then its lower half. In a message's bytes the lower half comes
//! first, and the lowest byte of each half comes first. Messages and values used in several
//! examples have names in `specs/Examples.antt`.

ghost use Rattle.std.specs.Prelude.{◌≡◌, ℕ, map, ◌+◌, ◌-◌, ◌^◌, List, [], ◌∷◌, Some, None};
ghost use Rattle.capnp_format.specs.Word.{kind, offset_bits, upper_half, data_words, pointer_count, element_size, list_count, is_double, far_position, struct_word, list_word, far_word, capability_word};
ghost use Rattle.capnp_format.specs.Numbers.{from_digits, digits, element_bits, words_for, unpacked, packed};
ghost use Rattle.capnp_format.specs.Segments.{Segments, segment, word_at, words_at, HasWords, IsPlace, offset_leads, leads};
ghost use Rattle.capnp_format.specs.Tree.{Tree, Null, Capability, Struct, Flat, Pointers, Structs, no_trees, tree, no_elements, element, count, element_count, depth, capabilities, blank};
ghost use Rattle.capnp_format.specs.Value.{IsValue};
ghost use Rattle.capnp_format.specs.Means.{Means};
ghost use Rattle.capnp_format.specs.Canonical.{used_words, used_trees, trim, word_count, pointer, body, encoding, charge, offset_to, Reaches, IsEncodable, HasCanonicalAt};
ghost use Rattle.capnp_format.specs.Forest.{times, cover, root, IsTidy, IsForest, ArenaHolds};
ghost use Rattle.capnp_format.specs.Bytes.{words_of, message};
ghost use Rattle.capnp_format.specs.Examples.{HasCanonicalWords, MeansNothing, trimmed_struct, far_pointer, double_far, shared_child, mixed, pair};

/// What the definitions result in for example messages, values and words. The checker computes each
/// result.
#[tactic(none)]
pub fn worked_examples()
    // What messages mean, at which cost, and their canonical words.
    // The null pointer takes no level and costs nothing.
    ensures null_root { HasCanonicalWords ((0x00000000_00000000 ∷ []) ∷ []) 0 0
        (0x00000000_00000000 ∷ []) }
    // A struct loses the zero word at its end.
    ensures trimmed_struct { HasCanonicalWords trimmed_struct 64 3
        (0x00000002_00000000 ∷ 0x11111111_11111111 ∷ 0x80000000_00000000 ∷ []) }
    // The only element of a list of structs loses its last data word, and so does the tag.
    ensures narrowed_struct_list { HasCanonicalWords
        ((0x00010000_00000000 ∷ 0x0000001f_00000001 ∷ 0x00000003_00000004 ∷ 0x22222222_22222222
        ∷ 0x80000000_00000000 ∷ 0x00000000_00000000 ∷ []) ∷ []) 64 5
        (0x00010000_00000000 ∷ 0x00000017_00000001 ∷ 0x00000002_00000004 ∷ 0x22222222_22222222
        ∷ 0x80000000_00000000 ∷ []) }
    // The widest element decides: both keep one data word, though the first needs none, and lose
    // the pointer.
    ensures widest_element { HasCanonicalWords
        ((0x00000027_00000001 ∷ 0x00010001_00000008 ∷ 0x00000000_00000000 ∷ 0x00000000_00000000
        ∷ 0xaaaaaaaa_aaaaaaaa ∷ 0x00000000_00000000 ∷ []) ∷ []) 64 5
        (0x00000017_00000001 ∷ 0x00000001_00000008 ∷ 0x00000000_00000000 ∷ 0xaaaaaaaa_aaaaaaaa
        ∷ []) }
    // A struct of no words isn't Null, and its pointer has offset -1.
    ensures empty_struct { HasCanonicalWords
        ((0x00020000_00000000 ∷ 0x00000001_00000004 ∷ 0x00000000_fffffffc ∷ 0xeeeeeeee_eeeeeeee
        ∷ []) ∷ []) 64 3
        (0x00020000_00000000 ∷ 0x00000001_00000004 ∷ 0x00000000_fffffffc ∷ 0xeeeeeeee_eeeeeeee
        ∷ []) }
    // Another offset means the same empty struct.
    ensures empty_struct_elsewhere { HasCanonicalWords
        ((0x00020000_00000000 ∷ 0x00000001_00000004 ∷ 0x00000000_00000004 ∷ 0xeeeeeeee_eeeeeeee
        ∷ []) ∷ []) 64 3
        (0x00020000_00000000 ∷ 0x00000001_00000004 ∷ 0x00000000_fffffffc ∷ 0xeeeeeeee_eeeeeeee
        ∷ []) }
    // The padding after the eleven bits of a list isn't part of the value.
    ensures bit_padding { HasCanonicalWords
        ((0x00000059_00000001 ∷ 0x00000000_00000fee ∷ []) ∷ []) 64 1
        (0x00000059_00000001 ∷ 0x00000000_000007ee ∷ []) }
    // A far pointer to a pad in another segment: the pad costs one word.
    ensures far_pointer { HasCanonicalWords far_pointer 64 2
        (0x00000001_00000000 ∷ 0x07060504_03020100 ∷ []) }
    // A far pointer to a zero pad means an empty struct, not Null.
    ensures far_to_zero_pad { HasCanonicalWords
        ((0x00000001_00000002 ∷ []) ∷ (0x00000000_00000000 ∷ []) ∷ []) 64 1
        (0x00000000_fffffffc ∷ []) }
    // A double far pointer: its two pads cost two words, and the kind of the first is ignored.
    ensures double_far { HasCanonicalWords double_far 64 4
        (0x00000002_00000000 ∷ 0x00000000_00000008 ∷ 0x00000002_00000000 ∷ []) }
    // A double far pointer whose object is outside of its segment.
    ensures double_far_outside { MeansNothing
        ((0x00000000_0000000e ∷ 0x00000000_fffffffa ∷ 0x0000000f_00000001 ∷ []) ∷ []) 64 }
    // A struct that is its own child.
    ensures own_child { MeansNothing ((0x00010000_fffffffc ∷ []) ∷ []) 64 }
    // A list of one pointer to a struct takes two levels.
    ensures pointer_list { let S : Segments = (0x0000000f_00000001 ∷ 0x00010000_00000004
        ∷ 0x00000001_00000000 ∷ 0x00000000_00000001 ∷ []) ∷ [] in
        HasCanonicalWords S 2 3 (0x0000000f_00000001 ∷ 0x00010000_00000004
        ∷ 0x00000001_00000000 ∷ 0x00000000_00000001 ∷ []) × MeansNothing S 1 }
    // An object may start before its pointer, and overlap it.
    ensures backward_pointer { HasCanonicalWords
        ((0x00010000_00000000 ∷ 0x0000000f_fffffff9 ∷ []) ∷ []) 64 3
        (0x00010000_00000000 ∷ 0x00000007_00000001 ∷ 0x00000000_00000000 ∷ []) }
    // A list of structs that claims more words than its segment has.
    ensures claim_outside { MeansNothing
        ((0xffffffff_00000001 ∷ 0x00000001_00000008 ∷ []) ∷ []) 64 }
    // Far and double far pointers over three segments.
    ensures three_segments { HasCanonicalWords
        ((0x00000001_00000002 ∷ 0x00000000_00000000 ∷ 0x00000000_00000000 ∷ 0x00000000_00000061
        ∷ []) ∷ (0x00020002_00000000 ∷ 0x00000000_00000007 ∷ 0x00000000_00000000
        ∷ 0x00000002_00000006 ∷ 0x00000000_00000000 ∷ [])
        ∷ (0x00000000_0000001a ∷ 0x00000012_00000001 ∷ []) ∷ []) 64 8
        (0x00010001_00000000 ∷ 0x00000000_00000007 ∷ 0x00000012_00000001 ∷ 0x00000000_00000061
        ∷ []) }
    // If two pointers lead to one child, it is a child of each: it is read, charged and written
    // twice.
    ensures shared_child { HasCanonicalWords shared_child 64 4
        (0x00020000_00000000 ∷ 0x00000001_00000004 ∷ 0x00000001_00000004 ∷ 0x00000000_00000009
        ∷ 0x00000000_00000009 ∷ []) }
    // Objects follow the order of their pointers.
    ensures crossed_children { HasCanonicalWords
        ((0x00020000_00000000 ∷ 0x00000001_00000008 ∷ 0x00000001_00000000 ∷ 0x07060504_03020100
        ∷ 0x00010203_04050607 ∷ []) ∷ []) 64 4
        (0x00020000_00000000 ∷ 0x00000001_00000004 ∷ 0x00000001_00000004 ∷ 0x00010203_04050607
        ∷ 0x07060504_03020100 ∷ []) }
    // A struct inside a struct takes two levels. Both are trimmed; the first child is Null and
    // stays, because the second isn't.
    ensures inner_struct { let S : Segments =
        (0x00020001_00000000 ∷ 0x00000000_00000000 ∷ 0x00000000_00000000 ∷ 0x00010002_00000000
        ∷ 0x00000000_00000005 ∷ 0x00000000_00000000 ∷ 0x00000000_00000000 ∷ []) ∷ [] in
        HasCanonicalWords S 2 6
        (0x00020000_00000000 ∷ 0x00000000_00000000 ∷ 0x00000001_00000000 ∷ 0x00000000_00000005 ∷ [])
        × MeansNothing S 1 }
    // A capability costs nothing and takes no level.
    ensures capability { Means ((0x00000005_00000003 ∷ []) ∷ []) 0 0 0 (Capability 5) 0 }
    // Two words can hold 1,073,741,823 empty structs; each costs a word of the traversal limit.
    ensures many_structs { Means ((0x00000007_00000001 ∷ 0x00000000_fffffffc ∷ []) ∷ []) 64 0 0
        (Structs 0 0 (blank 1073741823)) 1073741824 }

    // The fields of pointer words.
    ensures struct_kind { kind 0x00010002_00000004 ≡ 0 }
    ensures struct_offset { offset_bits 0x00010002_00000004 ≡ 1 }
    ensures struct_data { data_words 0x00010002_00000004 ≡ 2 }
    ensures struct_pointers { pointer_count 0x00010002_00000004 ≡ 1 }
    ensures struct_made { struct_word 1 2 1 ≡ 0x00010002_00000004 }
    ensures negative_offset { offset_bits 0x00000000_fffffffc ≡ 2 ^ 30 - 1 }
    ensures list_kind { kind 0x00000059_00000001 ≡ 1 }
    ensures list_of_bits { element_size 0x00000059_00000001 ≡ 1 }
    ensures eleven_elements { list_count 0x00000059_00000001 ≡ 11 }
    ensures list_made { list_word 0 1 11 ≡ 0x00000059_00000001 }
    ensures tag_elements { offset_bits 0x00010001_00000008 ≡ 2 }
    ensures far_kind { kind 0x00000001_00000002 ≡ 2 }
    ensures far_segment { upper_half 0x00000001_00000002 ≡ 1 }
    ensures single { is_double 0x00000001_00000002 ≡ 0 }
    ensures double { is_double 0x00000000_0000000e ≡ 1 }
    ensures double_position { far_position 0x00000000_0000000e ≡ 1 }
    ensures far_made { far_word 1 1 0 ≡ 0x00000000_0000000e }
    ensures capability_kind { kind 0x00000005_00000003 ≡ 3 }
    ensures capability_made { capability_word 5 ≡ 0x00000005_00000003 }
    ensures lowest_byte_first { words_of (0 ∷ 0 ∷ 0 ∷ 0 ∷ 3 ∷ 0 ∷ 0 ∷ 0 ∷ 255 ∷ [])
        ≡ 0x00000003_00000000 ∷ [] }
    ensures two_segments { message ((1 ∷ 0 ∷ 0 ∷ 0 ∷ 0 ∷ 0 ∷ 0 ∷ 0 ∷ []) ∷ [] ∷ [])
        ≡ (1 ∷ []) ∷ [] ∷ [] }

    // List elements in words.
    ensures sizes { map element_bits (0 ∷ 1 ∷ 2 ∷ 3 ∷ 4 ∷ 5 ∷ 6 ∷ 7 ∷ [])
        ≡ 0 ∷ 1 ∷ 8 ∷ 16 ∷ 32 ∷ 64 ∷ 0 ∷ 0 ∷ [] }
    ensures number_of_digits { from_digits 10 (3 ∷ 2 ∷ 1 ∷ []) ≡ 123 }
    ensures digits_of_number { digits 10 4 123 ≡ 3 ∷ 2 ∷ 1 ∷ 0 ∷ [] }
    ensures bits { unpacked 1 3 (0x00000000_0000000e ∷ []) ≡ 0 ∷ 1 ∷ 1 ∷ [] }
    ensures bits_packed { packed 1 (0 ∷ 1 ∷ 1 ∷ []) ≡ 6 ∷ [] }
    ensures bytes { unpacked 2 3 (0x00000004_00030201 ∷ []) ≡ 1 ∷ 2 ∷ 3 ∷ [] }
    ensures two_bytes { packed 3 (0x0201 ∷ 0x0403 ∷ 0x0605 ∷ 0x0807 ∷ 0x0a09 ∷ [])
        ≡ 0x08070605_04030201 ∷ 0x00000000_00000a09 ∷ [] }
    ensures four_bytes { unpacked 4 3 (0x00000002_00000001 ∷ 0x00000004_00000003 ∷ [])
        ≡ 1 ∷ 2 ∷ 3 ∷ [] }
    ensures eight_bytes { unpacked 5 1 (0x00000002_00000001 ∷ []) ≡ 0x00000002_00000001 ∷ [] }
    ensures nothing { unpacked 0 3 [] ≡ 0 ∷ 0 ∷ 0 ∷ [] }
    ensures nothing_packed { packed 0 (0 ∷ 0 ∷ 0 ∷ []) ≡ [] }
    ensures sixty_five_bits { words_for 1 65 ≡ 2 }
    ensures nine_bytes { words_for 2 9 ≡ 2 }

    // Segments, places, and where pointers lead.
    ensures second_segment { segment far_pointer 1
        ≡ 0x00000001_00000000 ∷ 0x07060504_03020100 ∷ [] }
    ensures no_third_segment { segment far_pointer 2 ≡ [] }
    ensures second_word { word_at far_pointer 1 1 ≡ 0x07060504_03020100 }
    ensures no_second_word { word_at far_pointer 0 1 ≡ 0 }
    ensures last_words { words_at far_pointer 1 1 5 ≡ 0x07060504_03020100 ∷ [] }
    ensures has_words { HasWords far_pointer 1 0 (0x00000001_00000000 ∷ 0x07060504_03020100 ∷ []) }
    ensures place { IsPlace far_pointer 1 1 }
    ensures no_place { IsPlace far_pointer 1 2 → ⊥ }
    ensures forward { offset_leads 10 4 0 ≡ Some 5 }
    ensures backward { offset_leads 10 5 (2 ^ 30 - 1) ≡ Some 5 }
    ensures to_the_end { offset_leads 10 9 0 ≡ Some 10 }
    ensures past_the_end { offset_leads 10 9 1 ≡ None }
    ensures to_the_front { offset_leads 10 5 (2 ^ 30 - 6) ≡ Some 0 }
    ensures before_the_front { offset_leads 10 5 (2 ^ 30 - 7) ≡ None }
    ensures in_its_segment { leads trimmed_struct 0 0
        ≡ Some (record { word = 0x00000003_00000000; segment = 0; start = 1; pads = 0 }) }
    ensures by_one_pad { leads far_pointer 0 0
        ≡ Some (record { word = 0x00000001_00000000; segment = 1; start = 1; pads = 1 }) }
    ensures by_two_pads { leads double_far 0 0
        ≡ Some (record { word = 0x00000002_00000000; segment = 0; start = 1; pads = 2 }) }
    ensures far_to_far { leads ((0x00000000_0000000a ∷ 0x00000000_0000000a ∷ []) ∷ []) 0 0 ≡ None }
    ensures no_such_segment { leads ((0x00000007_00000002 ∷ []) ∷ []) 0 0 ≡ None }
    ensures second_pad_outside { leads ((0x00000000_0000000e ∷ 0 ∷ []) ∷ []) 0 0 ≡ None }

    // Functions and facts of values.
    ensures two_elements { element_count (blank 2) ≡ 2 }
    ensures three_children { count (tree Null (tree Null (tree Null no_trees))) ≡ 3 }
    ensures two_levels { depth mixed ≡ 2 }
    ensures one_capability { capabilities mixed ≡ 1 }
    ensures three_levels { depth (Pointers (tree mixed no_trees)) ≡ 3 }
    ensures is_value { IsValue (Struct (9 ∷ []) no_trees) }
    ensures too_large_a_byte { IsValue (Flat 2 (256 ∷ [])) → ⊥ }
    ensures another_width { IsValue (Structs 1 0 (element [] no_trees no_elements)) → ⊥ }

    // Canonical form.
    ensures inner_zero_stays { used_words (1 ∷ 0 ∷ 2 ∷ 0 ∷ []) ≡ 3 }
    ensures nulls_at_the_end { used_trees (tree Null (tree (Capability 1) (tree Null no_trees)))
        ≡ 2 }
    ensures cut_at_the_ends { trim mixed ≡ Struct (7 ∷ [])
        (tree Null (tree (Flat 2 (97 ∷ 0 ∷ [])) (tree (Capability 5) no_trees))) }
    ensures least_widths { trim pair ≡ Structs 1 1
        (element (0 ∷ []) (tree Null no_trees)
        (element (7 ∷ []) (tree (Struct [] no_trees) no_trees) no_elements)) }
    ensures no_elements_no_widths { trim (Structs 3 2 no_elements) ≡ Structs 0 0 no_elements }
    ensures pointer_list_keeps_nulls { trim (Pointers (tree Null (tree Null no_trees)))
        ≡ Pointers (tree Null (tree Null no_trees)) }
    ensures words_of_struct { word_count mixed ≡ 6 }
    ensures words_of_elements { word_count pair ≡ 7 }
    ensures cost_of_elements { charge pair ≡ 7 }
    ensures cost_of_no_width { charge (Structs 0 0 (blank 3)) ≡ 4 }
    ensures cost_of_void { charge (Flat 0 (0 ∷ 0 ∷ [])) ≡ 2 }
    ensures null_pointer { pointer Null 9 ≡ 0 }
    ensures empty_struct_pointer { pointer (Struct [] no_trees) 9 ≡ 0x00000000_fffffffc }
    ensures struct_pointer { pointer (Struct (7 ∷ []) no_trees) 1 ≡ 0x00000001_00000004 }
    ensures void_list_pointer { pointer (Flat 0 (0 ∷ 0 ∷ [])) 1 ≡ 0x00000010_00000005 }
    ensures body_of_elements { body (trim pair)
        ≡ 0x00010001_00000008 ∷ 0 ∷ 0 ∷ 7 ∷ 0x00000000_fffffffc ∷ [] }
    ensures canonical_words { encoding (trim pair)
        ≡ 0x00000027_00000001 ∷ 0x00010001_00000008 ∷ 0 ∷ 0 ∷ 7 ∷ 0x00000000_fffffffc ∷ [] }
    ensures offset_behind { offset_to 0 1 ≡ 0 }
    ensures offset_before { offset_to 5 5 ≡ 2 ^ 30 - 1 }
    ensures farthest_forward { Reaches 0 (2 ^ 29) }
    ensures too_far_forward { Reaches 0 (2 ^ 29 + 1) → ⊥ }
    ensures farthest_back { Reaches (2 ^ 29 - 1) 0 }
    ensures too_far_back { Reaches (2 ^ 29) 0 → ⊥ }
    ensures offsets_fit { IsEncodable mixed }
    ensures stands { HasCanonicalAt ((0x00000001_00000000 ∷ 9 ∷ []) ∷ []) 0 0 1
        (Struct (9 ∷ []) no_trees) }
    ensures stands_nowhere_else { HasCanonicalAt ((0x00000001_00000000 ∷ 9 ∷ 9 ∷ []) ∷ []) 0 0 2
        (Struct (9 ∷ []) no_trees) → ⊥ }

    // What a value covers: in a builder's message no word twice; the shared child's word is covered
    // twice.
    ensures far_cover { cover far_pointer 0 0 (Struct (0x07060504_03020100 ∷ []) no_trees)
        ≡ record { segment = 1; start = 0; words = 1 }
        ∷ record { segment = 1; start = 1; words = 1 } ∷ [] }
    ensures held_once_and_twice { let child : Tree = Struct (9 ∷ []) no_trees in
        let value : Tree = Struct [] (tree child (tree child no_trees)) in
        let covered = root ∷ cover shared_child 0 0 value in
        (times covered 0 2 ≡ 1) × (times covered 0 3 ≡ 2) }
    ensures no_forest { (t : Tree) → IsForest shared_child t → ⊥ }
    ensures untidy_padding { IsTidy ((0x00000059_00000001 ∷ 0x00000000_00000fee ∷ []) ∷ []) 0 0
        (Flat 1 (unpacked 1 11 (0x00000000_00000fee ∷ []))) → ⊥ }
    ensures tidy_padding { IsTidy ((0x00000059_00000001 ∷ 0x00000000_000007ee ∷ []) ∷ []) 0 0
        (Flat 1 (unpacked 1 11 (0x00000000_00000fee ∷ []))) }
    ensures forest { IsForest ((0x00000001_00000000 ∷ 9 ∷ 0 ∷ []) ∷ []) (Struct (9 ∷ []) no_trees) }
    ensures no_words_yet { ArenaHolds ([] ∷ []) Null }
{}
