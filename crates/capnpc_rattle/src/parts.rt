//! The parts of the calls of generated builders: comments, clauses and bodies.

/// Returns the template of the part with this name; nothing if there is none.
pub fn builder_template(name: &str) -> &'static str {
    for part in PARTS.split('@') {
        if let Some((head, text)) = part.split_once('\n')
            && let Some((known, _)) = head.split_once(':')
            && known == name
        {
            return text;
        }
    }
    ""
}

// The parts. Each begins with a line that has an `@`, its name, and what it is. A word between two `~`
// stands for what `push_filled` puts there.
const PARTS: &str = "@there: What each call that writes needs and that has no other precondition.
        requires { HasStructPlace (A.view arena.old).words ~owner~_size self.place }
@there_and_few: What each call that writes needs and that has another precondition: `few`.
        requires there { HasStructPlace (A.view arena.old).words ~owner~_size self.place }
        requires few { ~few~ }
@here: What each call that reads needs.
        requires { HasStructPlace (A.view arena.now).words ~owner~_size self.place }
@grows: What each call that writes ensures.
        ensures grows { Grows (A.view arena.old).words (A.view arena.new).words }
@field: What the call of a number, a bit or an enum ensures.
        ensures sets { Sets~kind~
            (call_in self.place (A.view arena.old).words (A.view arena.new).words)
            ~tagged~(field ~bit~ ~bits~ ~stored~) }
        ensures replaces { Replaces~kind~
            (call_in self.place (A.view arena.old).words (A.view arena.new).words)
            ~tagged~(field ~bit~ ~bits~ ~stored~) }
@tagged: What a call that writes the tag of a union ensures.
        ensures sets { SetsField
            (call_in self.place (A.view arena.old).words (A.view arena.new).words)
            (field ~tag_bit~ 16 ~tag~) }
        ensures replaces { ReplacesField
            (call_in self.place (A.view arena.old).words (A.view arena.new).words)
            (field ~tag_bit~ 16 ~tag~) }
@writes: What a call that makes no object ensures of the memory of the message.
        ensures memory { OnlyWrites (A.view arena.old) (A.view arena.new) }
@object: What the call of an object ensures, if it isn't a member of a union.
        ensures object { MakesObject result
            (call_on self.place ~index~ (A.view arena.old) (A.view arena.new))
            (~tree~) ~all_words~ }
@allocates: What the call of an object ensures of the memory of the message, if it is a member of a union.
        ensures memory { Allocates result
            (call_on self.place ~index~ (A.view arena.old) (A.view arena.new))
            ~all_words~ }
@child: What the call of an object ensures of the struct.
        ensures child { MakesChild result
            (call_in self.place (A.view arena.old).words (A.view arena.new).words) ~index~
            (~tree~) }
@member: What the call of an object ensures of the struct, if it is a member of a union.
        ensures member { MakesMember result
            (call_in self.place (A.view arena.old).words (A.view arena.new).words)
            ~tagged~~index~ (~tree~) }
@capability: What the call of a capability ensures of the struct.
        ensures sets { SetsChild~end_of_kind~ (λ after. after)
            (call_in self.place (A.view arena.old).words (A.view arena.new).words)
            ~tagged~~index~ (Capability capability) }
        ensures replaces { ReplacesChild~end_of_kind~ (λ after. after)
            (call_in self.place (A.view arena.old).words (A.view arena.new).words)
            ~tagged~~index~ (Capability capability) }
@copy_about: The comment of the call that copies a value.
    /// Sets ~name~ to a copy of `from`.
    ///
    /// Charges `lim` what reading what its pointers lead to costs.
@copy_fits: When the call that copies a value succeeds.
        ensures fits { CanBeCopied
            (~original~) plain lim.old
            (A.view arena.old) self.place.segment
            → IsOk result }
@copy: What the call that copies a value ensures of the struct.
        ensures child { (t : Tree) → ~shows~ t
            → MakesChild result
            (call_in self.place (A.view arena.old).words (A.view arena.new).words) ~index~
            ~copy~ }
        ensures copied { IfOk result (λ _. PutsCopy
            (~original~)
            (copy_call plain
            (call_on self.place ~index~ (A.view arena.old) (A.view arena.new))
            lim.old lim.new)) }
        ensures refused { IfErr result (LeavesCleared
            (~original~)
            (copy_call plain
            (call_on self.place ~index~ (A.view arena.old) (A.view arena.new))
            lim.old lim.new)) }
@copy_member: The same, if the field is a member of a union.
        ensures member { (t : Tree) → ~shows~ t
            → MakesMember result
            (call_in self.place (A.view arena.old).words (A.view arena.new).words)
            ~tagged~~index~
            ~copy~ }
        ensures copied { IfOk result (λ _. ReadsToCopy
            (~original~)
            (copy_call plain
            (call_on self.place ~index~ (A.view arena.old) (A.view arena.new))
            lim.old lim.new)) }
        ensures refused { IfErr result (IsNotCopied
            (~original~)
            (copy_call plain
            (call_on self.place ~index~ (A.view arena.old) (A.view arena.new))
            lim.old lim.new)) }
@struct_there: What the call of a struct ensures of the place that it returns.
        ensures there { IfOk result (λ b.
            HasStructPlace (A.view arena.new).words ~module~_size b.place) }
@struct_made: What the call of a struct ensures of the struct that is made.
        ensures made { (x : Holder) (ws : List ℕ) (ts : Trees)
            → HasStruct (A.view arena.old).words x self.place ws ts
            → IfOk result (λ b. HasStruct (A.view arena.new).words
            (pointer_to self.place.segment (self.place.pointers_at + ~index~)) b.place
            (words_of_zero ~data~) (nulls ~pointers~)) }
@structs_there: What the call of a list of structs ensures of the place that it returns.
        ensures there { IfOk result (λ list.
            HasStructsPlace (A.view arena.new).words ~module~_size list.place) }
        ensures count { IfOk result (λ list. list.place.count ≡ count) }
@structs_made: What the call of a list of structs ensures of the structs that are made.
        ensures made { (x : Holder) (ws : List ℕ) (ts : Trees) (i : ℕ) → i < count
            → HasStruct (A.view arena.old).words x self.place ws ts
            → IfOk result (λ list. HasStruct (A.view arena.new).words
            (element_of self.place.segment (self.place.pointers_at + ~index~)
            ~module~_size (zero_elements ~data~ ~pointers~ count) i)
            (element_place list.place.size list.place i)
            (words_of_zero ~data~) (nulls ~pointers~)) }
@list_there: What the call of another list ensures of the place that it returns.
        ensures there { IfOk result (HasListPlace (A.view arena.new).words ~size~) }
        ensures count { IfOk result (λ list. list.count ≡ count) }
@list_made: What the call of another list ensures of the list that is made.
        ensures made { (x : Holder) (ws : List ℕ) (ts : Trees)
            → HasStruct (A.view arena.old).words x self.place ws ts
            → IfOk result (λ list. HasList (A.view arena.new).words self.place.segment
            (self.place.pointers_at + ~index~) list (~tree~)) }
@open_struct_about: The comment of the call that opens a struct.
    /// Returns ~name~, for writing.
    ///
    /// Makes a struct that is too small larger, and a new one in place of null.
@open_structs_about: The comment of the call that opens a list of structs.
    /// Returns ~name~, for writing.
    ///
    /// Makes structs that are too small larger. Null is a list without elements.
@open_list_about: The comment of the call that returns another list.
    /// Returns ~name~, for writing.
    ///
    /// Null is a list without elements.
@open_struct: What the call ensures that opens a struct.
        ensures fits { OpeningFits (A.view arena.old) self.place.segment
            (self.place.pointers_at + ~index~) ~module~_size
            → IsOk result }
        ensures child { OpensChild result
            (call_in self.place (A.view arena.old).words (A.view arena.new).words) ~index~
            (opened_struct ~module~_size) }
        ensures there { (x : Holder) (ws : List ℕ) (ts : Trees)
            → HasStruct (A.view arena.old).words x self.place ws ts
            → IfOk result (λ b.
            HasStructPlace (A.view arena.new).words ~module~_size b.place) }
        ensures made { (x : Holder) (ws : List ℕ) (ts : Trees)
            → HasStruct (A.view arena.old).words x self.place ws ts
            → IfOk result (λ b. HasStruct (A.view arena.new).words
            (pointer_to self.place.segment (self.place.pointers_at + ~index~)) b.place
            (struct_data (opened_struct ~module~_size (tree_at ts ~index~)))
            (struct_children (opened_struct ~module~_size (tree_at ts ~index~)))) }
        ensures grows { (x : Holder) (ws : List ℕ) (ts : Trees)
            → HasStruct (A.view arena.old).words x self.place ws ts
            → Grows (A.view arena.old).words (A.view arena.new).words }
@open_structs: What the call ensures that opens a list of structs.
        ensures fits { WiderListFits
            (IsStored (A.view arena.old).words self.place.segment (self.place.pointers_at + ~index~))
            (A.view arena.old) self.place.segment (self.place.pointers_at + ~index~)
            ~module~_size
            → IsOk result }
        ensures child { OpensChild result
            (call_in self.place (A.view arena.old).words (A.view arena.new).words) ~index~
            (opened_list ~module~_size) }
        ensures there { (x : Holder) (ws : List ℕ) (ts : Trees)
            → HasStruct (A.view arena.old).words x self.place ws ts
            → IfOk result (λ list.
            HasStructsPlace (A.view arena.new).words ~module~_size list.place) }
        ensures made { (x : Holder) (ws : List ℕ) (ts : Trees) (d q : ℕ) (es : Elements) (i : ℕ)
            (vs : List ℕ) (us : Trees)
            → HasStruct (A.view arena.old).words x self.place ws ts
            → opened_list ~module~_size (tree_at ts ~index~)
            ≡ Structs d q es
            → i < element_count es → struct_at es i ≡ Struct vs us
            → IfOk result (λ list. HasStruct (A.view arena.new).words
            (element_of self.place.segment (self.place.pointers_at + ~index~) (sized d q) es i)
            (element_place list.place.size list.place i) vs us) }
        ensures grows { (x : Holder) (ws : List ℕ) (ts : Trees)
            → HasStruct (A.view arena.old).words x self.place ws ts
            → Grows (A.view arena.old).words (A.view arena.new).words }
@open_list: What the call ensures that returns another list.
        ensures there { (x : Holder) (ws : List ℕ) (ts : Trees)
            → HasStruct (A.view arena.now).words x self.place ws ts
            → HasElements ~size~ (tree_at ts ~index~)
            → IfOk result (HasListPlace (A.view arena.now).words ~size~) }
        ensures made { (x : Holder) (ws : List ℕ) (ts : Trees)
            → HasStruct (A.view arena.now).words x self.place ws ts
            → HasElements ~size~ (tree_at ts ~index~)
            → IfOk result (λ list. HasList (A.view arena.now).words self.place.segment
            (self.place.pointers_at + ~index~) list (tree_at ts ~index~)) }
        ensures empty { (x : Holder) (ws : List ℕ) (ts : Trees)
            → HasStruct (A.view arena.now).words x self.place ws ts
            → tree_at ts ~index~ ≡ Null → IfOk result (λ list. list.count ≡ 0) }
    {
        opening::get_list(arena, self.place, ~index~, ElementSize::~size~)
    }
@group: What the call of a group ensures.
        ensures { result.place ≡ self.place }
    {
        ~path~Builder { place: self.place }
    }
@group_about: The comment of the call that makes the fields of a group zero.
    /// Makes the fields of ~name~ zero or null, and returns its builder.
@group_end: How that call returns the builder.
        ~path~Builder { place: self.place }
    }
@zeroes: What the call ensures that makes the fields of a group zero.
        ensures ~zeroes~
            (call_in self.place (A.view arena.old).words (A.view arena.new).words)
            ~tagged~(~slots~) }
        ensures replaces { ~replaces~
            (call_in self.place (A.view arena.old).words (A.view arena.new).words)
            ~tagged~(~slots~) }
        ensures memory { OnlyWrites (A.view arena.old) (A.view arena.new) }
        ensures place { result.place ≡ self.place }
@tag: The tag of a member of a union.
        let tag = UnionTag {
            offset: ~tag_offset~,
            number: ~tag~,
        };
@member_of_call: What the prover needs for a number that another call returns, in a member of a union.
    #[tactic(auto, using(typed_building::proofs::Sets::sets_member_as, typed_building::proofs::Sets::replaces_member_as))]
@number_of_call: What the prover needs for a number that another call returns.
    #[tactic(auto, using(typed_building::proofs::Sets::sets_as, typed_building::proofs::Sets::replaces_as))]
@get_unsigned: What the call ensures that returns a number without a sign, or the bits of a float.
        ensures { ~reads~result ≡ ~spec~ (Struct ws ts) }
    {
        ~read~
    }
@get_signed: What the call ensures that returns a number with a sign.
        ensures { ~reads~cast_unsigned w~bits~ result ≡ ~spec~ (Struct ws ts) }
    {
        ~read~
    }
@get_bool: What the call ensures that returns a bit.
        ensures { ~reads~(IsTrue result ↔ (~spec~ (Struct ws ts) ~sense~ 1)) }
    {
        ~read~
    }
@get_enum: What the call ensures that returns an enum, or which member of a union is set.
        ensures value { ~reads~IfOk result (λ e. ~module~_number e
            ≡ ~spec~ (Struct ws ts)) }
        ensures unknown { ~reads~IfErr result (λ e. (e.0 ≡ ~spec~ (Struct ws ts))
            × (~count~ ≤ ~spec~ (Struct ws ts))) }
    {
        let number = ~read~;
        ~path~of_number(number)
    }
@has: What the call ensures that returns whether a pointer is set.
        ensures { ~reads~(IsTrue result ↔ (child ~index~ (Struct ws ts) ≢ Null)) }
    {
        reading::has(arena, self.place, ~index~)
    }
@returns: The comment of a call that returns a field.
    /// Returns ~name~.
@returns_member: The comment of the call that returns which member of a union is set.
    /// Returns which member is set.
@returns_member_number: The comment of that call if the union has too many members for an enum.
    /// Returns the number of the member that is set. There are too many for an enum.
@has_about: The comment of the call that returns whether a pointer is set.
    /// Whether the pointer of ~name~ is not null.
@group_field: The comment of the call that returns the builder of a group.
    /// ~name~ :group
@end: How another body ends.
    }
";
