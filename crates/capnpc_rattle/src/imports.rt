//! What generated modules import. A table has a block for each module that has names, with an empty
//! line between them. The first line of a block is the module. Each other line is a part of a generated
//! text that needs a name of the module, a `|`, and this name.

/// What a generated crate has.
pub struct Kind {
    /// What the comment of its root module says that it has.
    pub about: &'static str,
    /// The file of its first definitions.
    pub definitions: &'static str,
    /// The table of what its modules import for clauses.
    pub ghost_imports: &'static str,
    /// The table of what its modules import for code.
    pub imports: &'static str,
}

/// Readers.
pub const READERS: &Kind = &Kind {
    about: "Readers",
    definitions: "Schema",
    ghost_imports: GHOST_IMPORTS,
    imports: IMPORTS,
};

/// Builders.
pub const BUILDERS: &Kind = &Kind {
    about: "Builders",
    definitions: "Sizes",
    ghost_imports: BUILDER_GHOST_IMPORTS,
    imports: BUILDER_IMPORTS,
};

/// Readers of checked messages.
pub const CHECKING: &Kind = &Kind {
    about: "Readers of checked messages",
    definitions: "Table",
    ghost_imports: CHECKING_GHOST_IMPORTS,
    imports: CHECKING_IMPORTS,
};

// Names of clauses of readers.
const GHOST_IMPORTS: &str = "Rattle.std.specs.Prelude
 ≡ |◌≡◌
 ≢ |◌≢◌
 < |◌<◌
 ≤ |◌≤◌
 + |◌+◌
 ↔ |◌↔◌
ℕ)|ℕ
(IsTrue |IsTrue
IfOk |IfOk
IfErr |IfErr
IsOk |IsOk
⊤ }|⊤

Rattle.std.specs.Result
(result_err |result_err

Rattle.std.specs.Int
 cast_unsigned |cast_unsigned
 w8 |w8
 w16 |w16
 w32 |w32
 w64 |w64

Rattle.capnp_format.specs.Bytes
 message (|message

Rattle.capnp_format.specs.Means
 Means |Means

Rattle.capnp_format.specs.Tree
 Tree) |Tree
 Capability |Capability
 Null)|Null

Rattle.capnp_words.specs.Meter
 Affords |Affords

Rattle.capnp_words.specs.declared.wire_pointer.ElementSize.TheVariants
 FitsSize Void |Void
 FitsSize Bit |Bit
 FitsSize Byte |Byte
 FitsSize TwoBytes |TwoBytes
 FitsSize FourBytes |FourBytes
 FitsSize EightBytes |EightBytes
 FitsSize Pointer |Pointer
 FitsSize InlineComposite |InlineComposite

Rattle.capnp_arena_traits.specs.Checks
 Holds |Holds

Rattle.capnp_pointers.specs.Expected
 data_expected|data_expected
(list_expected |list_expected
 struct_expected|struct_expected
 text_expected|text_expected

Rattle.capnp_pointers.specs.Reading
 source_start |source_start
(source_start |source_start
(word_of |word_of

Rattle.capnp_pointers.specs.Source
(levels |levels

Rattle.capnp_readers.specs.Readers
(read_by |read_by

Rattle.capnp_readers.specs.Values
 FitsSize |FitsSize
 HasStructs |HasStructs
 HasValue |HasValue
 IsBytes |IsBytes
 IsStructOrNull |IsStructOrNull
 IsText |IsText
 ShowsListOf |ShowsListOf
 ShowsStructOf |ShowsStructOf
(child_cost |child_cost
 list_length |list_length
(struct_element |struct_element

Rattle.typed_reading.specs.Outcomes
 capability_index|capability_index
 default_outcome |default_outcome
 reading_outcome |reading_outcome
 root_outcome |root_outcome
(root_place |root_place

Rattle.typed_reading.specs.Sections
 ElementHasSections |ElementHasSections
 LeadsToSectionsOf |LeadsToSectionsOf
 ShowsSectionsOf |ShowsSectionsOf
(pointer_field |pointer_field
 pointer_field |pointer_field

Rattle.typed_reading.specs.Values
 IsDefault |IsDefault
(child |child";

// Names of code of readers.
const IMPORTS: &str = "capnp_arena_traits::arena
 A: ReaderArena>|ReaderArena

capnp_readers::readers
 PointerReader<|PointerReader
 StructReader<|StructReader

capnp_words::error
 ErrorKind>|ErrorKind

capnp_words::read_limiter
&mut ReadLimiter|ReadLimiter

std::alloc
 AllocError>|AllocError

typed_reading::error
 NotInSchema>|NotInSchema

typed_reading::list
list::get_|self
DataListReader<|DataListReader
NumbersReader<|NumbersReader
<PointersReader<|PointersReader
 StructsReader<|StructsReader
TextsReader<|TextsReader

typed_reading
 value::|value
(value::|value";

// Names of clauses of builders.
const BUILDER_GHOST_IMPORTS: &str = "Rattle.std.specs.Prelude
 ≡ |◌≡◌
 ≢ |◌≢◌
 < |◌<◌
 ≤ |◌≤◌
 + |◌+◌
 * |◌*◌
 ^ |◌^◌
 ++ |◌++◌
 ∷ |◌∷◌
 ↔ |◌↔◌
[])|[]
ℕ)|ℕ
 List ℕ)|List
(IsTrue |IsTrue
IfOk |IfOk
IfErr |IfErr
IsOk |IsOk
(bit_xor |bit_xor
(cond |cond
length text.now|length
length contents.now|length

Rattle.std.specs.Int
 cast_unsigned |cast_unsigned
(cast_unsigned |cast_unsigned
 w8 |w8
 w16 |w16
 w32 |w32
 w64 |w64

Rattle.capnp_format.specs.Numbers
(words_for |words_for

Rattle.capnp_format.specs.Path
 struct_at |struct_at
(tree_at |tree_at
 tree_at |tree_at

Rattle.capnp_format.specs.Segments
 Grows |Grows
 IsPlace |IsPlace

Rattle.capnp_format.specs.Tree
(Capability |Capability
 Elements)|Elements
(Flat |Flat
 Null)|Null
 Null |Null
(Struct |Struct
 Struct |Struct
 Structs |Structs
 Tree)|Tree
 Trees)|Trees
 element_count |element_count

Rattle.capnp_words.specs.Sizes
(sized |sized

Rattle.capnp_words.specs.declared.wire_pointer.ElementSize.TheVariants
.words Void) }|Void
 HasElements Void |Void
.words Bit) }|Bit
 HasElements Bit |Bit
.words Byte) }|Byte
 HasElements Byte |Byte
.words TwoBytes) }|TwoBytes
 HasElements TwoBytes |TwoBytes
.words FourBytes) }|FourBytes
 HasElements FourBytes |FourBytes
.words EightBytes) }|EightBytes
 HasElements EightBytes |EightBytes
.words Pointer) }|Pointer
 HasElements Pointer |Pointer

Rattle.capnp_allocation.specs.Made
(list_words |list_words
(nulls |nulls
(words_of_zero |words_of_zero
(zero_elements |zero_elements
(zero_list |zero_list
(zero_struct |zero_struct
(zero_structs |zero_structs

Rattle.capnp_allocation.specs.Makes
 Allocates |Allocates
 MakesObject |MakesObject
(call_at |call_at

Rattle.capnp_allocation.specs.Stored
(IsStored |IsStored
 IsStored |IsStored

Rattle.capnp_in_place.specs.Anew
 OnlyWrites |OnlyWrites

Rattle.capnp_in_place.specs.Rooms
 OpeningFits |OpeningFits
 WiderListFits|WiderListFits

Rattle.capnp_pointers.specs.Wanted
 plain |plain

Rattle.capnp_readers.specs.Readers
(read_by |read_by

Rattle.capnp_readers.specs.Values
 HasValue |HasValue
 ShowsListOf |ShowsListOf
 ShowsStructOf |ShowsStructOf
(struct_children |struct_children
(struct_data |struct_data

Rattle.capnp_copies.specs.Changes
(copy_call |copy_call

Rattle.capnp_copies.specs.Originals
(value_original |value_original

Rattle.capnp_copies.specs.Rooms
 CanBeCopied|CanBeCopied

Rattle.capnp_builders.specs.ListValues
(list_read |list_read

Rattle.capnp_builders.specs.StructValues
(struct_read |struct_read

Rattle.capnp_builders.specs.Held
 HasList |HasList
 HasStruct |HasStruct
 Holder)|Holder
 MakesChild |MakesChild
 ReplacesChild |ReplacesChild
 ReplacesField|ReplacesField
 SetsChild |SetsChild
 SetsField|SetsField
(call_in |call_in
(element_of |element_of
(pointer_to |pointer_to

Rattle.capnp_builders.specs.Kept
(LeavesCleared|LeavesCleared
 PutsCopy|PutsCopy

Rattle.capnp_builders.specs.Places
 element_place |element_place
(element_place |element_place
(field |field

Rattle.typed_building.specs.Copied
(IsNotCopied|IsNotCopied
 ReadsToCopy|ReadsToCopy
(copied_list |copied_list
(copied_struct |copied_struct

Rattle.typed_building.specs.Members
 MakesMember |MakesMember
 ReplacesChildMember |ReplacesChildMember
 ReplacesMember|ReplacesMember
 SetsChildMember |SetsChildMember
 SetsMember|SetsMember
(tagged |tagged

Rattle.typed_building.specs.Opened
 HasElements |HasElements
 OpensChild |OpensChild
(opened_list |opened_list
 opened_list |opened_list
(opened_struct |opened_struct

Rattle.typed_building.specs.Signed
(int8_bits |int8_bits
(int16_bits |int16_bits
(int32_bits |int32_bits
(int64_bits |int64_bits

Rattle.typed_building.specs.Slots
 BeginsGroup|BeginsGroup
 ReplacesGroup|ReplacesGroup
 ReplacesSlots|ReplacesSlots
 ZeroesSlots|ZeroesSlots

Rattle.typed_building.specs.There
(HasListPlace |HasListPlace
 HasStructPlace |HasStructPlace
 HasStructsPlace |HasStructsPlace
(call_on |call_on

Rattle.typed_building.specs.declared.slots.Slot
Slot.|Slot

Rattle.typed_reading.specs.Values
(child |child";

// Names of code of builders.
const BUILDER_IMPORTS: &str = "capnp_arena_traits::arena
<A: BuilderArena|BuilderArena
 B: ReaderArena>|ReaderArena

capnp_readers::readers
 ListPlace|ListPlace
<ListPlace|ListPlace
 PointerReader<|PointerReader
: StructPlace,|StructPlace

capnp_words::error
 ErrorKind>|ErrorKind

capnp_words::read_limiter
&mut ReadLimiter|ReadLimiter

capnp_words::wire_pointer
, ElementSize::|ElementSize
            ElementSize::|ElementSize
: StructSize =|StructSize

typed_building::places
impl FromListPlace |FromListPlace
impl FromStructPlace |FromStructPlace

typed_building::slots
[Slot::|Slot
            Slot::|Slot

typed_building::tag
 = UnionTag {|UnionTag

typed_building
 copying::set_|copying
 groups::zero|groups
 list::element(|list
 opening::get_|opening
 places::|places
reading::get_|reading
 reading::has|reading
 value::|value

typed_reading::error
 NotInSchema>|NotInSchema

typed_reading::list
&DataListReader<|DataListReader
&NumbersReader<|NumbersReader
&PointersReader<|PointersReader
&TextsReader<|TextsReader";

// Names of clauses of readers of checked messages.
const CHECKING_GHOST_IMPORTS: &str = "Rattle.std.specs.Prelude
 ≡ |◌≡◌
 ≢ |◌≢◌
 ⊎ |◌⊎◌
 < |◌<◌
 ≤ |◌≤◌
 + |◌+◌
 ↔ |◌↔◌
ℕ)|ℕ
(IsTrue |IsTrue
IfOk |IfOk
IfErr |IfErr
IfSome |IfSome
IsOk |IsOk
(IsSome |IsSome
OnOk |OnOk
⊤ }|⊤

Rattle.std.specs.Int
 cast_unsigned |cast_unsigned
 w8 |w8
 w16 |w16
 w32 |w32
 w64 |w64

Rattle.capnp_format.specs.Bytes
 message (|message

Rattle.capnp_format.specs.Means
 Means |Means

Rattle.capnp_format.specs.Tree
 Tree) |Tree
 Capability |Capability
 Null)|Null

Rattle.capnp_words.specs.Meter
 Affords |Affords
(charged |charged

Rattle.capnp_arena_traits.specs.Checks
 Holds |Holds
(Holds |Holds

Rattle.capnp_pointers.specs.Reading
(word_of |word_of

Rattle.capnp_pointers.specs.Source
(levels |levels

Rattle.capnp_pointers.specs.Spending
(Paid |Paid
(pointers_in |pointers_in

Rattle.capnp_readers.specs.Readers
(read_by |read_by
 read_by |read_by

Rattle.capnp_readers.specs.Values
 HasStructs |HasStructs
 HasValue |HasValue
 ShowsListOf |ShowsListOf
 ShowsStructOf |ShowsStructOf
 list_length |list_length
(struct_element |struct_element

Rattle.typed_reading.specs.Outcomes
 capability_index|capability_index

Rattle.typed_reading.specs.Sections
 ShowsSectionsOf |ShowsSectionsOf
(pointer_field |pointer_field
 pointer_field |pointer_field

Rattle.typed_reading.specs.Values
(child |child

Rattle.typed_conforming.specs.Blame
IsTrueFrom |IsTrueFrom
 arena_root |arena_root
(first_visit |first_visit

Rattle.typed_conforming.specs.Conforms
 Conforms |Conforms

Rattle.typed_conforming.specs.Walk
 misfit_at |misfit_at
(rowless_pointer |rowless_pointer

Rattle.typed_conforming.specs.declared.schema.Kind.TheVariants
(Struct |Struct";

// Names of code of readers of checked messages.
const CHECKING_IMPORTS: &str = "capnp_arena_traits::arena
 A: ReaderArena>|ReaderArena

capnp_readers::readers
 PointerReader<|PointerReader

capnp_words::error
 ErrorKind>|ErrorKind

capnp_words::read_limiter
&mut ReadLimiter|ReadLimiter

std::alloc
 AllocError>|AllocError

typed_checking::rows
 RowStruct<|RowStruct
 RowStructs<|RowStructs

typed_checking::schema
[Member(|Member
impl Schema|Schema

typed_conforming::schema
 Misfit>|Misfit

typed_reading::error
 NotInSchema>|NotInSchema

typed_reading::list
 NumbersReader<|NumbersReader
<NumbersReader<|NumbersReader

typed_reading
 value::|value
(value::|value
!value::|value";
