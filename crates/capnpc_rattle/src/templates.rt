//! The text of generated readers. A word between two `~` stands for what `push_filled` puts there.

use capnpc_schema::text::Lines;

/// What each struct and group has.
pub const READER: &str = "/// ~full~.
pub struct Reader<'a, A: ReaderArena> {
    /// The struct.
    pub reader: StructReader<'a, A>,
}

impl<'a, A: ReaderArena> Clone for Reader<'a, A> {
    ghost is_clone = { λ x y. y ≡ x };

    ghost is_infallible = { λ _. ⊤ };

    fn clone(&self) -> Result<Self, AllocError> {
        Ok(*self)
    }
}

impl<'a, A: ReaderArena> Copy for Reader<'a, A> {}
";

/// The root of a message, which can be a struct, and no group.
pub const ROOT: &str = "    /// Returns the root of a message.
    pub fn root(arena: &'a A, lim: &mut ReadLimiter) -> Result<Self, ErrorKind>
        ensures value { (t : Tree) (c : ℕ)
            → Means (message (A.segments arena.now)) (levels (A.nesting arena.now)) 0 0 t c
            → IfOk result (λ r. ShowsStructOf A.ReaderArena r.reader t) }
        ensures answered { let S = message (A.segments arena.now) in (t : Tree) (c : ℕ)
            → Holds S 0 0 1 → IsStructOrNull t → Means S (levels (A.nesting arena.now)) 0 0 t c
            → Affords (A.charging arena.now) lim.old (1 + c) → IsOk result }
        ensures left { (t : Tree) (c : ℕ)
            → Means (message (A.segments arena.now)) (levels (A.nesting arena.now)) 0 0 t c
            → Affords (A.charging arena.now) lim.old (1 + c)
            → IfOk result (λ r. (shows : ShowsStructOf A.ReaderArena r.reader t) (i : ℕ)
            → Affords (source_start A.ReaderArena r.reader.source).charging lim.new
            (child_cost A.ReaderArena shows i)) }
        ensures exactly { root_outcome A.ReaderArena arena.entry lim.old
            ≡ (result_err result, lim.new) }
        ensures sections { (t : Tree)
            → LeadsToSectionsOf (root_place A.ReaderArena arena.entry) t
            → IfOk result (λ r. ShowsSectionsOf A.ReaderArena r.reader t) }
    {
        match value::root(arena, lim) {
            Ok(reader) => Ok(Reader { reader }),
            Err(k) => Err(k),
        }
    }
";

/// A list of structs.
pub const READERS: &str = "
/// A list of ~full~.
pub struct Readers<'a, A: ReaderArena> {
    /// The list.
    pub list: StructsReader<'a, A>,
}

impl<'a, A: ReaderArena> Clone for Readers<'a, A> {
    ghost is_clone = { λ x y. y ≡ x };

    ghost is_infallible = { λ _. ⊤ };

    fn clone(&self) -> Result<Self, AllocError> {
        Ok(*self)
    }
}

impl<'a, A: ReaderArena> Copy for Readers<'a, A> {}

impl<'a, A: ReaderArena> Readers<'a, A> {
    /// The number of elements.
    pub fn len(&self) -> u32
        ensures count { result ≡ self.now.list.reader.count }
        ensures value { (t : Tree) → ShowsListOf A.ReaderArena self.now.list.reader t
            → result ≡ list_length t }
    {
        self.list.len()
    }

    /// Returns element `index`. Precondition: `index` is below the number of elements.
    pub fn get(&self, index: u32) -> Reader<'a, A>
        requires { index < self.now.list.reader.count }
        ensures value { (t : Tree) → ShowsListOf A.ReaderArena self.now.list.reader t
            → HasStructs t → ShowsStructOf A.ReaderArena result.reader (struct_element t index) }
        ensures sections { (t : Tree)
            → ElementHasSections A.ReaderArena self.now.list.reader index t
            → ShowsSectionsOf A.ReaderArena result.reader t }
        ensures source { result.reader.source ≡ self.now.list.reader.source }
    {
        Reader {
            reader: self.list.get(index),
        }
    }
}
";

/// A number without a sign, or the bits of a float.
pub const UNSIGNED: &str =
    "        ensures value { (t : Tree) → ShowsStructOf A.ReaderArena self.now.~in~reader t
            → result ≡ ~spec~ t }
        ensures sections { (t : Tree) → ShowsSectionsOf A.ReaderArena self.now.~in~reader t
            → result ≡ ~spec~ t }
    {
        ~read~
    }
";

/// A number with a sign.
pub const SIGNED: &str =
    "        ensures value { (t : Tree) → ShowsStructOf A.ReaderArena self.now.~in~reader t
            → cast_unsigned w~bits~ result ≡ ~spec~ t }
        ensures sections { (t : Tree) → ShowsSectionsOf A.ReaderArena self.now.~in~reader t
            → cast_unsigned w~bits~ result ≡ ~spec~ t }
    {
        ~read~
    }
";

/// What each call puts.
pub const ANY: Lines = "about=~full~.~name~
call=get_~snake~
params=&self";

/// What a group puts.
pub const GROUP_PARTS: Lines = "gives=~path~Reader<'a, A>";

/// What the call puts that says which member of a union is set.
pub const WHICH: Lines = "about=Which member of ~full~ is set.
type=ℕ
value=bits_in ~bit~ 16 t
read=value::get_number(&self.~in~reader, ~index~)
call=which
gives=Result<~path~Which, NotInSchema>";

/// What that call puts if the union has too many members for an enum.
pub const WHICH_NUMBER: Lines = "gives=u16";

/// The comments of these calls.
pub const WHICH_ABOUT: &str = "    /// Returns which member is set.
";

pub const WHICH_NUMBER_ABOUT: &str =
    "    /// Returns the number of the member that is set. There are too many for an enum.
";

/// What the call puts that says whether a pointer is set.
pub const HAS_PARTS: Lines = "call=has_~snake~
params=&self
gives=bool";

/// The comment of this call.
pub const HAS_ABOUT: &str = "
    /// Whether the pointer of ~name~ is not null.
";

/// A bit.
pub const BOOL: &str =
    "        ensures value { (t : Tree) → ShowsStructOf A.ReaderArena self.now.~in~reader t
            → (IsTrue result ↔ (~spec~ t ~sense~ 1)) }
        ensures sections { (t : Tree) → ShowsSectionsOf A.ReaderArena self.now.~in~reader t
            → (IsTrue result ↔ (~spec~ t ~sense~ 1)) }
    {
        ~read~
    }
";

/// An enum, or which member of a union is set.
pub const ENUM: &str =
    "        ensures value { (t : Tree) → ShowsStructOf A.ReaderArena self.now.~in~reader t
            → IfOk result (λ e. ~module~_number e
            ≡ ~spec~ t) }
        ensures unknown { (t : Tree) → ShowsStructOf A.ReaderArena self.now.~in~reader t
            → IfErr result (λ e. (e.0 ≡ ~spec~ t)
            × (~count~ ≤ ~spec~ t)) }
        ensures sections { (t : Tree) → ShowsSectionsOf A.ReaderArena self.now.~in~reader t
            → IfOk result (λ e. ~module~_number e
            ≡ ~spec~ t) }
        ensures unknown_sections { (t : Tree)
            → ShowsSectionsOf A.ReaderArena self.now.~in~reader t
            → IfErr result (λ e. (e.0 ≡ ~spec~ t)
            × (~count~ ≤ ~spec~ t)) }
    {
        ~path~of_number(~read~)
    }
";

/// A group.
pub const GROUP: &str = "        ensures { result.reader ≡ self.now.reader }
    {
        ~path~Reader {
            reader: self.reader,
        }
    }
";

/// A text.
pub const TEXT: &str =
    "        ensures value { (t : Tree) → ShowsStructOf A.ReaderArena self.now.~in~reader t
            → IfOk result (λ text. text.now ≡ ~spec~ t) }
        ensures answered { let start = source_start A.ReaderArena self.now.~in~reader.source in
            (t : Tree) (shows : ShowsStructOf A.ReaderArena self.now.~in~reader t)
            → IsText (child ~index~ t)
            → Affords start.charging lim.old (child_cost A.ReaderArena shows ~index~)
            → IsOk result }
        ensures exactly { reading_outcome text_expected
            (pointer_field A.ReaderArena self.now.~in~reader ~index~) lim.old
            ≡ (result_err result, lim.new) }
    {
        ~read~
    }
";

/// Data.
pub const DATA: &str =
    "        ensures value { (t : Tree) → ShowsStructOf A.ReaderArena self.now.~in~reader t
            → IfOk result (λ bytes. bytes.now ≡ ~spec~ t) }
        ensures answered { let start = source_start A.ReaderArena self.now.~in~reader.source in
            (t : Tree) (shows : ShowsStructOf A.ReaderArena self.now.~in~reader t)
            → IsBytes (child ~index~ t)
            → Affords start.charging lim.old (child_cost A.ReaderArena shows ~index~)
            → IsOk result }
        ensures exactly { reading_outcome data_expected
            (pointer_field A.ReaderArena self.now.~in~reader ~index~) lim.old
            ≡ (result_err result, lim.new) }
    {
        ~read~
    }
";

/// A struct.
pub const STRUCT: &str =
    "        ensures value { (t : Tree) → ShowsStructOf A.ReaderArena self.now.~in~reader t
            → IfOk result (λ r.
            ShowsStructOf A.ReaderArena r.reader (~spec~ t)) }
        ensures answered { let start = source_start A.ReaderArena self.now.~in~reader.source in
            (t : Tree) (shows : ShowsStructOf A.ReaderArena self.now.~in~reader t)
            → IsStructOrNull (~spec~ t)
            → Affords start.charging lim.old (child_cost A.ReaderArena shows ~index~)
            → IsOk result }
        ensures left { let start = source_start A.ReaderArena self.now.~in~reader.source in
            (t : Tree) (shows : ShowsStructOf A.ReaderArena self.now.~in~reader t)
            → Affords start.charging lim.old (child_cost A.ReaderArena shows ~index~)
            → IfOk result (λ r.
            (inner : ShowsStructOf A.ReaderArena r.reader (~spec~ t)) (i : ℕ)
            → Affords (source_start A.ReaderArena r.reader.source).charging lim.new
            (child_cost A.ReaderArena inner i)) }
        ensures exactly { reading_outcome struct_expected
            (pointer_field A.ReaderArena self.now.~in~reader ~index~) lim.old
            ≡ (result_err result, lim.new) }
        ensures sections { (t : Tree)
            → LeadsToSectionsOf (pointer_field A.ReaderArena self.now.~in~reader ~index~) t
            → IfOk result (λ r. ShowsSectionsOf A.ReaderArena r.reader t) }
    {
        match value::get_struct(&self.~in~reader, ~index~, lim) {
            Ok(reader) => Ok(~path~Reader { reader }),
            Err(k) => Err(k),
        }
    }
";

/// A struct with a default value.
pub const STRUCT_OR: &str =
    "        ensures value { (t : Tree) → ShowsStructOf A.ReaderArena self.now.~in~reader t
            → ~spec~ t ≢ Null → IfOk result (λ r.
            ShowsStructOf A.ReaderArena r.reader (~spec~ t)) }
        ensures default { (t d : Tree) → ShowsStructOf A.ReaderArena self.now.~in~reader t
            → ~spec~ t ≡ Null
            → IsDefault ~default~ d
            → IfOk result (λ r. ShowsStructOf A.ReaderArena r.reader d) }
        ensures answered { let start = source_start A.ReaderArena self.now.~in~reader.source in
            (t : Tree) (shows : ShowsStructOf A.ReaderArena self.now.~in~reader t)
            → ~spec~ t ≢ Null
            → IsStructOrNull (~spec~ t)
            → Affords start.charging lim.old (child_cost A.ReaderArena shows ~index~)
            → IsOk result }
        ensures default_answered { (t d : Tree) → ShowsStructOf A.ReaderArena self.now.~in~reader t
            → ~spec~ t ≡ Null
            → IsDefault ~default~ d
            → IsStructOrNull d → IsOk result }
        ensures exactly { default_outcome struct_expected ~default~
            (pointer_field A.ReaderArena self.now.~in~reader ~index~) lim.old
            ≡ (result_err result, lim.new) }
    {
        let default =~literal~;
        match value::get_struct_or(&self.~in~reader, ~index~, default, lim) {
            Ok(reader) => Ok(~path~Reader { reader }),
            Err(k) => Err(k),
        }
    }
";

/// A list with a default value.
pub const LIST_OR: &str =
    "        ensures value { (t : Tree) → ShowsStructOf A.ReaderArena self.now.~in~reader t
            → ~spec~ t ≢ Null → IfOk result (λ r.
            ShowsListOf A.ReaderArena ~list~ (~spec~ t)) }
        ensures default { (t d : Tree) → ShowsStructOf A.ReaderArena self.now.~in~reader t
            → ~spec~ t ≡ Null
            → IsDefault ~default~ d
            → IfOk result (λ r. ShowsListOf A.ReaderArena ~list~ d) }
        ensures answered { let start = source_start A.ReaderArena self.now.~in~reader.source in
            (t : Tree) (shows : ShowsStructOf A.ReaderArena self.now.~in~reader t)
            → ~spec~ t ≢ Null
            → FitsSize ~size~ (~spec~ t)
            → Affords start.charging lim.old (child_cost A.ReaderArena shows ~index~)
            → IsOk result }
        ensures default_answered { (t d : Tree) → ShowsStructOf A.ReaderArena self.now.~in~reader t
            → ~spec~ t ≡ Null
            → IsDefault ~default~ d
            → FitsSize ~size~ d → IsOk result }
        ensures exactly { default_outcome (list_expected ~size~) ~default~
            (pointer_field A.ReaderArena self.now.~in~reader ~index~) lim.old
            ≡ (result_err result, lim.new) }
    {
        let default =~literal~;
        ~read~
    }
";

/// A list.
pub const LIST: &str =
    "        ensures value { (t : Tree) → ShowsStructOf A.ReaderArena self.now.~in~reader t
            → IfOk result (λ r.
            ShowsListOf A.ReaderArena ~list~ (~spec~ t)) }
        ensures answered { let start = source_start A.ReaderArena self.now.~in~reader.source in
            (t : Tree) (shows : ShowsStructOf A.ReaderArena self.now.~in~reader t)
            → FitsSize ~size~ (~spec~ t)
            → Affords start.charging lim.old (child_cost A.ReaderArena shows ~index~)
            → IsOk result }
        ensures left { let start = source_start A.ReaderArena self.now.~in~reader.source in
            (t : Tree) (shows : ShowsStructOf A.ReaderArena self.now.~in~reader t)
            → Affords start.charging lim.old (child_cost A.ReaderArena shows ~index~)
            → IfOk result (λ r.
            (inner : ShowsListOf A.ReaderArena ~list~ (~spec~ t))
            → Affords (source_start A.ReaderArena ~list~.source).charging lim.new
            inner.cost) }
        ensures exactly { reading_outcome (list_expected ~size~)
            (pointer_field A.ReaderArena self.now.~in~reader ~index~) lim.old
            ≡ (result_err result, lim.new) }
    {
        ~read~
    }
";

/// A pointer that can lead to anything.
pub const POINTER: &str =
    "        ensures value { (t : Tree) → ShowsStructOf A.ReaderArena self.now.~in~reader t
            → HasValue (read_by A.ReaderArena result) (~spec~ t) }
        ensures place { read_by A.ReaderArena result
            ≡ pointer_field A.ReaderArena self.now.~in~reader ~index~ }
    {
        value::get_pointer(&self.~in~reader, ~index~)
    }
";

/// A capability.
pub const CAPABILITY: &str =
    "        ensures value { (t : Tree) (i : ℕ) → ShowsStructOf A.ReaderArena self.now.~in~reader t
            → ~spec~ t ≡ Capability i → IfOk result (λ n. n ≡ i) }
        ensures exactly { result ≡ capability_index
            (word_of (pointer_field A.ReaderArena self.now.~in~reader ~index~)) }
    {
        value::get_capability(&self.~in~reader, ~index~)
    }
";

/// Whether a pointer is set.
pub const HAS: &str =
    "        ensures value { (t : Tree) → ShowsStructOf A.ReaderArena self.now.~in~reader t
            → (IsTrue result ↔ (child ~index~ t ≢ Null)) }
        ensures word { IsTrue result
            ↔ (word_of (pointer_field A.ReaderArena self.now.~in~reader ~index~) ≢ 0) }
    {
        value::has(&self.~in~reader, ~index~)
    }
";

/// An enum, or the members of a union.
pub const NAMES: &str = "/// ~full~.
#[derive(Clone, Copy, Debug, PartialEq, Eq)]
pub enum ~type~ {
~variants~}

/// Returns what `number` names.
pub fn of_number(number: u16) -> Result<~type~, NotInSchema>
    ensures value { IfOk result (λ e. ~module~_number e ≡ number) }
    ensures unknown { IfErr result (λ e. (e.0 ≡ number) × (~count~ ≤ number)) }
{
    let variant = match number {
~arms~        _ => return Err(NotInSchema(number)),
    };
    Ok(variant)
}
";

/// The numbers of an enum, or of the members of a union.
pub const NUMBERS: &str = "-- The number of each variant of ~module~::~type~.
use Rattle.std.specs.Prelude.{ℕ}
use Rattle.~crate~.specs.declared.~module~.~type~.{~type~}
use Rattle.~crate~.specs.declared.~module~.~type~.TheVariants.{~names~}

abbrev pub ~module~_number : ~type~ → ℕ
~numbers~";

/// The definition of a field.
pub const DEFINITION: &str = "
-- ~about~
abbrev pub ~spec~ : Tree → ~type~
~spec~ t = ~value~
";

/// The definition of the default value of a struct or a list.
pub const DEFAULT: &str = "
-- The default value of ~about~, as a message
abbrev pub ~default~ : List ℕ
~default~ = ~numbers~
";

/// What is before the definitions of the fields.
pub const DEFINITIONS: &str = "-- What the fields are in a value.
use Rattle.std.specs.Prelude.{ℕ, List, bit_xor, ◌∷◌, []}
use Rattle.capnp_format.specs.Tree.{Tree}
use Rattle.capnp_readers.specs.Values.{list_numbers, text_bytes}
use Rattle.typed_reading.specs.Values.{bits_in, child, data_or, text_or}
";

/// How a module imports the definitions of sections of structs.
pub const SIZES_IMPORT: &str = "ghost use Rattle.~crate~.specs.Sizes.{~specs~};
";

/// How a module imports the definitions of fields.
pub const SPECS_IMPORT: &str = "ghost use Rattle.~reading~.specs.Schema.{~specs~};
";

/// How a module imports the numbers of an enum.
pub const NUMBERS_IMPORT: &str = "ghost use Rattle.~reading~.specs.Of~file~.{~module~_number};
";

/// How a module imports the definition of the schema's table.
pub const TABLE_IMPORT: &str = "ghost use Rattle.~crate~.specs.Table.{schema_table};
";
