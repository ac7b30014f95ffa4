//! The text of generated readers of checked messages. A word between two `~` stands for what `push_filled`
//! puts there. What a field that isn't a pointer has is in `templates`, where `~in~` says that the
//! reader is in the field `checked`.

use capnpc_schema::text::Lines;

/// What each struct and group has.
pub const CHECKED: &str = "/// ~full~, in a message that was checked: row ~row~ of the table.
pub struct Checked<'a, A: ReaderArena> {
    /// The struct.
    pub checked: RowStruct<'a, A, schema_table::Table, ~row~>,
}

impl<'a, A: ReaderArena> Clone for Checked<'a, A> {
    ghost is_clone = { λ x y. y ≡ x };

    ghost is_infallible = { λ _. ⊤ };

    fn clone(&self) -> Result<Self, AllocError> {
        Ok(*self)
    }
}

impl<'a, A: ReaderArena> Copy for Checked<'a, A> {}
";

/// The call of a struct that checks a message.
pub const ROOT: &str = "    /// Checks a message against the schema, once, and returns its root.
    pub fn root(arena: &'a A, lim: &mut ReadLimiter) -> Result<Self, Misfit>
        ensures value { (t : Tree) (c : ℕ)
            → Means (message (A.segments arena.now)) (levels (A.nesting arena.now)) 0 0 t c
            → IfOk result (λ r. ShowsStructOf A.ReaderArena r.checked.reader t) }
        ensures answered { let S = message (A.segments arena.now) in (t : Tree) (c : ℕ)
            → Holds S 0 0 1 → Conforms schema_table (Struct ~row~) t
            → Means S (levels (A.nesting arena.now)) 0 0 t c
            → Affords (A.charging arena.now) lim.old (1 + c) → IsOk result }
        ensures conforms { OnOk result ((t : Tree) × (c : ℕ)
            × Conforms schema_table (Struct ~row~) t
            × Means (message (A.segments arena.now)) (levels (A.nesting arena.now)) 0 0 t c
            × Affords (A.charging arena.now) lim.old (1 + c)) }
        ensures spent { let charging = A.charging arena.now in (t : Tree) (c : ℕ)
            → Means (message (A.segments arena.now)) (levels (A.nesting arena.now)) 0 0 t c
            → OnOk result (Paid charging (charged charging lim.old 1) lim.new c (pointers_in t)) }
        ensures refused { let S = message (A.segments arena.now) in let root =
            arena_root A.ReaderArena arena.entry in IfErr result (λ x.
            ((Holds S 0 0 1 × Affords root.charging lim.old 1 → ⊥)
            × (x ≡ misfit_at (rowless_pointer (Struct ~row~)) root x.error))
            ⊎ IsTrueFrom (first_visit schema_table (Struct ~row~) root) lim.new x) }
    {
        match RowStruct::root(arena, lim) {
            Ok(checked) => Ok(Checked { checked }),
            Err(misfit) => Err(misfit),
        }
    }
";

/// The comment of the call that returns the reader of a struct or a group.
pub const AS_READER_ABOUT: &str = "    /// Returns the reader whose getters check what they read.
";

/// What this call puts.
pub const AS_READER_PARTS: Lines = "call=as_reader
params=&self
gives=~reading~::~module~::Reader<'a, A>";

/// Its clauses and its body.
pub const AS_READER: &str = "        ensures { result.reader ≡ self.now.checked.reader }
    {
        ~reading~::~module~::Reader {
            reader: self.checked.reader,
        }
    }
";

/// A list of structs.
pub const CHECKED_LIST: &str = "
/// A list of ~full~, in a message that was checked.
pub struct CheckedList<'a, A: ReaderArena> {
    /// The list.
    pub list: RowStructs<'a, A, schema_table::Table, ~row~>,
}

impl<'a, A: ReaderArena> Clone for CheckedList<'a, A> {
    ghost is_clone = { λ x y. y ≡ x };

    ghost is_infallible = { λ _. ⊤ };

    fn clone(&self) -> Result<Self, AllocError> {
        Ok(*self)
    }
}

impl<'a, A: ReaderArena> Copy for CheckedList<'a, A> {}

impl<'a, A: ReaderArena> CheckedList<'a, A> {
    /// The number of elements.
    pub fn len(&self) -> u32
        ensures count { result ≡ self.now.list.list.reader.count }
        ensures value { (t : Tree) → ShowsListOf A.ReaderArena self.now.list.list.reader t
            → result ≡ list_length t }
    {
        self.list.len()
    }

    /// Returns element `index`. Precondition: `index` is below the number of elements.
    pub fn get(&self, index: u32) -> Checked<'a, A>
        requires { index < self.now.list.list.reader.count }
        ensures { (t : Tree) → ShowsListOf A.ReaderArena self.now.list.list.reader t
            → HasStructs t
            → ShowsStructOf A.ReaderArena result.checked.reader (struct_element t index) }
    {
        Checked {
            checked: self.list.get(index),
        }
    }
}
";

/// What a group puts.
pub const GROUP_PARTS: Lines = "gives=~path~Checked<'a, A>";

/// A group.
pub const GROUP: &str =
    "        ensures value { (t : Tree) → ShowsStructOf A.ReaderArena self.now.checked.reader t
            → ShowsStructOf A.ReaderArena result.checked.reader t }
        ensures reader { result.checked.reader ≡ self.now.checked.reader }
    {
        ~path~Checked {
            checked: self.checked,
        }
    }
";

/// What a pointer ensures; `holds` is about its `result`.
pub const POINTER: &str =
    "        ensures { (t : Tree) → ShowsStructOf A.ReaderArena self.now.checked.reader t
            → ~holds~ }
    {
        ~read~
    }
";

/// What a member of a union ensures; `holds` is about its value `r`.
pub const MEMBER: &str =
    "        ensures set { (t : Tree) → ShowsStructOf A.ReaderArena self.now.checked.reader t
            → (IsSome result ↔ ~when~) }
        ensures value { (t : Tree) → ShowsStructOf A.ReaderArena self.now.checked.reader t
            → IfSome result (λ r. ~holds~) }
    {
        ~read~
    }
";

/// What a pointer with a default value ensures, which isn't returned; `holds` is about its value `r`.
pub const UNLESS_NULL: &str =
    "        ensures set { (t : Tree) → ShowsStructOf A.ReaderArena self.now.checked.reader t
            → (IsSome result ↔ (~spec~ t ≢ Null)) }
        ensures value { (t : Tree) → ShowsStructOf A.ReaderArena self.now.checked.reader t
            → IfSome result (λ r. ~holds~) }
    {
        if !value::has(&self.checked.reader, ~index~) {
            return None;
        }
        Some(~read~)
    }
";

/// The file of the table.
pub const TABLE: &str = "/// The words of the table, as `typed_conforming::schema` describes them.
pub static WORDS: [u32; ~count~] = [~words~];

/// The table of the schema.
~rows~pub struct Table;

impl Schema for Table {
    ghost table = { schema_table };

    fn table() -> &'static [u32] {
        &WORDS
    }
}
";

/// The definition of the table.
pub const TABLE_DEFINITION: &str = "-- The table of the schema.
use Rattle.std.specs.Prelude.{ℕ, List, ◌∷◌, []}

abbrev pub schema_table : List ℕ
schema_table = ~numbers~
";

/// What a member of a union with a default value ensures, which isn't returned.
pub const MEMBER_UNLESS_NULL: &str =
    "        ensures set { (t : Tree) → ShowsStructOf A.ReaderArena self.now.checked.reader t
            → (IsSome result ↔ (~when~ × (~spec~ t ≢ Null))) }
        ensures value { (t : Tree) → ShowsStructOf A.ReaderArena self.now.checked.reader t
            → IfSome result (λ r. ~holds~) }
    {
        if !value::has(&self.checked.reader, ~index~) {
            return None;
        }
        ~read~
    }
";

/// What the call that reads a pointer puts: its name, and its arguments in one line and in several.
pub const CALL: Lines = "reads=get_~getter~
args=~index~~default~
arg_lines=~index~~default_line~";

/// The same for a member of a union.
pub const MEMBER_CALL: Lines = "reads=get_member_~getter~
args=&[~members~], ~index~~default~
arg_lines=&[~members~],~line~    ~index~~default_line~";

/// How a pointer is read, in one line.
pub const READ: &str = "self.checked.~reads~(~args~)";

/// The same in two lines.
pub const READ_IN_TWO: &str = "self.checked
            .~reads~(~args~)";

/// The same with a line for each argument.
pub const READ_IN_LINES: &str = "self.checked.~reads~(
            ~arg_lines~,
        )";

/// How a struct or a list of structs is read.
pub const READ_CHECKED: &str = "~made~ {
            ~field~: self.checked.~reads~(~args~),
        }";

/// How a member of a union is read that is a struct or a list of structs.
pub const READ_CHECKED_MEMBER: &str = "match self.checked.~reads~(~args~) {
            Some(~field~) => Some(~made~ { ~field~ }),
            None => None,
        }";

/// The same with a longer call.
pub const READ_CHECKED_MEMBER_IN_LINES: &str = "match self
            .checked
            .~reads~(~args~)
        {
            Some(~field~) => Some(~made~ { ~field~ }),
            None => None,
        }";

/// The comment of a getter whose value may not be there.
pub const MEMBER_ABOUT: &str = "    ///
    /// `None` if another member is set.
";

/// The same for a field with a default value.
pub const NULL_ABOUT: &str = "    ///
    /// `None` if the pointer is null: then `as_reader` has the default value.
";

/// The same for such a member.
pub const MEMBER_NULL_ABOUT: &str = "    ///
    /// `None` if another member is set, or the pointer is null: then `as_reader` has the default value.
";
