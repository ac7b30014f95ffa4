//! The root of a message, and the fields of a struct that is read.
ghost use Rattle.std.specs.Prelude.{◌≡◌, ◌≢◌, ◌+◌, ◌-◌, ◌*◌, ◌/◌, ◌^◌, ◌<◌, ◌≤◌, ◌↔◌, ℕ, true, false, bit_xor, length, IsTrue, IfOk, IsOk, OnOk, Err};
ghost use Rattle.std.specs.Result.{result_err};
ghost use Rattle.capnp_format.specs.Bytes.{message};
ghost use Rattle.capnp_format.specs.Means.{Means};
ghost use Rattle.capnp_format.specs.Tree.{Tree, Capability, Null, Struct, no_trees};
ghost use Rattle.capnp_words.specs.Meter.{Affords, charged};
ghost use Rattle.capnp_arena_traits.specs.Checks.{Holds};
ghost use Rattle.capnp_pointers.specs.Expected.{data_expected, struct_expected, text_expected};
ghost use Rattle.capnp_pointers.specs.Outcomes.{MeansThere};
ghost use Rattle.capnp_pointers.specs.Reading.{source_start, word_of};
ghost use Rattle.capnp_pointers.specs.Source.{levels};
ghost use Rattle.capnp_pointers.specs.Spending.{Paid};
ghost use Rattle.capnp_readers.specs.Readers.{read_by};
ghost use Rattle.capnp_readers.specs.Values.{HasValue, ShowsNumber, ShowsStructOf, StaysIn, IsBytes, IsStructOrNull, IsText, child_cost, field_of_number, list_numbers, struct_data, text_bytes};
ghost use Rattle.typed_reading.specs.Outcomes.{capability_index, default_outcome, reading_outcome, root_outcome, root_place};
ghost use Rattle.typed_reading.specs.Sections.{LeadsToSectionsOf, ShowsSectionsOf, pointer_field};
ghost use Rattle.typed_reading.specs.Values.{IsDefault, bits_in, child, data_or, text_or};

use capnp_arena_traits::arena::ReaderArena;
use capnp_pointers::source::Source;
use capnp_readers::readers::{PointerReader, StructReader};
use capnp_words::error::ErrorKind;
use capnp_words::mask::Mask;
use capnp_words::primitive::Primitive;
use capnp_words::read_limiter::ReadLimiter;
use capnp_words::zero::Zero;

/// Returns the struct that the root of a message is; a struct without sections if the root pointer
/// is null. Charges one word for the root pointer, and the struct's own words.
///
/// Refuses like `PointerReader::get_root_from_arena` and `PointerReader::get_struct`. What was
/// charged before a refusal stays charged.
pub fn root<'a, A: ReaderArena>(
    arena: &'a A,
    lim: &mut ReadLimiter,
) -> Result<StructReader<'a, A>, ErrorKind>
    ensures value { (t : Tree) (c : ℕ)
        → Means (message (A.segments arena.now)) (levels (A.nesting arena.now)) 0 0 t c
        → IfOk result (λ r. ShowsStructOf A.ReaderArena r t) }
    ensures answered { let S = message (A.segments arena.now) in (t : Tree) (c : ℕ)
        → Holds S 0 0 1 → IsStructOrNull t → Means S (levels (A.nesting arena.now)) 0 0 t c
        → Affords (A.charging arena.now) lim.old (1 + c) → IsOk result }
    ensures spent { let charging = A.charging arena.now in (t : Tree) (c : ℕ) → t ≢ Null
        → Means (message (A.segments arena.now)) (levels (A.nesting arena.now)) 0 0 t c
        → IfOk result (λ r. (shows : ShowsStructOf A.ReaderArena r t)
        → Paid charging (charged charging lim.old 1) lim.new (c - shows.cost) 1) }
    ensures left { let charging = A.charging arena.now in (t : Tree) (c : ℕ)
        → Means (message (A.segments arena.now)) (levels (A.nesting arena.now)) 0 0 t c
        → Affords charging lim.old (1 + c)
        → IfOk result (λ r. (shows : ShowsStructOf A.ReaderArena r t) (i : ℕ)
        → Affords (source_start A.ReaderArena r.source).charging lim.new
        (child_cost A.ReaderArena shows i)) }
    ensures stays { IfOk result (λ r.
        StaysIn (source_start A.ReaderArena (Source.Arena arena.entry))
        (source_start A.ReaderArena r.source)) }
    ensures exactly { root_outcome A.ReaderArena arena.entry lim.old
        ≡ (result_err result, lim.new) }
    ensures sections { (t : Tree) → LeadsToSectionsOf (root_place A.ReaderArena arena.entry) t
        → IfOk result (λ r. ShowsSectionsOf A.ReaderArena r t) }
{
    match PointerReader::get_root_from_arena(arena, lim) {
        Ok(root) => root.get_struct(lim, None),
        Err(kind) => Err(kind),
    }
}

// Returns the struct without its pointers: what they lead to may be broken.
#[inline(always)]
fn data_of<'a, A: ReaderArena>(reader: &StructReader<'a, A>) -> StructReader<'a, A>
    ensures sections { (t : Tree) → ShowsSectionsOf A.ReaderArena reader.now t
        → ShowsStructOf A.ReaderArena result (Struct (struct_data t) no_trees) }
    ensures value { (t : Tree) → ShowsStructOf A.ReaderArena reader.now t
        → ShowsStructOf A.ReaderArena result (Struct (struct_data t) no_trees) }
    ensures number { (bits x : ℕ) → ShowsNumber A.ReaderArena reader.now bits x
        → ShowsNumber A.ReaderArena result bits x }
{
    StructReader {
        source: reader.source,
        content: reader.content,
        byte: reader.byte,
        bits: reader.bits,
        pointers: reader.pointers,
        pointer_count: 0,
        nesting_limit: reader.nesting_limit,
    }
}

/// Returns the number at `offset` of a struct's data, which is counted in numbers of type `T`.
/// Returns zero if the number isn't wholly inside the data.
pub fn get_number<A: ReaderArena, T: Primitive + Zero>(
    reader: &StructReader<'_, A>,
    offset: usize,
) -> T
    ensures value { (t : Tree) → ShowsStructOf A.ReaderArena reader.now t
        → T.bits_of result ≡ bits_in (8 * T.BYTES * offset) (8 * T.BYTES) t }
    ensures sections { (t : Tree) → ShowsSectionsOf A.ReaderArena reader.now t
        → T.bits_of result ≡ bits_in (8 * T.BYTES * offset) (8 * T.BYTES) t }
    ensures number { (bits x : ℕ) → ShowsNumber A.ReaderArena reader.now bits x
        → T.bits_of result ≡ field_of_number bits x (8 * T.BYTES * offset) (8 * T.BYTES) }
{
    data_of(reader).get_data_field(offset)
}

/// Returns the number at `offset` of a struct's data, like `get_number`, of a field whose default
/// value is `default`: the exclusive or of what is stored and the default.
pub fn get_number_or<A: ReaderArena, T: Primitive + Zero + Mask>(
    reader: &StructReader<'_, A>,
    offset: usize,
    default: <T as Mask>::T,
) -> T
    ensures value { (t : Tree) → ShowsStructOf A.ReaderArena reader.now t
        → T.bits_of result
        ≡ bit_xor (bits_in (8 * T.BYTES * offset) (8 * T.BYTES) t) (T.mask_bits default) }
    ensures sections { (t : Tree) → ShowsSectionsOf A.ReaderArena reader.now t
        → T.bits_of result
        ≡ bit_xor (bits_in (8 * T.BYTES * offset) (8 * T.BYTES) t) (T.mask_bits default) }
{
    data_of(reader).get_data_field_mask(offset, default)
}

/// Returns bit `offset` of a struct's data; `false` if the data ends before it.
pub fn get_bool<A: ReaderArena>(reader: &StructReader<'_, A>, offset: usize) -> bool
    ensures value { (t : Tree) → ShowsStructOf A.ReaderArena reader.now t
        → (IsTrue result ↔ (bits_in offset 1 t ≡ 1)) }
    ensures sections { (t : Tree) → ShowsSectionsOf A.ReaderArena reader.now t
        → (IsTrue result ↔ (bits_in offset 1 t ≡ 1)) }
    ensures number { (bits x : ℕ) → ShowsNumber A.ReaderArena reader.now bits x
        → (IsTrue result ↔ (field_of_number bits x offset 1 ≡ 1)) }
{
    data_of(reader).get_bool_field(offset)
}

/// Returns bit `offset` of a struct's data, like `get_bool`, of a field whose default value is
/// `default`: the exclusive or of what is stored and the default.
pub fn get_bool_or<A: ReaderArena>(
    reader: &StructReader<'_, A>,
    offset: usize,
    default: bool,
) -> bool
    ensures unset { default ≡ false → (t : Tree) → ShowsStructOf A.ReaderArena reader.now t
        → (IsTrue result ↔ (bits_in offset 1 t ≡ 1)) }
    ensures set { default ≡ true → (t : Tree) → ShowsStructOf A.ReaderArena reader.now t
        → (IsTrue result ↔ (bits_in offset 1 t ≢ 1)) }
    ensures unset_sections { default ≡ false → (t : Tree)
        → ShowsSectionsOf A.ReaderArena reader.now t
        → (IsTrue result ↔ (bits_in offset 1 t ≡ 1)) }
    ensures set_sections { default ≡ true → (t : Tree)
        → ShowsSectionsOf A.ReaderArena reader.now t
        → (IsTrue result ↔ (bits_in offset 1 t ≢ 1)) }
{
    data_of(reader).get_bool_field_mask(offset, default)
}

/// Returns whether a pointer of a struct is null, or the struct has no such pointer.
pub fn is_null<A: ReaderArena>(reader: &StructReader<'_, A>, index: usize) -> bool
    ensures value { (t : Tree) → ShowsStructOf A.ReaderArena reader.now t
        → (IsTrue result ↔ (child index t ≡ Null)) }
    ensures word { IsTrue result
        ↔ (word_of (pointer_field A.ReaderArena reader.now index) ≡ 0) }
{
    reader.is_pointer_field_null(index)
}

/// Returns whether a struct has a pointer that isn't null.
pub fn has<A: ReaderArena>(reader: &StructReader<'_, A>, index: usize) -> bool
    ensures value { (t : Tree) → ShowsStructOf A.ReaderArena reader.now t
        → (IsTrue result ↔ (child index t ≢ Null)) }
    ensures word { IsTrue result
        ↔ (word_of (pointer_field A.ReaderArena reader.now index) ≢ 0) }
{
    !is_null(reader, index)
}

/// Returns a pointer of a struct, which can lead to anything; a null pointer that isn't in any
/// message if the struct has no such pointer. Charges nothing.
pub fn get_pointer<'a, A: ReaderArena>(
    reader: &StructReader<'a, A>,
    index: usize,
) -> PointerReader<'a, A>
    ensures value { (t : Tree) → ShowsStructOf A.ReaderArena reader.now t
        → HasValue (read_by A.ReaderArena result) (child index t) }
    ensures cost { (t : Tree) (shows : ShowsStructOf A.ReaderArena reader.now t)
        → MeansThere (read_by A.ReaderArena result) (child index t)
        (child_cost A.ReaderArena shows index) }
    ensures stays { StaysIn (source_start A.ReaderArena reader.now.source)
        (read_by A.ReaderArena result) }
    ensures place { read_by A.ReaderArena result ≡ pointer_field A.ReaderArena reader.now index }
{
    reader.get_pointer_field(index)
}

/// Returns the bytes of the text that a pointer of a struct leads to, without the zero byte at its
/// end; no bytes if the pointer is null.
///
/// Refuses like `PointerReader::get_text`.
#[inline(always)]
pub fn get_text<'a, A: ReaderArena>(
    reader: &StructReader<'a, A>,
    index: usize,
    lim: &mut ReadLimiter,
) -> Result<&'a [u8], ErrorKind>
    ensures value { (t : Tree) → ShowsStructOf A.ReaderArena reader.now t
        → IfOk result (λ text. text.now ≡ text_bytes (child index t)) }
    ensures answered { let start = source_start A.ReaderArena reader.now.source in
        (t : Tree) (shows : ShowsStructOf A.ReaderArena reader.now t) → IsText (child index t)
        → Affords start.charging lim.old (child_cost A.ReaderArena shows index) → IsOk result }
    ensures spent { let start = source_start A.ReaderArena reader.now.source in
        (t : Tree) (shows : ShowsStructOf A.ReaderArena reader.now t) → child index t ≢ Null
        → OnOk result (Paid start.charging lim.old lim.new
        (child_cost A.ReaderArena shows index) 1) }
    ensures exactly { reading_outcome text_expected
        (pointer_field A.ReaderArena reader.now index) lim.old ≡ (result_err result, lim.new) }
{
    reader.get_pointer_field(index).get_text(lim, None)
}

/// Returns the bytes of the text that a pointer of a struct leads to, like `get_text`; the bytes of
/// `default` if the pointer is null.
pub fn get_text_or<'a, A: ReaderArena>(
    reader: &StructReader<'a, A>,
    index: usize,
    default: &'a [u8],
    lim: &mut ReadLimiter,
) -> Result<&'a [u8], ErrorKind>
    ensures value { (t : Tree) → ShowsStructOf A.ReaderArena reader.now t
        → IfOk result (λ text. text.now ≡ text_or default.now (child index t)) }
    ensures answered { let start = source_start A.ReaderArena reader.now.source in
        (t : Tree) (shows : ShowsStructOf A.ReaderArena reader.now t) → IsText (child index t)
        → Affords start.charging lim.old (child_cost A.ReaderArena shows index) → IsOk result }
    ensures spent { let start = source_start A.ReaderArena reader.now.source in
        (t : Tree) (shows : ShowsStructOf A.ReaderArena reader.now t) → child index t ≢ Null
        → OnOk result (Paid start.charging lim.old lim.new
        (child_cost A.ReaderArena shows index) 1) }
    ensures exactly { reading_outcome text_expected
        (pointer_field A.ReaderArena reader.now index) lim.old ≡ (result_err result, lim.new) }
{
    if is_null(reader, index) {
        return Ok(default);
    }
    get_text(reader, index, lim)
}

/// Returns the bytes of the data that a pointer of a struct leads to; no bytes if the pointer is
/// null.
///
/// Refuses like `PointerReader::get_data`.
pub fn get_data<'a, A: ReaderArena>(
    reader: &StructReader<'a, A>,
    index: usize,
    lim: &mut ReadLimiter,
) -> Result<&'a [u8], ErrorKind>
    ensures value { (t : Tree) → ShowsStructOf A.ReaderArena reader.now t
        → IfOk result (λ bytes. bytes.now ≡ list_numbers (child index t)) }
    ensures answered { let start = source_start A.ReaderArena reader.now.source in
        (t : Tree) (shows : ShowsStructOf A.ReaderArena reader.now t) → IsBytes (child index t)
        → Affords start.charging lim.old (child_cost A.ReaderArena shows index) → IsOk result }
    ensures spent { let start = source_start A.ReaderArena reader.now.source in
        (t : Tree) (shows : ShowsStructOf A.ReaderArena reader.now t) → child index t ≢ Null
        → OnOk result (Paid start.charging lim.old lim.new
        (child_cost A.ReaderArena shows index) 1) }
    ensures exactly { reading_outcome data_expected
        (pointer_field A.ReaderArena reader.now index) lim.old ≡ (result_err result, lim.new) }
{
    reader.get_pointer_field(index).get_data(lim, None)
}

/// Returns the bytes of the data that a pointer of a struct leads to, like `get_data`; the bytes of
/// `default` if the pointer is null.
pub fn get_data_or<'a, A: ReaderArena>(
    reader: &StructReader<'a, A>,
    index: usize,
    default: &'a [u8],
    lim: &mut ReadLimiter,
) -> Result<&'a [u8], ErrorKind>
    ensures value { (t : Tree) → ShowsStructOf A.ReaderArena reader.now t
        → IfOk result (λ bytes. bytes.now ≡ data_or default.now (child index t)) }
    ensures answered { let start = source_start A.ReaderArena reader.now.source in
        (t : Tree) (shows : ShowsStructOf A.ReaderArena reader.now t) → IsBytes (child index t)
        → Affords start.charging lim.old (child_cost A.ReaderArena shows index) → IsOk result }
    ensures spent { let start = source_start A.ReaderArena reader.now.source in
        (t : Tree) (shows : ShowsStructOf A.ReaderArena reader.now t) → child index t ≢ Null
        → OnOk result (Paid start.charging lim.old lim.new
        (child_cost A.ReaderArena shows index) 1) }
    ensures exactly { reading_outcome data_expected
        (pointer_field A.ReaderArena reader.now index) lim.old ≡ (result_err result, lim.new) }
{
    if is_null(reader, index) {
        return Ok(default);
    }
    get_data(reader, index, lim)
}

/// Returns the struct that a pointer of a struct leads to; a struct without sections if the pointer
/// is null.
///
/// Refuses like `PointerReader::get_struct`.
#[inline(always)]
pub fn get_struct<'a, A: ReaderArena>(
    reader: &StructReader<'a, A>,
    index: usize,
    lim: &mut ReadLimiter,
) -> Result<StructReader<'a, A>, ErrorKind>
    ensures value { (t : Tree) → ShowsStructOf A.ReaderArena reader.now t
        → IfOk result (λ r. ShowsStructOf A.ReaderArena r (child index t)) }
    ensures answered { let start = source_start A.ReaderArena reader.now.source in
        (t : Tree) (shows : ShowsStructOf A.ReaderArena reader.now t)
        → IsStructOrNull (child index t)
        → Affords start.charging lim.old (child_cost A.ReaderArena shows index) → IsOk result }
    ensures spent { let start = source_start A.ReaderArena reader.now.source in
        (t : Tree) (shows : ShowsStructOf A.ReaderArena reader.now t) → child index t ≢ Null
        → IfOk result (λ r. (inner : ShowsStructOf A.ReaderArena r (child index t))
        → Paid start.charging lim.old lim.new
        (child_cost A.ReaderArena shows index - inner.cost) 1) }
    ensures left { let start = source_start A.ReaderArena reader.now.source in
        (t : Tree) (shows : ShowsStructOf A.ReaderArena reader.now t)
        → Affords start.charging lim.old (child_cost A.ReaderArena shows index)
        → IfOk result (λ r. (inner : ShowsStructOf A.ReaderArena r (child index t)) (i : ℕ)
        → Affords (source_start A.ReaderArena r.source).charging lim.new
        (child_cost A.ReaderArena inner i)) }
    ensures stays { IfOk result (λ r. StaysIn (source_start A.ReaderArena reader.now.source)
        (source_start A.ReaderArena r.source)) }
    ensures exactly { reading_outcome struct_expected
        (pointer_field A.ReaderArena reader.now index) lim.old ≡ (result_err result, lim.new) }
    ensures sections { (t : Tree)
        → LeadsToSectionsOf (pointer_field A.ReaderArena reader.now index) t
        → IfOk result (λ r. ShowsSectionsOf A.ReaderArena r t) }
{
    reader.get_pointer_field(index).get_struct(lim, None)
}

/// Returns the struct that a pointer of a struct leads to, like `get_struct`; that of `default`,
/// which is one segment with its pointer in the first word, if the pointer is null. Reading the
/// default charges nothing. Precondition: `default` has fewer than 2^32 words.
pub fn get_struct_or<'a, A: ReaderArena>(
    reader: &StructReader<'a, A>,
    index: usize,
    default: &'a [u8],
    lim: &mut ReadLimiter,
) -> Result<StructReader<'a, A>, ErrorKind>
    requires { length default.now / 8 < 2 ^ 32 }
    ensures value { (t : Tree) → ShowsStructOf A.ReaderArena reader.now t → child index t ≢ Null
        → IfOk result (λ r. ShowsStructOf A.ReaderArena r (child index t)) }
    ensures default { (t d : Tree) → ShowsStructOf A.ReaderArena reader.now t
        → child index t ≡ Null → IsDefault default.now d
        → IfOk result (λ r. ShowsStructOf A.ReaderArena r d) }
    ensures answered { let start = source_start A.ReaderArena reader.now.source in
        (t : Tree) (shows : ShowsStructOf A.ReaderArena reader.now t)
        → child index t ≢ Null → IsStructOrNull (child index t)
        → Affords start.charging lim.old (child_cost A.ReaderArena shows index) → IsOk result }
    ensures default_answered { (t d : Tree) → ShowsStructOf A.ReaderArena reader.now t
        → child index t ≡ Null → IsDefault default.now d → IsStructOrNull d → IsOk result }
    ensures exactly { default_outcome struct_expected default.now
        (pointer_field A.ReaderArena reader.now index) lim.old ≡ (result_err result, lim.new) }
{
    if is_null(reader, index) {
        return match PointerReader::from_default(default) {
            Ok(field) => field.get_struct(lim, None),
            Err(kind) => Err(kind),
        };
    }
    get_struct(reader, index, lim)
}

/// Returns the index, in the message's capability table, of the capability that a pointer of a
/// struct is. Charges nothing.
///
/// Refuses like `PointerReader::get_capability`.
pub fn get_capability<A: ReaderArena>(
    reader: &StructReader<'_, A>,
    index: usize,
) -> Result<u32, ErrorKind>
    ensures value { (t : Tree) (i : ℕ) → ShowsStructOf A.ReaderArena reader.now t
        → child index t ≡ Capability i → IfOk result (λ n. n ≡ i) }
    ensures null { (t : Tree) → ShowsStructOf A.ReaderArena reader.now t
        → child index t ≡ Null → result ≡ Err ErrorKind.MessageContainsNullCapabilityPointer }
    ensures exactly { result
        ≡ capability_index (word_of (pointer_field A.ReaderArena reader.now index)) }
{
    reader.get_pointer_field(index).get_capability()
}
