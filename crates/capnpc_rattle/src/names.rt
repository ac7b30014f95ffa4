//! Names in generated crates.

use capnpc_schema::names::{Names, capitalized, snake_case};
use capnpc_schema::text::Text;
use std::alloc::{AllocError, Global};

/// Names that a module can't have: words of Rust, Rattle and its prover, and what modules import.
pub const MODULE_WORDS: &[&str] = &[
    "as", "break", "const", "continue", "crate", "else", "enum", "extern", "false", "fn", "for",
    "if", "impl", "in", "let", "loop", "match", "mod", "move", "mut", "pub", "ref", "return",
    "self", "static", "struct", "super", "trait", "true", "type", "unsafe", "use", "where",
    "while", "async", "await", "dyn", "abstract", "become", "box", "do", "final", "macro",
    "override", "priv", "typeof", "unsized", "virtual", "yield", "try", "gen", "ghost", "requires",
    "ensures", "result", "lib", "std", "core", "main", "value", "list", "syntax", "prim",
    "copying", "groups", "opening", "places", "reading",
];

/// The module of the table in a crate of readers of checked messages. No module of a declaration has this
/// name.
pub const TABLE_MODULE: &str = "schema_table";

/// Names that an enum and its variants can't have.
pub const VARIANT_WORDS: &[&str] = &["Self", "Type", "Below"];

/// Names that an enum can't have, since its modules have other items of these names.
pub const ENUM_WORDS: &[&str] = &["Number", "NotInSchema"];

/// Names of fields that a builder's calls can't have.
pub const BUILDER_WORDS: &[&str] = &["root"];

/// Names that the definition of a field can't have, since modules import them too.
pub const SPEC_WORDS: &[&str] = &[
    "cast_unsigned",
    "source_start",
    "read_by",
    "child_cost",
    "list_length",
    "struct_element",
    "text_bytes",
    "list_numbers",
    "text_or",
    "data_or",
    "bits_in",
    "bit_xor",
    "words_for",
    "tree_at",
    "struct_at",
    "element_count",
    "list_words",
    "words_of_zero",
    "zero_elements",
    "zero_list",
    "zero_struct",
    "zero_structs",
    "call_at",
    "struct_children",
    "struct_data",
    "value_original",
    "list_read",
    "struct_read",
    "call_in",
    "element_of",
    "pointer_to",
    "element_place",
    "copied_list",
    "copied_struct",
    "opened_list",
    "opened_struct",
    "call_on",
];

/// Returns the name of the file with a module's numbers: each part with a capital, without `_`
/// between them.
pub fn upper_camel_case(alloc: Global, module: &str) -> Text {
    let mut camel = Text::new(alloc);
    let mut starts = true;
    for c in module.chars() {
        if c != '_' {
            camel.push_char(if starts { c.to_ascii_uppercase() } else { c });
        }
        starts = c == '_';
    }
    if starts {
        camel.push_char('_');
    }
    camel
}

/// The name of a crate: that of the schema's file without its ending, in snake case, and `end`. An `n`
/// is before a digit, since no name starts with one.
pub fn crate_name(alloc: Global, stem: &str, end: &str) -> Result<String, AllocError> {
    let snake = snake_case(alloc, stem);
    let mut name = Text::new(alloc);
    if let Some(first) = snake.as_str().as_bytes().first()
        && first.is_ascii_digit()
    {
        name.push("n");
    }
    name.append(&snake);
    name.push(end);
    name.into_string()
}

// The most characters of a module's name; a file's name, which has more, can have 255.
const MAX_MODULE: usize = 200;

// How many of them are kept of a longer name.
const KEPT: usize = 170;

/// The name of a declaration's module, before any `_` that makes it new: the declaration's own, in snake
/// case. A long one is cut, and ends in the declaration's id.
pub fn module_name(alloc: Global, snake: &str, id: u64) -> Text {
    let mut name = Text::new(alloc);
    match snake.split_at_checked(KEPT) {
        Some((start, _)) if snake.len() > MAX_MODULE => {
            name.push_all(&[start, "_"]);
            name.push_number(id);
        }
        _ => name.push(snake),
    }
    name
}

/// The most variants that the compiler takes of an enum.
const MAX_VARIANTS: usize = 256;

/// Whether a crate has an enum for one of the schema with this many names, or for a union with this many
/// members. Otherwise it has numbers.
pub fn has_enum(names: usize) -> bool {
    0 < names && names <= MAX_VARIANTS
}

/// The name of a variant of the enum `of`, which is also the name of a member of a union. `taken` has those
/// before it.
pub fn variant_name(alloc: Global, of: &str, name: &str, taken: &mut Names) -> Text {
    let mut variant = capitalized(alloc, name);
    if variant.as_str() == of {
        variant.push_char('_');
    }
    taken.make_unique_and_add(alloc, VARIANT_WORDS, &mut variant);
    variant
}
