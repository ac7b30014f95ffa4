//! Names in generated Rust.

use capnpc_schema::text::Text;
use std::alloc::Global;

/// What begins the names of a struct's calls, and ends them, so that two fields of a struct don't have
/// a call of the same name.
pub const CALLS: &[(&str, &str)] = &[
    ("", ""),
    ("has_", ""),
    ("set_", ""),
    ("init_", ""),
    ("edit_", ""),
    ("", "_bytes"),
];

/// Names of calls that fields can't have, since each struct has such calls.
pub const CALL_WORDS: &[&str] = &["which", "read_which"];

/// Names that calls, modules and files can't have: words of Rust.
pub const RUST_WORDS: &[&str] = &[
    "as", "async", "await", "break", "const", "continue", "crate", "dyn", "else", "enum", "extern",
    "false", "fn", "for", "if", "impl", "in", "let", "loop", "match", "mod", "move", "mut", "pub",
    "ref", "return", "self", "static", "struct", "super", "trait", "true", "type", "unsafe", "use",
    "where", "while", "abstract", "become", "box", "do", "final", "gen", "macro", "override",
    "priv", "try", "typeof", "unsized", "virtual", "yield",
];

/// Names that modules, types and constants can't have: words of Rust, and what generated code names.
pub const ITEM_WORDS: &[&str] = &[
    "as",
    "async",
    "await",
    "break",
    "const",
    "continue",
    "crate",
    "dyn",
    "else",
    "enum",
    "extern",
    "false",
    "fn",
    "for",
    "if",
    "impl",
    "in",
    "let",
    "loop",
    "match",
    "mod",
    "move",
    "mut",
    "pub",
    "ref",
    "return",
    "self",
    "static",
    "struct",
    "super",
    "trait",
    "true",
    "type",
    "unsafe",
    "use",
    "where",
    "while",
    "abstract",
    "become",
    "box",
    "do",
    "final",
    "gen",
    "macro",
    "override",
    "priv",
    "try",
    "typeof",
    "unsized",
    "virtual",
    "yield",
    "g",
    "capnp_layout",
    "std",
    "core",
    "bool",
    "char",
    "str",
    "u8",
    "u16",
    "u32",
    "u64",
    "u128",
    "usize",
    "i8",
    "i16",
    "i32",
    "i64",
    "i128",
    "isize",
    "f32",
    "f64",
    "Self",
    "Builder",
    "Which",
    "From",
    "Into",
    "Ok",
    "Err",
    "Some",
    "None",
    "Option",
    "Result",
    "PartialEq",
    "Clone",
    "Copy",
    "Debug",
    "Eq",
    "Hash",
    "SIZE",
    "DEFAULT",
    "TABLE",
    "NAMES",
    "M",
];

/// Names that types in the scope of a struct can't have if structs have plain values.
pub const VALUE_WORDS: &[&str] = &["Value", "WhichValue"];

/// Names that variants can't have.
pub const VARIANT_WORDS: &[&str] = &["Self", "Unknown"];

/// Returns a name in snake case: a word begins at a capital after a small letter or a digit, and at
/// the last of some capitals if a small letter is after it. So `getHTTPServer` is
/// `get_http_server`.
pub fn snake_name(alloc: Global, name: &str) -> Text {
    let mut snake = Text::new(alloc);
    let mut before = '_';
    let mut at = '_';
    for next in name.chars() {
        push_snake(&mut snake, before, at, next);
        before = at;
        at = next;
    }
    push_snake(&mut snake, before, at, '_');
    if !snake.as_str().starts_with(is_letter) {
        let mut prefixed = Text::new(alloc);
        prefixed.push("n");
        prefixed.append(&snake);
        return prefixed;
    }
    snake
}

// Whether a name can begin with this.
fn is_letter(c: char) -> bool {
    c.is_ascii_alphabetic()
}

// Appends `at`, a character of a name between `before` and `next`, in snake case. A `_` is before the
// first and after the last.
fn push_snake(to: &mut Text, before: char, at: char, next: char) {
    let ends_capitals = before.is_ascii_uppercase() && next.is_ascii_lowercase();
    let is_inside = before.is_ascii_lowercase() || before.is_ascii_digit() || ends_capitals;
    if !at.is_ascii_alphanumeric() {
        if !to.as_str().is_empty() && !to.as_str().ends_with('_') {
            to.push_char('_');
        }
    } else {
        if at.is_ascii_uppercase() && is_inside {
            to.push_char('_');
        }
        to.push_char(at.to_ascii_lowercase());
    }
}

/// Returns the name of a constant: capitals, with `_` between words.
pub fn upper_name(alloc: Global, name: &str) -> Text {
    let snake = snake_name(alloc, name);
    let mut upper = Text::new(alloc);
    for c in snake.as_str().chars() {
        upper.push_char(c.to_ascii_uppercase());
    }
    upper.note_if_failed(snake.has_failed);
    upper
}

/// The last part of a declaration's name.
pub fn last_part(full: &str) -> &str {
    let (_, last) = full.rsplit_once('.').unwrap_or(("", full));
    last
}

/// Whether a name is one of these words.
pub fn is_word(words: &[&'static str], name: &str) -> bool {
    for word in words {
        if *word == name {
            return true;
        }
    }
    false
}
