//! Names that generated C has for something else.

/// Names of fields, groups and constants that get a `_`: the words between a type's name and a field's
/// in the names of calls.
pub const CALL_WORDS: &[&str] = &[
    "get", "has", "set", "init", "open", "build", "copy", "which", "list", "builder", "root",
    "default", "check", "refused",
];

/// Names of types inside of others that get a `_`.
pub const INNER_WORDS: &[&str] = &["TYPE"];

/// Names of types outside of all others that get a `_`: they are macros or types of C, or begin the
/// name of one.
pub const OUTER_WORDS: &[&str] = &[
    "CAPNP", "NULL", "EOF", "FILE", "DIR", "BUFSIZ", "EXIT", "TRUE", "FALSE", "BOOL", "SIG",
    "SIZE", "SSIZE", "PTRDIFF", "WCHAR", "WINT", "INT8", "INT16", "INT32", "INT64", "UINT8",
    "UINT16", "UINT32", "UINT64", "INTPTR", "UINTPTR", "INTMAX", "UINTMAX", "INT", "UINT", "CHAR",
    "SCHAR", "UCHAR", "SHRT", "USHRT", "LONG", "ULONG", "LLONG", "ULLONG", "FLT", "DBL", "LDBL",
    "RAND",
];

/// Whether a name is one of these words.
pub fn is_word(words: &[&'static str], name: &str) -> bool {
    for word in words {
        if *word == name {
            return true;
        }
    }
    false
}
