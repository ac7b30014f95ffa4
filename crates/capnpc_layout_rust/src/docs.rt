//! Doc comments in generated Rust.

use capnpc_schema::text::Text;

/// The most characters of a line.
pub const MAX_WIDTH: usize = 100;

/// Appends a comment of the schema, so that nothing in it is markup, and then a line of code: each
/// line with `indent` and `///`.
pub fn push_docs(to: &mut Text, indent: &str, comment: &str, line: &str) {
    let mut has_text = false;
    for written in comment.trim().lines() {
        to.push_all(&[indent, "///"]);
        push_doc_line(to, written.trim());
        to.push("\n");
        has_text = true;
    }
    if has_text {
        to.push_all(&[indent, "///\n"]);
    }
    to.push_all(&[indent, "/// `", line, "`\n"]);
}

// Appends a line of a comment after its `///`.
fn push_doc_line(to: &mut Text, line: &str) {
    if line.is_empty() {
        return;
    }
    to.push(" ");
    if line.starts_with(starts_markup) {
        to.push("\\");
    }
    let mut before = ' ';
    for c in line.chars() {
        push_doc_char(to, before, c);
        before = c;
    }
}

// Whether a line that starts with this may be markup.
fn starts_markup(c: char) -> bool {
    matches!(c, '-' | '+' | '=' | '#' | '|' | '~')
}

// Appends a character of a comment. `before` is the one before it.
fn push_doc_char(to: &mut Text, before: char, c: char) {
    let ends_number = before.is_ascii_digit() && matches!(c, '.' | ')');
    match c {
        '[' | ']' | '<' | '>' | '*' | '_' | '\\' | '&' | '`' => {
            to.push("\\");
            to.push_char(c);
        }
        '.' | ')' if ends_number => {
            to.push("\\");
            to.push_char(c);
        }
        _ if c.is_control() || is_direction(c) => to.push(" "),
        _ => to.push_char(c),
    }
}

// Whether a character changes the direction of text, which Rust refuses in comments.
fn is_direction(c: char) -> bool {
    matches!(c, '\u{202a}'..='\u{202e}' | '\u{2066}'..='\u{2069}')
}
