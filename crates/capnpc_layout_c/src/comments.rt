//! Comments in generated C.

use capnpc_schema::text::Text;

/// Appends one comment: that of the schema, and then a line of code. Nothing in it ends the comment, or
/// begins one.
pub fn push_comment(to: &mut Text, comment: &str, line: &str) {
    let mut has_text = false;
    for written in comment.trim().lines() {
        push_line(to, start_of(has_text), written.trim_end());
        has_text = true;
    }
    if has_text {
        to.push(" *\n");
    }
    to.push(start_of(has_text));
    push_escaped(to, line);
    to.push(" */\n");
}

// What begins a line of a comment that has lines before it or not.
fn start_of(has_text: bool) -> &'static str {
    if has_text { " * " } else { "/* " }
}

// Appends a line of a comment.
fn push_line(to: &mut Text, start: &str, line: &str) {
    if line.is_empty() {
        to.push(start.trim_end());
    } else {
        to.push(start);
        push_escaped(to, line);
    }
    to.push("\n");
}

/// Appends the text of a comment, with a space where it would end the comment or begin one, and in
/// trigraphs.
pub fn push_escaped(to: &mut Text, line: &str) {
    let mut before = ' ';
    for c in line.chars() {
        if matches!((before, c), ('*', '/') | ('/', '*') | ('?', '?')) {
            to.push(" ");
        }
        if c.is_control() || changes_direction(c) {
            to.push(" ");
        } else {
            to.push_char(c);
        }
        before = c;
    }
    if before == '\\' {
        to.push(" .");
    }
}

// Whether a character changes the direction of text. Compilers warn of these.
fn changes_direction(c: char) -> bool {
    matches!(c, '\u{202a}'..='\u{202e}' | '\u{2066}'..='\u{2069}')
}
