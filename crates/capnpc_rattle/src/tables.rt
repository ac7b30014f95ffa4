//! The text of a schema's table in a crate of readers of checked messages.

use capnpc_schema::groups::Test;
use capnpc_schema::table::Table;
use capnpc_schema::text::Text;
use std::alloc::Global;

// The tag of a kind word that names a test.
const TEST: u32 = 7;

// The most columns of a line of numbers, and of a list of them in one line.
const WIDTH: u64 = 99;

const SHORT: usize = 60;

/// Writes the words between the brackets of an array, in the layout of `rt fmt`.
pub fn push_words(to: &mut Text, alloc: Global, table: &Table) {
    let mut line = Text::new(alloc);
    for word in table.words.iter() {
        if !line.as_str().is_empty() {
            line.push(", ");
        }
        line.push_number(u64::from(*word));
    }
    if line.as_str().len() <= SHORT {
        to.append(&line);
        return;
    }
    to.push("\n   ");
    let mut column = 3u64;
    for word in line.as_str().split(", ") {
        let width = (word.len() as u64).saturating_add(2);
        if column.saturating_add(width) > WIDTH {
            to.push("\n   ");
            column = 3;
        }
        to.push_all(&[" ", word, ","]);
        column = column.saturating_add(width);
    }
    to.push("\n");
    to.note_if_failed(line.has_failed);
}

/// The words as a list of the prover's.
pub fn number_list(alloc: Global, table: &Table) -> Text {
    let mut list = Text::new(alloc);
    for word in table.words.iter() {
        list.push_number(u64::from(*word));
        list.push(" ∷ ");
    }
    list.push("[]");
    list
}

/// The lines of a comment that say where the rows of the structs are.
pub fn row_comments(alloc: Global, table: &Table) -> Text {
    let mut lines = Text::new(alloc);
    for row in table.rows.iter() {
        lines.push("/// - Row ");
        lines.push_number(u64::from(row.position));
        lines.push_all(&[
            if row.id == 0 {
                ": an element of "
            } else {
                ": "
            },
            row.name.as_str(),
            ".\n",
        ]);
    }
    lines
}

/// The kind word of pointer `index` of the row at `row` if the tags of unions have the numbers of
/// `known`: the word after all tests of them. A test of another tag counts as one that fails.
pub fn kind_word(table: &Table, row: u32, index: u32, known: &[Test]) -> u32 {
    let mut word = word_at(table, row.saturating_add(1).saturating_add(index));
    for _ in 0..table.words.len() {
        if word % 16 != TEST {
            break;
        }
        let test = word / 16;
        let number = word_at(table, test.saturating_add(1));
        let holds = is_known(known, word_at(table, test), number);
        word = word_at(table, test.saturating_add(if holds { 2 } else { 3 }));
    }
    word
}

// The word at `position`; 0 past the end.
fn word_at(table: &Table, position: u32) -> u32 {
    match table.words.get(position as usize) {
        Some(word) => *word,
        None => 0,
    }
}

// Whether the tag at `offset` has this number.
fn is_known(known: &[Test], offset: u32, number: u32) -> bool {
    for test in known {
        if test.offset == offset && u32::from(test.number) == number {
            return true;
        }
    }
    false
}
