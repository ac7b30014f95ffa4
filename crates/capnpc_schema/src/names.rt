//! Names in generated code.

use crate::text::Text;
use std::alloc::Global;

/// Returns a name in snake case, in the same way that upstream does: each capital becomes `_` and a
/// small letter. What isn't a letter or a digit becomes `_`.
pub fn snake_case(alloc: Global, name: &str) -> Text {
    let mut snake = Text::new(alloc);
    let mut starts = true;
    for c in name.chars() {
        if c.is_ascii_uppercase() && !starts {
            snake.push_char('_');
        }
        starts = !c.is_ascii_alphanumeric();
        snake.push_char(if starts { '_' } else { c.to_ascii_lowercase() });
    }
    snake
}

/// Returns a name with a capital at its start.
pub fn capitalized(alloc: Global, name: &str) -> Text {
    let mut capital = Text::new(alloc);
    for (i, c) in name.chars().enumerate() {
        capital.push_char(if i == 0 { c.to_ascii_uppercase() } else { c });
    }
    capital
}

/// Names in a list.
#[derive(Drop)]
pub struct Names {
    names: Vec<String>,
    /// Whether memory was lacking for a name.
    pub has_failed: bool,
}

impl Names {
    /// Returns an empty list.
    pub fn new(alloc: Global) -> Self {
        Names {
            names: Vec::new(alloc),
            has_failed: false,
        }
    }

    /// The names.
    pub fn as_slice(&self) -> &[String] {
        self.names.as_slice()
    }

    /// Whether a name is in the list.
    pub fn contains(&self, name: &str) -> bool {
        for known in self.names.iter() {
            if known.as_str() == name {
                return true;
            }
        }
        false
    }

    /// Adds a name.
    pub fn add(&mut self, alloc: Global, name: &str) {
        match String::from_str(alloc, name) {
            Ok(name) => {
                if self.names.push(name).is_err() {
                    self.has_failed = true;
                }
            }
            Err(_) => self.has_failed = true,
        }
    }

    /// Adds a name, unless it is in the list.
    pub fn add_once(&mut self, alloc: Global, name: &str) {
        if !self.contains(name) {
            self.add(alloc, name);
        }
    }

    /// Appends as many `_` to `name` as make it new, and none of these words, and adds it.
    pub fn make_unique_and_add(&mut self, alloc: Global, words: &[&'static str], name: &mut Text) {
        for _ in 0..u32::MAX {
            if !contains_word(words, name.as_str()) && !self.contains(name.as_str()) {
                break;
            }
            name.push_char('_');
        }
        self.add(alloc, name.as_str());
    }

    /// Sorts the names.
    pub fn sort(&mut self) {
        if self.names.sort().is_err() {
            self.has_failed = true;
        }
    }

    /// Appends the names to a text, with commas between them.
    pub fn join_into(&self, to: &mut Text) {
        let mut is_first = true;
        for name in self.names.iter() {
            if !is_first {
                to.push(", ");
            }
            to.push(name.as_str());
            is_first = false;
        }
        to.note_if_failed(self.has_failed);
    }
}

// Whether a name is one of these words.
fn contains_word(words: &[&'static str], name: &str) -> bool {
    for word in words {
        if *word == name {
            return true;
        }
    }
    false
}
