//! Texts and templates. A call that finds no memory notes that, and goes on; who takes the
//! result learns it. So the code that writes files is without a branch at each call.

use std::alloc::{AllocError, Global};

/// Words, and a template for what each stands for: in each line a word, `=`, and its template.
pub type Lines = &'static str;

/// A text as it grows.
#[derive(Drop)]
pub struct Text {
    text: String,
    /// Whether memory was lacking for a part of it.
    pub has_failed: bool,
}

impl Text {
    /// Returns an empty text.
    pub fn new(alloc: Global) -> Self {
        Text {
            text: String::new(alloc),
            has_failed: false,
        }
    }

    /// Appends a text.
    pub fn push(&mut self, part: &str) {
        if self.text.push_str(part).is_err() {
            self.has_failed = true;
        }
    }

    /// Appends texts.
    pub fn push_all(&mut self, parts: &[&str]) {
        for part in parts {
            self.push(part);
        }
    }

    /// Appends a character.
    pub fn push_char(&mut self, part: char) {
        if self.text.push(part).is_err() {
            self.has_failed = true;
        }
    }

    /// Appends another text.
    pub fn append(&mut self, other: &Text) {
        self.push(other.as_str());
        self.note_if_failed(other.has_failed);
    }

    /// Appends the digits of a number.
    pub fn push_number(&mut self, number: u64) {
        if write!(self.text, "{number}").is_err() {
            self.has_failed = true;
        }
    }

    /// Appends `\x` and the two digits of a byte.
    pub fn push_escaped_byte(&mut self, byte: u8) {
        if write!(self.text, "\\x{byte:02x}").is_err() {
            self.has_failed = true;
        }
    }

    /// Appends `template`, with each word between two `~` replaced by what `values` has for it.
    pub fn push_filled(&mut self, template: &str, values: &Values) {
        for (i, piece) in template.split('~').enumerate() {
            if i % 2 == 0 {
                self.push(piece);
            } else {
                self.push(values.get(piece));
            }
        }
        self.note_if_failed(values.has_failed);
    }

    /// Appends items, which have a `;` between them, with commas in its place.
    pub fn push_joined(&mut self, items: &str) {
        let mut is_first = true;
        for item in items.split(';') {
            if !is_first {
                self.push(", ");
            }
            self.push(item);
            is_first = false;
        }
    }

    /// Notes that memory was lacking elsewhere, if it was.
    pub fn note_if_failed(&mut self, has_failed: bool) {
        self.has_failed = self.has_failed || has_failed;
    }

    /// The text.
    pub fn as_str(&self) -> &str {
        self.text.as_str()
    }

    /// Returns the text. Refuses one with a part for which there was no memory.
    pub fn into_string(self) -> Result<String, AllocError> {
        let Text { text, has_failed } = self;
        if has_failed {
            return Err(AllocError);
        }
        Ok(text)
    }
}

// What stands for a word of a template.
#[derive(Drop)]
struct Value {
    word: &'static str,
    text: Text,
}

/// What stands for the words of templates.
#[derive(Drop)]
pub struct Values {
    alloc: Global,
    values: Vec<Value>,
    has_failed: bool,
}

impl Values {
    /// Returns a table without words.
    pub fn new(alloc: Global) -> Self {
        Values {
            alloc,
            values: Vec::new(alloc),
            has_failed: false,
        }
    }

    /// Adds a word that stands for what is in `text`, from now on.
    pub fn put_text(&mut self, word: &'static str, text: Text) {
        let has_failed = text.has_failed;
        if self.values.push(Value { word, text }).is_err() || has_failed {
            self.has_failed = true;
        }
    }

    /// Adds a word.
    pub fn put(&mut self, word: &'static str, part: &str) {
        let mut text = Text::new(self.alloc);
        text.push(part);
        self.put_text(word, text);
    }

    /// Adds a word that stands for a number.
    pub fn put_number(&mut self, word: &'static str, number: u64) {
        let mut text = Text::new(self.alloc);
        text.push_number(number);
        self.put_text(word, text);
    }

    /// Adds words. Each template is filled with the words before it.
    pub fn put_lines(&mut self, lines: Lines) {
        for line in lines.lines() {
            if let Some((word, template)) = line.split_once('=') {
                let mut text = Text::new(self.alloc);
                text.push_filled(template, self);
                self.put_text(word, text);
            }
        }
    }

    /// What stands for a word; nothing if it isn't there.
    pub fn get(&self, word: &str) -> &str {
        for value in self.values.iter().rev() {
            if value.word == word {
                return value.text.as_str();
            }
        }
        ""
    }
}
