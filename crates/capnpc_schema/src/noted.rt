//! Notes what is refused while the request is read, and goes on with an empty value. So the code
//! that reads the request is without a branch at each call.

use crate::names::{Names, snake_case};
use crate::text::Text;
use anyhow::{Result, anyhow};
use capnp_words::error::ErrorKind;
use std::alloc::{AllocError, Global};
use std::str;

/// What was refused so far.
#[derive(Drop)]
pub struct Noted {
    /// The allocator.
    pub alloc: Global,
    // The first refusal of a reader.
    refusal: Option<ErrorKind>,
    // Whether a text wasn't UTF-8.
    has_bad_text: bool,
    // Whether memory was lacking.
    has_failed: bool,
}

impl Noted {
    /// Returns notes of nothing.
    pub fn new(alloc: Global) -> Self {
        Noted {
            alloc,
            refusal: None,
            has_bad_text: false,
            has_failed: false,
        }
    }

    /// Refuses what was read if something is noted.
    pub fn finish(&self) -> Result<()> {
        if let Some(refusal) = self.refusal {
            return Err(refusal.into());
        }
        if self.has_bad_text {
            return Err(anyhow!("a name is not UTF-8"));
        }
        if self.has_failed {
            return Err(AllocError.into());
        }
        Ok(())
    }

    /// Returns what was read; `None` if that was refused.
    pub fn ok_or_note<T: Drop>(&mut self, read: Result<T, ErrorKind>) -> Option<T> {
        match read {
            Ok(value) => Some(value),
            Err(refusal) => {
                self.note_refusal(refusal);
                None
            }
        }
    }

    /// Returns the bytes that were read; none if that was refused.
    pub fn bytes_or_note<'a>(&mut self, read: Result<&'a [u8], ErrorKind>) -> &'a [u8] {
        match read {
            Ok(bytes) => bytes,
            Err(refusal) => {
                self.note_refusal(refusal);
                &[]
            }
        }
    }

    /// Returns the text that was read; an empty one if that was refused.
    pub fn text_or_note<'a>(&mut self, read: Result<&'a [u8], ErrorKind>) -> &'a str {
        match str::from_utf8(self.bytes_or_note(read)) {
            Ok(text) => text,
            Err(_) => {
                self.has_bad_text = true;
                ""
            }
        }
    }

    /// Returns a copy of a text.
    pub fn copy_text(&mut self, text: &str) -> String {
        let mut copied = Text::new(self.alloc);
        copied.push(text);
        self.string_or_note(copied)
    }

    /// Returns a name in snake case.
    pub fn snake_case(&mut self, name: &str) -> String {
        let snake = snake_case(self.alloc, name);
        self.string_or_note(snake)
    }

    /// Returns a name that isn't taken, and isn't one of these words: `start`, `end`, and as many
    /// `_` as that takes. Takes it.
    pub fn unique_name(
        &mut self,
        start: &str,
        end: &str,
        words: &[&'static str],
        taken: &mut Names,
    ) -> String {
        let mut name = Text::new(self.alloc);
        name.push_all(&[start, end]);
        taken.make_unique_and_add(self.alloc, words, &mut name);
        self.string_or_note(name)
    }

    /// Returns a text; an empty one if memory was lacking for a part of it.
    pub fn string_or_note(&mut self, text: Text) -> String {
        match text.into_string() {
            Ok(text) => text,
            Err(AllocError) => {
                self.has_failed = true;
                String::new(self.alloc)
            }
        }
    }

    /// Returns a copy of bytes.
    pub fn copy_bytes(&mut self, bytes: &[u8]) -> Vec<u8> {
        match bytes.to_vec(self.alloc) {
            Ok(copied) => copied,
            Err(_) => {
                self.has_failed = true;
                Vec::new(self.alloc)
            }
        }
    }

    /// Appends an item to a list.
    pub fn push<T: Drop>(&mut self, list: &mut Vec<T>, item: T) {
        if list.push(item).is_err() {
            self.has_failed = true;
        }
    }

    /// Notes that memory was lacking elsewhere, if it was.
    pub fn note_if_failed(&mut self, has_failed: bool) {
        self.has_failed = self.has_failed || has_failed;
    }

    // Notes a refusal, if it is the first.
    fn note_refusal(&mut self, refusal: ErrorKind) {
        if self.refusal.is_none() {
            self.refusal = Some(refusal);
        }
    }
}
