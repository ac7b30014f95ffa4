//! Parses paths to a part of a message.
ghost use Rattle.std.specs.Prelude.{◌≡◌, ◌<◌, length, map, IfSome, IsNone, MatchOption, List, Some, ℕ};
ghost use Rattle.std.specs.List.{after_first, before_first, position_or_len};
ghost use Rattle.capnp_streams.specs.Paths.{IsIndex, index_of, is_dot, is_whole_path, longer_path, no_path, parts_between_dots, path_indexes, path_of, path_with, unbracketed};

/// The largest number of indexes of a path.
const MOST: usize = 32;

/// A path from the root pointer to a part of a message: at most 32 indexes, each of a pointer of a
/// struct, or of an element of a list. A path without indexes leads to the whole message.
#[derive(Clone, Copy)]
pub struct Path {
    /// The indexes, and zeros after them.
    indexes: [u32; MOST],
    /// The number of indexes.
    count: usize,
}

impl Path {
    /// Returns the path without indexes.
    pub fn empty() -> Self
        ensures { result ≡ no_path }
    {
        Path {
            indexes: [0; MOST],
            count: 0,
        }
    }

    /// Returns the indexes.
    pub fn indexes(&self) -> &[u32]
        ensures { result.now ≡ path_indexes self.now }
    {
        let count = self.count.min(MOST);
        &self.indexes[..count]
    }

    /// Whether the path has no indexes.
    pub fn is_empty(&self) -> bool
        ensures { result ≡ is_whole_path self.now }
    {
        self.indexes().is_empty()
    }

    /// Returns the path with `index` after its indexes; `None` if it has 32 already.
    fn with_index(self, index: u32) -> Option<Self>
        ensures { result ≡ longer_path index self }
    {
        if self.count >= MOST {
            return None;
        }
        let mut indexes = self.indexes;
        indexes[self.count] = index;
        Some(Path {
            indexes,
            count: self.count + 1,
        })
    }

    /// Returns the path with the index that `text` states after its indexes; `None` if `text`
    /// states none, or if the path has 32 indexes already.
    fn with_parsed_index(self, text: &str) -> Option<Self>
        ensures { result ≡ path_with (index_of text.now) self }
    {
        match parse_bracketed_index(text) {
            Some(index) => self.with_index(index),
            None => None,
        }
    }
}

/// Parses a path: 1 to 32 indexes between dots, each in decimal digits, with or without brackets,
/// as in `0.2.[7].1`. Returns `None` for any other text, also if an index doesn't fit a `u32`.
pub(super) fn parse_path(text: &str) -> Option<Path>
    ensures { result ≡ path_of text.now }
{
    let mut path = Path::empty();
    let mut rest = text;
    while let Some((first, more)) = split_at_dot(rest) {
        let Some(longer) = path.with_parsed_index(first) else {
            return None;
        };
        path = longer;
        rest = more;
    }
    path.with_parsed_index(rest)
}

/// The indexes of a path that is parsed are those that the text states between its dots, in order.
pub fn paths_parsed()
    ensures { (text : List ℕ) (path : Path) → path_of text ≡ Some path
        → map index_of (parts_between_dots text) ≡ map (λ (i : ℕ). Some i) (path_indexes path) }
{}

/// Returns the parts of `text` before and after its first dot; `None` if there is no dot.
fn split_at_dot(text: &str) -> Option<(&str, &str)>
    ensures { MatchOption result (position_or_len is_dot text.now ≡ length text.now) (λ x.
        (position_or_len is_dot text.now < length text.now)
        × (x.0.now ≡ before_first is_dot text.now)
        × (x.1.now ≡ after_first is_dot text.now)) }
{
    text.split_once('.')
}

/// Returns the index that `text` states in decimal digits, with or without brackets; `None` if
/// `text` states none.
fn parse_bracketed_index(text: &str) -> Option<u32>
    ensures { result ≡ index_of text.now }
{
    parse_index(without_brackets(text))
}

/// Returns `text` without the `[` at its front and the `]` at its end, if it has both; otherwise
/// `text`.
fn without_brackets(text: &str) -> &str
    ensures { result.now ≡ unbracketed text.now }
{
    if 1 < text.len() && text.starts_with('[') && text.ends_with(']') {
        &text[1..text.len() - 1]
    } else {
        text
    }
}

/// Parses an index: a `u32` in decimal digits. Returns `None` for any other text, also for one with
/// a `+`.
fn parse_index(text: &str) -> Option<u32>
    ensures read { IfSome result (λ n. IsIndex text.now n) }
    ensures none { IsNone result → (n : ℕ) → IsIndex text.now n → ⊥ }
{
    if text.starts_with('+') {
        return None;
    }
    text.parse().ok()
}
