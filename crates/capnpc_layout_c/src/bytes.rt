//! Bytes in generated C.

use capnpc_schema::text::Text;
use std::alloc::Global;

/// How many bytes of an array are in a line.
const BYTES_OF_LINE: usize = 16;

/// Bytes as the elements of an array: lines that begin with `indent`.
pub fn byte_array(alloc: Global, bytes: &[u8], indent: &str) -> Text {
    let mut items = Text::new(alloc);
    for (i, byte) in bytes.iter().enumerate() {
        if i > 0 {
            items.push(",");
        }
        if i % BYTES_OF_LINE == 0 {
            items.push_all(&["\n", indent]);
        } else {
            items.push(" ");
        }
        items.push_number(u64::from(*byte));
    }
    items
}

/// The words of a message whose root is a list of these bytes, with this many zero bytes after them;
/// as the elements of an array.
pub fn list_array(alloc: Global, bytes: &[u8], zeros: usize, indent: &str) -> Text {
    let count = bytes.len().saturating_add(zeros);
    let mut items = Text::new(alloc);
    items.push_all(&["\n", indent, "1, 0, 0, 0"]);
    let pointer = ((count as u64) << 3) | 2;
    for place in 0..4u32 {
        items.push(", ");
        items.push_number((pointer >> (place * 8)) & 255);
    }
    if count > 0 {
        items.push(",");
        items.append(&byte_array(alloc, bytes, indent));
        push_zeros(&mut items, bytes.len());
    }
    items
}

// Appends the zero bytes after `count` bytes: one at least, up to the end of a word.
fn push_zeros(to: &mut Text, count: usize) {
    for place in count % 8..8 {
        if count > 0 || place > 0 {
            to.push(", ");
        }
        to.push("0");
    }
}

/// Appends the 16 digits of an id.
pub fn push_hex(to: &mut Text, id: u64) {
    for place in 0..16u32 {
        let digit = (id >> (60 - place * 4)) & 15;
        let letter = match u8::try_from(digit) {
            Ok(small) if small < 10 => b'0'.saturating_add(small),
            Ok(large) => b'a'.saturating_add(large.saturating_sub(10)),
            Err(_) => b'0',
        };
        to.push_char(char::from(letter));
    }
}
