//! The parts of a struct that the fields of a group are, in generated Rattle.

use capnpc_schema::names::Names;
use capnpc_schema::text::Text;
use std::alloc::Global;

/// The parts of a struct as a list of the prover's, in lines of at most 100 columns.
pub fn slot_list(alloc: Global, slots: &Names) -> Text {
    let mut list = Text::new(alloc);
    let mut column = 30usize;
    for slot in slots.as_slice() {
        let width = slot.len().saturating_add(8);
        column = column.saturating_add(width);
        if column > 88 {
            list.push("\n            ");
            column = width;
        } else if !list.as_str().is_empty() {
            list.push(" ");
        }
        list.push_all(&["Slot.", slot.as_str(), " ∷"]);
    }
    list.push(if list.as_str().is_empty() {
        "[]"
    } else {
        " []"
    });
    list
}

/// The parts of a struct as the items of an array, with a `;` between them.
pub fn slot_items(alloc: Global, slots: &Names) -> Text {
    let mut items = Text::new(alloc);
    for slot in slots.as_slice() {
        let (kind, offset) = slot.split_once(' ').unwrap_or((slot.as_str(), ""));
        if !items.as_str().is_empty() {
            items.push(";");
        }
        items.push_all(&["Slot::", kind, "(", offset, ")"]);
    }
    items
}
