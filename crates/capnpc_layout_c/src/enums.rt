//! Writes enums: those of the schema, and the numbers of members of unions.

use crate::annotated::member_name;
use crate::comments::push_comment;
use crate::members::is_member;
use crate::readers::{Schema, comment_of};
use capnpc_schema::model::{Node, Struct};
use capnpc_schema::text::Text;

impl<'m> Schema<'m> {
    /// Writes an enum with these names.
    pub fn write_enum<'n>(&mut self, node: &'n Node, names: &'n [String]) {
        let values = self.node_values(node);
        self.text.push("\n");
        push_comment(&mut self.text, node.comment.as_str(), node.full.as_str());
        if names.is_empty() {
            return;
        }
        self.push("enum ~type~ {", &values);
        for (i, name) in names.iter().enumerate() {
            let name = member_name(self.nodes, node, i, name.as_str());
            self.push_enumerant(i > 0, node, "_", name, i as u64);
        }
        self.text.push("\n};\n");
    }

    /// Writes the numbers of a union's members.
    pub fn write_which(&mut self, node: &Node, it: &Struct) {
        let values = self.node_values(node);
        let mut line = Text::new(self.alloc);
        line.push_filled("The members of the union of ~full~.", &values);
        self.text.push("\n");
        push_comment(&mut self.text, "", line.as_str());
        self.push("enum ~type~_which {", &values);
        let mut is_next = false;
        for field in it.fields.iter() {
            if is_member(field) {
                let number = u64::from(field.discriminant);
                self.push_enumerant(is_next, node, "_which_", field.variant.as_str(), number);
                is_next = true;
            }
        }
        self.text.push("\n};\n");
    }

    // Writes an enumerant.
    fn push_enumerant(
        &mut self,
        is_next: bool,
        node: &Node,
        between: &str,
        name: &str,
        number: u64,
    ) {
        if is_next {
            self.text.push(",");
        }
        self.text.push("\n");
        if between == "_" {
            let comment = comment_of(node, number as usize);
            if !comment.is_empty() {
                push_comment(&mut self.text, comment, name);
            }
        }
        self.text
            .push_all(&["    ", node.item.as_str(), between, name, " = "]);
        self.text.push_number(number);
    }
}
