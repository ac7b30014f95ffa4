//! The table of the schema
ghost use Rattle.addressbook_checking.specs.Table.{schema_table};

use typed_checking::schema::Schema;

/// The words of the table, as `typed_conforming::schema` describes them.
pub static WORDS: [u32; 18] = [0, 1, 63, 4, 3, 3, 271, 135, 2, 1, 3, 199, 2, 2, 3, 0, 1, 3];

/// The table of the schema.
/// - Row 1: AddressBook.
/// - Row 3: Person.
/// - Row 16: Person.PhoneNumber.
pub struct Table;

impl Schema for Table {
    ghost table = { schema_table };

    fn table() -> &'static [u32] {
        &WORDS
    }
}
