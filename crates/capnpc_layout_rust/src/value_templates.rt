//! The text of plain values in generated Rust. A word between two `~` stands for what `push_filled`
//! puts there.

/// A value: its type, from a reader, and into a builder.
pub const VALUE: &str = "
/// `~full~` as a plain value.
#[derive(Clone, Debug, PartialEq)]
pub struct Value {
~declared~~which~}

impl From<super::~type~<'_>> for Value {
    fn from(it: super::~type~<'_>) -> Self {
        let it = &it;
~literal~    }
}

impl Value {
    /// Writes the value into a new struct.
    pub fn write_to(&self, ~mut~to: Builder<'_>) {
~puts~~put_which~    }
}
";

/// The value that is read, unless it fits one line.
pub const LITERAL: &str = "        Value {
~owned~~own_which~        }
";

/// A value without fields.
pub const EMPTY_VALUE: &str = "
/// `~full~` as a plain value.
#[derive(Clone, Debug, PartialEq)]
pub struct Value {}

impl From<super::~type~<'_>> for Value {
    fn from(_: super::~type~<'_>) -> Self {
        Value {}
    }
}

impl Value {
    /// Writes the value into a new struct.
    pub fn write_to(&self, _: Builder<'_>) {}
}
";

/// The default value.
pub const DEFAULT: &str = "
/// The default value of each field.
impl Default for Value {
    fn default() -> Self {
        g::no_struct::<super::~type~<'_>>().into()
    }
}
";

/// What a value has of a union.
pub const WHICH: &str = "    /// The member of the union that is set.
    pub which: WhichValue,
";

/// How that is read.
pub const OWN_WHICH: &str = "            which: WhichValue::own(it),
";

/// How that is written.
pub const PUT_WHICH: &str = "        self.which.write_to(to);
";

/// A field.
pub const FIELD: &str = "    /// `~line~`
    pub ~call~: ~vtype~,
";

/// A struct as an element of a list.
pub const OWNED: &str = "
impl g::Owned for super::~type~<'_> {
    type Value = Value;

    fn own(item: Self::Item<'_, g::Typed>) -> Value {
        item.into()
    }

    fn write(list: &mut g::ListBuilder<'_, Self>, index: usize, value: &Value) {
        value.write_to(list.at(index));
    }

    fn init<'s>(
        lists: &'s mut g::ListBuilder<'_, g::Lists<Self>>,
        index: usize,
        count: usize,
    ) -> g::ListBuilder<'s, Self> {
        lists.init_structs(index, count)
    }
}
";

/// How fields are written.
pub const PUT_NUMBER: &str = "        to.set_~snake~(self.~call~);
";

/// A group.
pub const PUT_GROUP: &str = "        self.~call~.write_to(to.~call~());
";

/// A text, or data.
pub const PUT_BYTES: &str = "        to.set_~snake~(&self.~call~);
";

/// A text, or data, that is left out if it is empty.
pub const PUT_SOME_BYTES: &str = "        if !self.~call~.is_empty() {
            to.set_~snake~(&self.~call~);
        }
";

/// A list.
pub const PUT_LIST: &str = "        let list = to.init_~snake~(self.~call~.len());
        g::fill(list, &self.~call~);
";

/// A list that is left out if it is empty.
pub const PUT_SOME_LIST: &str = "        if !self.~call~.is_empty() {
            let list = to.init_~snake~(self.~call~.len());
            g::fill(list, &self.~call~);
        }
";

/// A struct.
pub const PUT_STRUCT: &str = "        if let Some(value) = &self.~call~ {
            value.write_to(to.init_~snake~());
        }
";

/// A capability.
pub const PUT_CAPABILITY: &str = "        if let Some(value) = self.~call~ {
            to.set_~snake~(value);
        }
";

/// A union as a value: its type, from a reader, and into a builder.
pub const WHICH_VALUE: &str = "
/// The members of the union of `~full~` as plain values.
#[allow(clippy::large_enum_variant)]
#[derive(Clone, Debug, PartialEq)]
pub enum WhichValue {
~declared~    /// A member that the schema doesn't have, by its number.
    Unknown(u16),
}

impl WhichValue {
    fn own(it: &super::~type~<'_>) -> Self {
        match it.which() {
~owned~            Which::Unknown(number) => WhichValue::Unknown(number),
        }
    }

    /// Sets the member, with its value.
    pub fn write_to(&self, mut to: Builder<'_>) {
        match self {
~puts~            WhichValue::Unknown(number) => {
                to.0.set(~tag~, *number);
            }
        }
    }
}
";

/// How members are read. One without a value.
pub const OWN_VOID: &str = "            Which::~variant~ => WhichValue::~variant~,
";

/// The same in three lines.
pub const OWN_VOID_LONG: &str = "            Which::~variant~ => {
                WhichValue::~variant~
            }
";

/// One whose value isn't kept.
pub const OWN_TAG: &str = "            Which::~variant~(_) => WhichValue::~variant~,
";

/// The same in three lines.
pub const OWN_TAG_LONG: &str = "            Which::~variant~(_) => {
                WhichValue::~variant~
            }
";

/// One with a value.
pub const OWN_MEMBER: &str = "            Which::~variant~(member) => WhichValue::~variant~(~mown~),
";

/// The same in three lines.
pub const OWN_MEMBER_LONG: &str = "            Which::~variant~(member) => {
                WhichValue::~variant~(~mown~)
            }
";

/// How members are written. One without a value.
pub const MEMBER_VOID: &str = "            WhichValue::~variant~ => {
                to.set_~snake~();
            }
";

/// One whose value isn't kept.
pub const MEMBER_TAG: &str = "            WhichValue::~variant~ => {
                to.0.set(~tag~, ~number~u16);
            }
";

/// A number.
pub const MEMBER_NUMBER: &str = "            WhichValue::~variant~(value) => {
                to.set_~snake~(*value);
            }
";

/// A text, or data.
pub const MEMBER_BYTES: &str = "            WhichValue::~variant~(value) => {
                to.set_~snake~(value);
            }
";

/// A struct.
pub const MEMBER_STRUCT: &str = "            WhichValue::~variant~(Some(value)) => {
                value.write_to(to.init_~snake~());
            }
            WhichValue::~variant~(None) => {
                to.0.set(~tag~, ~number~u16);
            }
";

/// A group.
pub const MEMBER_GROUP: &str = "            WhichValue::~variant~(value) => {
                value.write_to(to.init_~snake~());
            }
";

/// A list.
pub const MEMBER_LIST: &str = "            WhichValue::~variant~(value) => {
                let list = to.init_~snake~(value.len());
                g::fill(list, value);
            }
";

/// A capability.
pub const MEMBER_CAPABILITY: &str = "            WhichValue::~variant~(value) => {
                to.0.set(~tag~, ~number~u16);
                if let Some(value) = value {
                    to.set_~snake~(*value);
                }
            }
";
