//! What the calls of generated builders are made of. Each call has lines for `Values::put_lines`, in
//! place of some of those of `ANY`, and is written by `write_call`.

use crate::parts::builder_template;
use crate::writing::Module;
use capnpc_schema::text::{Lines, Values};

/// Writes the call that these words describe. `values` has what else its parts need.
pub fn write_call(module: &mut Module, lines: Lines, values: &mut Values) {
    values.put_lines(ANY);
    values.put_lines(lines);
    if !values.get("comment").is_empty() {
        module.begin_item();
    }
    write_parts(module, "comment", values);
    module.push_signature("~start~(", ")~end~\n", values);
    write_parts(module, "clauses", values);
    if !values.get("call").is_empty() {
        write_body(module, values);
    }
}

// Writes the body of a call.
fn write_body(module: &mut Module, values: &Values) {
    module.body.push("    {\n");
    write_parts(module, "let", values);
    if !values.get("items").is_empty() {
        module.push_statement("let slots = [", "items", "];\n", values);
    }
    module.push_statement("~before~~call~(", "args", ")~after~\n", values);
    write_parts(module, "close", values);
}

// Writes the parts that a word names. Their names have a space between them.
fn write_parts(module: &mut Module, word: &str, values: &Values) {
    for name in values.get(word).split(' ') {
        module.push_filled(builder_template(name), values);
    }
}

// What a call has if its own lines don't say otherwise: no comment of its own, the parameters of a call
// that writes, no result, no body after its clauses, and if there is one, the tag of a union's member
// before it.
const ANY: Lines = "comment=
params=self;arena: &mut A
end=
call=
let=~tagging~
before=
after=
close=end";

/// What a field that isn't in a union puts for its calls.
pub const FIELD: Lines = "kind=Field
tagging=
object=object
child=child
copied=copy
of_call=number_of_call
zeroes=zeroes { ZeroesSlots
replaces=ReplacesSlots";

/// What a member of a union puts for its calls. `values` has its number and the offset of the tag.
pub const MEMBER: Lines = "kind=Member
end_of_kind=Member
suffix=_member
tagging=tag
tagged=(tagged ~tag_offset~ ~tag~)\x20
tag_arg=tag;
object=
child=member allocates
copied=copy_member
of_call=member_of_call
zeroes=begins { BeginsGroup
replaces=ReplacesGroup";

/// What a list of structs needs, if they have no words.
pub const NO_WORDS: Lines = "few_structs=count < 2 ^ 30";

/// What another list of structs needs.
pub const WORDS: Lines = "few_structs=count * ~words~ < 2 ^ 29";

/// Sets a number, a bit or an enum.
pub const SET_NUMBER: Lines = "start=pub fn set_~snake~<A: BuilderArena>
params=self;arena: &mut A;value: ~value_type~
clauses=there grows field writes
call=value::~function~~suffix~
args=arena;self.place;~tag_arg~~index~;~argument~~default~
after=;";

/// Sets a member of a union that has no value.
pub const SET_VOID: Lines = "start=pub fn set_~snake~<A: BuilderArena>
clauses=there grows tagged writes
call=value::set_tag
args=arena;self.place;tag
after=;";

/// Sets a text.
pub const SET_TEXT: Lines = "few=length text.now + 1 < 2 ^ 29
tree=Flat 2 (text.now ++ 0 ∷ [])
all_words=(words_for 2 (length text.now + 1))
start=pub fn set_~snake~<A: BuilderArena>
params=self;arena: &mut A;text: &[u8]
end= -> Result<(), ErrorKind>
clauses=there_and_few ~object~ grows ~child~
call=value::set_text~suffix~
args=arena;self.place;~tag_arg~~index~;text";

/// Sets data.
pub const SET_DATA: Lines = "few=length contents.now < 2 ^ 29
tree=Flat 2 contents.now
all_words=(words_for 2 (length contents.now))
start=pub fn set_~snake~<A: BuilderArena>
params=self;arena: &mut A;contents: &[u8]
end= -> Result<(), ErrorKind>
clauses=there_and_few ~object~ grows ~child~
call=value::set_data~suffix~
args=arena;self.place;~tag_arg~~index~;contents";

/// Sets a capability.
pub const SET_CAPABILITY: Lines = "start=pub fn set_~snake~<A: BuilderArena>
params=self;arena: &mut A;capability: u32
clauses=there grows capability writes
call=value::set_capability~suffix~
args=arena;self.place;~tag_arg~~index~;capability
after=;";

/// Makes a new struct.
pub const INIT_STRUCT: Lines = "tree=zero_struct ~module~_size
all_words=~words~
start=pub fn init_~snake~<A: BuilderArena>
end= -> Result<~path~Builder, ErrorKind>
clauses=there ~object~ grows struct_there struct_made ~child~
call=places::init_struct~suffix~
args=arena;self.place;~tag_arg~~index~;~path~SIZE";

/// Makes a new list of structs.
pub const INIT_STRUCTS: Lines = "tree=zero_structs count ~module~_size
few=~few_structs~
all_words=(1 + count * ~words~)
start=pub fn init_~snake~<A: BuilderArena>
params=self;arena: &mut A;count: u32
end= -> Result<~path~Builders, ErrorKind>
clauses=there_and_few ~object~ grows structs_there structs_made ~child~
call=places::init_struct_list~suffix~
args=arena;self.place;~tag_arg~~index~;count;~path~SIZE";

/// Makes a new list whose elements aren't structs.
pub const INIT_LIST: Lines = "few=count < 2 ^ 29
tree=zero_list ~size_number~ count
all_words=(list_words ~size_number~ count)
start=pub fn init_~snake~<A: BuilderArena>
params=self;arena: &mut A;count: u32
end= -> Result<ListPlace, ErrorKind>
clauses=there_and_few ~object~ grows list_there list_made ~child~
call=value::init_list~suffix~
args=arena;self.place;~tag_arg~~index~;ElementSize::~size~;count";

/// Returns the builder of a group.
pub const GET_GROUP: Lines = "comment=group_field
start=pub fn get_~snake~
params=self
end= -> ~path~Builder
clauses=group";

/// Makes the fields of a group zero, and returns its builder.
pub const INIT_GROUP: Lines = "comment=group_about
start=pub fn init_~snake~<A: BuilderArena>
end= -> ~path~Builder
clauses=there grows zeroes
call=groups::zero_slots~suffix~
args=arena;self.place;~tag_arg~~array~
after=;
close=group_end";

/// Copies a value. `values` has the type of its argument, what that shows, what becomes of it, and the
/// call that does it.
pub const COPY: Lines = "comment=copy_about
start=pub fn set_~snake~<A: BuilderArena, B: ReaderArena>
params=self;arena: &mut A;from: ~from~;lim: &mut ReadLimiter
end= -> Result<(), ErrorKind>
clauses=there copy_fits grows ~copied~
call=copying::~copier~~suffix~
args=arena;self.place;~tag_arg~~index~;~source~;lim";

/// Returns a number, a bit or an enum.
pub const GET_NUMBER: Lines = "comment=returns
start=pub fn get_~snake~<A: BuilderArena>
params=self;arena: &A
end= -> ~gives~
clauses=here ~getter~";

/// Returns which member of a union is set.
pub const WHICH: Lines = "path=~reading~::~module~::
gives=Result<~path~Which, NotInSchema>
read=reading::get_number(arena, self.place, ~index~)
comment=returns_member
start=pub fn which<A: BuilderArena>
params=self;arena: &A
end= -> ~gives~
clauses=here get_enum";

/// Returns the number of the member of a union that is set.
pub const WHICH_NUMBER: Lines = "gives=u16
read=reading::get_number(arena, self.place, ~index~)
comment=returns_member_number
start=pub fn which<A: BuilderArena>
params=self;arena: &A
end= -> ~gives~
clauses=here get_unsigned";

/// Opens a struct.
pub const OPEN_STRUCT: Lines = "comment=open_struct_about
start=pub fn get_~snake~<A: BuilderArena>
end= -> Result<~path~Builder, ErrorKind>
clauses=there open_struct
let=
call=places::get_struct
args=arena;self.place;~index~;~path~SIZE";

/// Opens a list of structs.
pub const OPEN_STRUCTS: Lines = "comment=open_structs_about
start=pub fn get_~snake~<A: BuilderArena>
end= -> Result<~path~Builders, ErrorKind>
clauses=there open_structs
let=
call=places::get_struct_list
args=arena;self.place;~index~;~path~SIZE";

/// Returns a list whose elements aren't structs.
pub const OPEN_LIST: Lines = "comment=open_list_about
start=pub fn get_~snake~<A: BuilderArena>
params=self;arena: &A
end= -> Result<ListPlace, ErrorKind>
clauses=here open_list";

/// Returns whether a pointer is set.
pub const HAS: Lines = "comment=has_about
start=pub fn has_~snake~<A: BuilderArena>
params=self;arena: &A
end= -> bool
clauses=here has";
