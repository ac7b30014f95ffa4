//! The text of generated C. A word between two `~` stands for what `push_filled` puts there.

/// The head of a file.
pub const FILE_HEAD: &str = "#ifndef CAPNP_C_~id~
#define CAPNP_C_~id~

#include \"capnp_layout.h\"

#if CAPNP_LAYOUT_MAJOR != 1
#error \"this header needs version 1 of capnp_layout.h: generate it again by capnpc-layout-c\"
#endif
";

/// What begins the declarations.
pub const OPEN: &str = "
#ifdef __cplusplus
extern \"C\" {
#endif
";

/// What ends them.
pub const CLOSE: &str = "
#ifdef __cplusplus
}
#endif
";

/// The types of a struct.
pub const STRUCT_TYPES: &str = "typedef struct { struct capnp_struct reader; } ~type~;
typedef struct { struct capnp_list reader; } ~type~_list;
typedef struct { struct capnp_struct_builder it; } ~type~_builder;
typedef struct { struct capnp_list_builder it; } ~type~_list_builder;
#define ~type~_TYPE_ID UINT64_C(0x~id~)
";

/// The types of a group.
pub const GROUP_TYPES: &str = "typedef struct { struct capnp_struct reader; } ~type~;
typedef struct { struct capnp_struct_builder it; } ~type~_builder;
";

/// The calls of a struct that isn't a field of another.
pub const STRUCT_CALLS: &str = "
/* ~full~ as the root of a message, and in lists. Words of data: ~words~; pointers: ~pointers~. */
CAPNP_INLINE ~type~ ~type~_root(struct capnp_message *message) {
    ~type~ to;
    to.reader = capnp_root(message);
    return to;
}
CAPNP_INLINE uint32_t ~type~_list_count(const ~type~_list *of) {
    return capnp_count(&of->reader);
}
CAPNP_INLINE ~type~ ~type~_list_at(const ~type~_list *of, uint32_t index) {
    ~type~ to;
    to.reader = capnp_get_element(&of->reader, index);
    return to;
}
CAPNP_INLINE ~type~_builder ~type~_init_root(struct capnp_builder *message) {
    ~type~_builder to;
    to.it = capnp_init_root(message, ~words~, ~pointers~);
    return to;
}
CAPNP_INLINE ~type~_builder ~type~_open_root(struct capnp_builder *message) {
    ~type~_builder to;
    to.it = capnp_open_root(message, ~words~, ~pointers~);
    return to;
}
CAPNP_INLINE uint32_t ~type~_list_builder_count(const ~type~_list_builder *of) {
    return of->it.count;
}
CAPNP_INLINE ~type~_builder ~type~_list_builder_at(const ~type~_list_builder *of, uint32_t index) {
    ~type~_builder to;
    to.it = capnp_builder_element(&of->it, index);
    return to;
}
";

/// The table of a file, and the names of its fields.
pub const TABLE: &str = "
/* What each pointer of these structs, and of those that they lead to, may lead to; and the names of the fields. */
static const uint32_t capnp_table_~id~[] = {~words~
};
static const struct capnp_field_name capnp_names_~id~[] = {~names~
    {0, 0, 0}
};
";

/// The calls that check a message with a struct as its root.
pub const CHECKS: &str = "
/* Checks the whole message, with ~full~ as its root: capnp_check says what holds then. */
CAPNP_INLINE uint32_t ~type~_check(struct capnp_message *message) {
    return capnp_check(message, capnp_table_~id~, sizeof capnp_table_~id~ / 4, ~row~);
}
/* capnp_open_frame, and then ~type~_check. */
CAPNP_INLINE uint32_t ~type~_open(struct capnp_message *message, const uint8_t *frame, size_t size, struct capnp_segment *room,
                                  size_t rooms, size_t *used) {
    capnp_open_frame(message, frame, size, room, rooms, used);
    return ~type~_check(message);
}
/* The name of the field that ~type~_check has refused: capnp_refused_name. */
CAPNP_INLINE const char *~type~_refused(const struct capnp_message *message) {
    return capnp_refused_name(message, \"~full~\", capnp_names_~id~);
}
";

/// The call that says which member of a union is set.
pub const WHICH: &str = "
/* The member of the union of ~full~ that is set: a number of enum ~type~_which, or another of a newer schema. */
CAPNP_INLINE uint16_t ~type~_get_which(const ~type~ *of) {
    return capnp_get_u16(&of->reader, ~tag~, 0);
}
";

/// The statement that reads a field only if it is the member that is set.
pub const MEMBER: &str =
    "    struct capnp_struct member = capnp_member(&of->reader, ~tag~, ~discriminant~);
";

/// The same, for the struct that is copied.
pub const SOURCE_MEMBER: &str =
    "    struct capnp_struct member = capnp_member(&source->reader, ~tag~, ~discriminant~);
";

/// Reads a field.
pub const GET: &str = "CAPNP_INLINE ~gives~ ~type~_~verb~~name~(const ~type~ *of) {
~member~    return ~read~;
}
";

/// Reads a field whose type has a name of its own.
pub const GET_WRAPPED: &str = "CAPNP_INLINE ~gives~ ~type~_~verb~~name~(const ~type~ *of) {
~member~    ~gives~ to;
    to.reader = ~read~;
    return to;
}
";

/// Reads a capability.
pub const GET_CAPABILITY: &str =
    "CAPNP_INLINE bool ~type~_~name~(const ~type~ *of, uint32_t *capability) {
~member~    return capnp_get_capability(~from~, ~index~, capability);
}
";

/// Whether a pointer isn't null.
pub const HAS: &str = "CAPNP_INLINE bool ~type~_has_~name~(const ~type~ *of) {
~member~    return capnp_has(~from~, ~index~);
}
";

/// Sets a field.
pub const SET: &str = "CAPNP_INLINE void ~type~_set_~name~(const ~type~_builder *of~params~) {
~tagged~    ~set~;
}
";

/// Sets a text of a given size.
pub const SET_N: &str = "CAPNP_INLINE void ~type~_set_~name~_n(const ~type~_builder *of~params_n~) {
~tagged~    ~set_n~;
}
";

/// Sets a member without a value.
pub const SET_VOID: &str = "CAPNP_INLINE void ~type~_set_~name~(const ~type~_builder *of) {
~tagged~}
";

/// Sets a field to what the same field of another struct leads to.
pub const COPY: &str =
    "CAPNP_INLINE void ~type~_copy_~name~(const ~type~_builder *of, const ~type~ *source) {
~source_member~~tagged~    capnp_copy(&of->it, ~index~, ~source~, ~index~);
}
";

/// Makes a new struct, list or pointer.
pub const INIT: &str =
    "CAPNP_INLINE ~init_gives~ ~type~_init_~name~(const ~type~_builder *of~count~) {
~tagged~    return ~init~;
}
";

/// Makes a new struct, or a list of structs.
pub const INIT_WRAPPED: &str =
    "CAPNP_INLINE ~built~ ~type~_init_~name~(const ~type~_builder *of~count~) {
    ~built~ to;
~tagged~    to.it = ~init~;
    return to;
}
";

/// Opens the struct that is there.
pub const OPEN_STRUCT: &str = "CAPNP_INLINE ~built~ ~type~_open_~name~(const ~type~_builder *of) {
    ~built~ to;
~tagged~    to.it = ~open~;
    return to;
}
";

/// The builder of a group.
pub const BUILD_GROUP: &str = "CAPNP_INLINE ~built~ ~type~_build_~name~(const ~type~_builder *of) {
    ~built~ to;
~tagged~    to.it = of->it;
    return to;
}
";

/// Sets a member that is a group, and makes its fields zero or null.
pub const INIT_GROUP: &str = "CAPNP_INLINE ~built~ ~type~_init_~name~(const ~type~_builder *of) {
    ~built~ to;
~tagged~~zeros~    to.it = of->it;
    return to;
}
";

/// The default value of a pointer.
pub const DEFAULT: &str = "static const uint8_t ~type~_default_~name~_bytes[] = {~array~};
CAPNP_DEFAULT(~type~_default_~name~, ~type~_default_~name~_bytes);
";
