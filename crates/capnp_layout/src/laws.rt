//! Functions whose contracts are laws. The functions listed here are laws of the format's
//! definitions; the modules, one for each subject, have laws that follow from the contracts of the
//! crates below.

pub use capnp_builders::laws as builders;
pub use capnp_builders::laws::copies;
pub use capnp_edits::laws as edits;
pub use capnp_format::laws::{
    body_length, canonical_again, canonical_words_are_cheap, canonical_words_mean,
    copied_is_tested, decode_agrees, elements_are_bits, encodings_differ, least_widths,
    levels_from_depth, meaning_is_value, no_encoding_begins_another, one_arena_value, one_meaning,
    one_stands, others_may_change, same_canonical_words, small_is_encodable, tested_is_copied,
    trimming, worked_examples,
};
pub use capnp_framing::laws as frames;
pub use capnp_in_place::laws as contents;
pub use capnp_in_place::laws::widening;
pub use capnp_messages::messages::laws as messages;
pub use capnp_pointers::laws as objects;
pub use capnp_readers::laws as readers;
