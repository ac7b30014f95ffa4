//! Reads and writes the segments of a message in a stream of bytes, and makes and tests whole
//! messages in canonical form (encoding specification, "Serialization Over a Stream" and
//! "Canonicalization").

mod writing;

pub use capnp_framing::framing::{
    FrameError, FrameSegments, MAX_SEGMENTS, OwnedSegments, read, read_from_flat_slice, read_into,
    read_into_with, read_segment_into, read_segment_into_with, write,
};
pub use capnp_messages::messages::{
    CanonicalError, CopyMemory, MessageExtent, canonical_bytes, canonical_fault, canonical_segment,
    canonicalize, canonicalize_into, canonicalize_pointer, check, is_canonical_message, laws,
    read_root, size, validate, validate_root, write_copy,
};
pub use capnp_readers::readers::{CanonicalFault, CanonicalFaultReason};
pub use writing::write_canonical;
