//! Builders for C: a message of one segment in the caller's buffer. Its whole state is the buffer
//! and the number of its allocated words, so a call takes both, and nothing else is kept between
//! calls. No call takes memory.
//!
//! A place may be any: if it isn't inside of the message, or the message isn't inside of the
//! buffer, the call is refused with `BAD_PLACE`, and changes nothing. A function returns 0 if it
//! succeeded, otherwise the number of a refusal.

mod copies;
mod elements;
mod fields;
mod near;
mod numbers;
mod objects;
mod opening;
mod places;
mod texts;
