//! Reads the schema compiler's request from standard input.

use crate::noted::Noted;
use crate::request::{Request, read_request};
use anyhow::{Result, anyhow};
use capnp_arena::arena::{ReaderArena, ReaderArenaImpl, ReaderOptions};
use capnp_framing::devices::ReaderInput;
use capnp_framing::framing::read;
use capnp_words::read_limiter::ReadLimiter;
use schema_reading::code_generator_request;

/// The most words of a request.
const MAX_WORDS: u64 = 1 << 28;

/// Reads the request that standard input has. `noted` notes what is refused later than its frame and
/// its root.
pub fn read_standard_input(rt: &(impl Input + AllocGlobal), noted: &mut Noted) -> Result<Request> {
    let mut input = ReaderInput::new(rt.reader());
    let Some(segments) = read(rt.alloc(), &mut input, MAX_WORDS)? else {
        return Err(anyhow!("no request: run this program by `capnp compile`"));
    };
    // the compiler is trusted, so the traversal isn't limited
    let mut limiter = ReadLimiter::new(None);
    let arena = ReaderArenaImpl::new(segments, ReaderOptions::default());
    read_message(&arena, &mut limiter, noted)
}

// Reads the request that a message is.
fn read_message<A: ReaderArena>(
    arena: &A,
    lim: &mut ReadLimiter,
    noted: &mut Noted,
) -> Result<Request> {
    let root = code_generator_request::Reader::root(arena, lim)?;
    Ok(read_request(root, lim, noted))
}

/// The name of a file without its folders and its last ending.
pub fn stem(file: &str) -> &str {
    let (_, name) = file.rsplit_once('/').unwrap_or(("", file));
    let (stem, _) = name.rsplit_once('.').unwrap_or((name, ""));
    stem
}
