//! Reads the frame of a message from standard input, makes a canonical copy of the message, and
//! writes the copy's frame to standard output: what a program does with a message before it hashes
//! or signs its bytes.
#![tactic(auto)]

ghost use Rattle.std.specs.Prelude.{◌≡◌, ◌∷◌, [], ℕ, false, OnOk};
ghost use Rattle.capnp_format.specs.Bytes.{message};
ghost use Rattle.capnp_format.specs.Canonical.{encoding, trim};
ghost use Rattle.capnp_format.specs.Means.{Means};
ghost use Rattle.capnp_format.specs.Tree.{Tree};
ghost use Rattle.capnp_arena_traits.specs.Limits.{IsSmall};
ghost use Rattle.capnp_framing.specs.Frames.{frame};
ghost use Rattle.capnp_framing.specs.Writing.{Prints};

use capnp_arena::arena::{ReaderArenaImpl, ReaderOptions, ReaderSegments};
use capnp_framing::devices::{Output, ReaderInput, WriterOutput};
use capnp_framing::framing::{OwnedSegments, read};
use capnp_messages::messages::{CanonicalError, write_canonical};
use capnp_readers::readers::PointerReader;
use capnp_words::read_limiter::ReadLimiter;
use std::alloc::Global;
use std::io;
use std::process::ExitCode;

/// Writes a message's value as the frame of a canonical message.
///
/// The `ensures` clause is proved: after `Ok`, what was written is a frame of one segment, which
/// has exactly the canonical words of the root's value. The root is word 0 of segment 0, and is
/// read with a nesting limit of 64.
fn write_canonical_message<W: Output>(
    alloc: Global,
    segments: OwnedSegments,
    output: &mut W,
) -> Result<(), CanonicalError>
    requires small { IsSmall (⟦<OwnedSegments as ReaderSegments>⟧.segments segments) }
    requires works { W.has_failed output.old ≡ false }
    ensures { let from = message (⟦<OwnedSegments as ReaderSegments>⟧.segments segments) in
        OnOk result ((t : Tree) × (c : ℕ) × Means from 64 0 0 t c
        × Prints W.Output output.old output.new (frame (encoding (trim t) ∷ []))) }
{
    // The message is read in place: at most 8,388,608 words of it, and 64 levels deep.
    let options = ReaderOptions::default();
    let source = ReaderArenaImpl::new(segments, options);
    let mut limiter = ReadLimiter::new(options.traversal_limit_in_words);
    match PointerReader::get_root_from_arena(&source, &mut limiter) {
        Ok(root) => write_canonical(alloc, output, root.pointer(), &mut limiter),
        Err(kind) => Err(CanonicalError::Layout(kind)),
    }
}

/// Reads a message of at most 8,388,608 words, and writes it by `write_canonical_message`. Writes
/// nothing if the input is empty.
fn canonicalize_input(rt: &(impl Input + Print + AllocGlobal)) -> Result<(), CanonicalError> {
    let mut input = ReaderInput::new(rt.reader());
    let mut output = WriterOutput::new(io::writer(rt));
    match read(rt.alloc(), &mut input, 8_388_608) {
        Ok(Some(segments)) => write_canonical_message(rt.alloc(), segments, &mut output),
        Ok(None) => Ok(()),
        Err(error) => Err(CanonicalError::Frame(error)),
    }
}

fn main(rt: HostRuntime) -> io::Result<ExitCode> {
    match canonicalize_input(&rt) {
        Ok(()) => Ok(ExitCode::SUCCESS),
        Err(error) => {
            eprintln!(rt; "refused {}", error.name())?;
            Ok(ExitCode::FAILURE)
        }
    }
}
