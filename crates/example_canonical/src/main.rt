//! Makes a canonical copy of a message of two segments, and prints the copy's words: the bytes that
//! programs have to agree on before they hash, sign or compare a value.
#![tactic(auto)]

ghost use Rattle.std.specs.Prelude.{◌≡◌, ◌∷◌, [], ℕ, IfOk, map};
ghost use Rattle.capnp_format.specs.Bytes.{message};
ghost use Rattle.capnp_format.specs.Canonical.{encoding, trim};
ghost use Rattle.capnp_format.specs.Means.{Means};
ghost use Rattle.capnp_format.specs.Tree.{Tree};

use capnp_arena::arena::{
    BuilderArena, BuilderArenaImpl, HeapAllocator, ReaderArena, ReaderArenaImpl, ReaderOptions,
    SegmentArray,
};
use capnp_builders::builders::PointerBuilder;
use capnp_readers::readers::PointerReader;
use capnp_words::error::ErrorKind;
use capnp_words::read_limiter::ReadLimiter;
use std::alloc::Global;
use std::io;
use std::process::ExitCode;

/// Segment 0: the root pointer, and a struct with two data words, 2026 and zero, and one pointer.
const FIRST: [u8; 32] = [
    0, 0, 0, 0, 2, 0, 1, 0, // the root: the struct starts at the next word
    0xea, 7, 0, 0, 0, 0, 0, 0, // 2026, the lowest byte first
    0, 0, 0, 0, 0, 0, 0, 0, // zero, which the canonical form leaves out
    2, 0, 0, 0, 1, 0, 0, 0, // a far pointer to word 0 of segment 1
];

/// Segment 1: the landing pad of the struct's pointer, and the text that this pointer leads to.
const SECOND: [u8; 24] = [
    1, 0, 0, 0, 0x52, 0, 0, 0, // a list of 10 bytes starts at the next word
    b'c', b'a', b'n', b'o', b'n', b'i', b'c', b'a', // its bytes, the last of them zero
    b'l', 0, 0, 0, 0, 0, 0, 0,
];

/// A message being built, in segments on the heap.
type Built = BuilderArenaImpl<HeapAllocator>;

/// Makes a canonical copy of a message, in one segment. Refuses with `MessageTooLarge` if the copy
/// has more than 1024 words.
///
/// The `ensures` clause is proved for all bytes that the segments can hold: after `Ok`, the only
/// segment of the result has exactly the canonical words of the root's value. The root is word 0 of
/// segment 0, and is read with a nesting limit of 64.
fn canonicalize(alloc: Global, segments: &[&[u8]]) -> Result<Built, ErrorKind>
    ensures { let from = message (map (λ s. s.now) segments.now) in
        IfOk result (λ b. (t : Tree) × (c : ℕ) × Means from 64 0 0 t c
        × ((⟦<Built as BuilderArena>⟧.view b).words ≡ encoding (trim t) ∷ [])) }
{
    // The message is read in place: at most 8,388,608 words of it, and 64 levels deep.
    let options = ReaderOptions::default();
    let segments = SegmentArray::new(segments).ok_or(ErrorKind::MessageTooLarge(usize::MAX))?;
    let source = ReaderArenaImpl::new(segments, options);
    let mut limiter = ReadLimiter::new(options.traversal_limit_in_words);
    let root = PointerReader::get_root_from_arena(&source, &mut limiter)?;

    // The copy goes into a message of one segment, whose first word is its root.
    let mut built = BuilderArenaImpl::new(alloc, HeapAllocator::new(alloc, 0));
    built.allocate_segment(1024)?;
    let _root = built.allocate(0, 1);
    PointerBuilder::get_root(&mut built).copy_from(root, &mut limiter, true)?;

    // What doesn't fit there goes into further segments; the copy isn't canonical then.
    if built.len() != 1 {
        return Err(ErrorKind::MessageTooLarge(1024));
    }
    Ok(built)
}

/// Prints the words of a message of one segment, one a line.
fn print_words(rt: &(impl Print + AllocGlobal), built: &Built) -> io::Result<()> {
    if let Ok(words) = built.get_segment(0) {
        for word in words.chunks_exact(8) {
            println!(rt; "{}", hex::encode(rt.alloc(), word)?)?;
        }
    }
    Ok(())
}

fn main(rt: HostRuntime) -> io::Result<ExitCode> {
    match canonicalize(rt.alloc(), &[&FIRST, &SECOND]) {
        Ok(built) => {
            print_words(&rt, &built)?;
            Ok(ExitCode::SUCCESS)
        }
        Err(kind) => {
            println!(rt; "refused {}", kind.name())?;
            Ok(ExitCode::FAILURE)
        }
    }
}
