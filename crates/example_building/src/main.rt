//! Builds a message over several segments, reads it back, and makes a canonical copy of it.
#![tactic(auto)]

ghost use Rattle.std.specs.Prelude.{◌≤◌, IfOk};
ghost use Rattle.capnp_format.specs.Segments.{IsPlace};
ghost use Rattle.capnp_arena_traits.specs.Allocations.{max_segment_words};

use capnp_arena::arena::{
    BuilderArena, BuilderArenaImpl, HeapAllocator, ReaderArena, ReaderArenaImpl, ReaderOptions,
};
use capnp_builders::builders::PointerBuilder;
use capnp_readers::readers::PointerReader;
use capnp_words::error::ErrorKind;
use capnp_words::read_limiter::ReadLimiter;
use capnp_words::wire_pointer::StructSize;
use std::alloc::{AllocError, Global};
use std::io;
use std::process::ExitCode;
use thiserror::Error;

/// A message being built, in segments on the heap.
type Built = BuilderArenaImpl<HeapAllocator>;

/// A struct of one word of data and one pointer.
const SIZE: StructSize = StructSize {
    data_words: 1,
    pointers: 1,
};

/// Why the program ends early.
#[derive(Debug, Drop, Error)]
enum Failure {
    #[error(transparent)]
    Layout(#[from] ErrorKind),
    #[error(transparent)]
    Print(#[from] io::Error),
    #[error(transparent)]
    Memory(#[from(alloc)] AllocError),
}

/// Makes a message with a null root. Each segment gets room for `words` words, or for more if an
/// object needs more.
fn empty_message(alloc: Global, words: u32) -> Result<Built, ErrorKind>
    requires { words ≤ max_segment_words }
    ensures { IfOk result (λ b. IsPlace (⟦<Built as BuilderArena>⟧.view b).words 0 0) }
{
    let mut built = BuilderArenaImpl::new(alloc, HeapAllocator::new(alloc, words));
    built.allocate_segment(1)?;
    let _root = built.allocate(0, 1);
    Ok(built)
}

/// Builds a message: a struct with a number and a text. A segment has room for two words unless an
/// object needs more, so each object is in a segment of its own, after a landing pad.
fn build_message(alloc: Global) -> Result<Built, ErrorKind> {
    let mut built = empty_message(alloc, 2)?;
    let mut root = PointerBuilder::get_root(&mut built).init_struct(SIZE)?;
    root.set_data_field(0, 7u64);
    root.get_pointer_field(0).set_text(b"a")?;
    Ok(built)
}

/// Makes a canonical copy, in one segment, of a message that was built.
fn canonicalize(alloc: Global, from: &Built) -> Result<Built, ErrorKind> {
    let mut built = empty_message(alloc, 1024)?;
    // Reading a message being built is free, so the limiter is never charged.
    let mut limiter = ReadLimiter::new(None);
    let root = PointerReader::get_root_from_arena(from, &mut limiter)?;
    PointerBuilder::get_root(&mut built).copy_from(root, &mut limiter, true)?;
    Ok(built)
}

/// Prints the words of each segment, one a line.
fn print_segments(rt: &(impl Print + AllocGlobal), built: &Built) -> Result<(), Failure> {
    // The output segments are read like any input.
    let output = built.get_segments_for_output()?;
    let arena = ReaderArenaImpl::new(output, ReaderOptions::default());
    for id in 0..built.len() as u32 {
        println!(rt; "segment {id}")?;
        for word in arena.get_segment(id)?.chunks_exact(8) {
            println!(rt; "{}", hex::encode(rt.alloc(), word)?)?;
        }
    }
    Ok(())
}

/// Reads the number and the text back. Prints the number, and the text's length.
fn print_value(rt: &impl Print, built: &Built) -> Result<(), Failure> {
    let mut limiter = ReadLimiter::new(None);
    let root = PointerReader::get_root_from_arena(built, &mut limiter)?;
    let value = root.get_struct(&mut limiter, None)?;
    let number: u64 = value.get_data_field(0);
    let text = value.get_pointer_field(0).get_text(&mut limiter, None)?;
    println!(rt; "number {number}, text of {} byte", text.len())?;
    Ok(())
}

/// Builds the message, and prints its segments, its value, and its canonical copy.
fn build_and_print(rt: &(impl Print + AllocGlobal)) -> Result<(), Failure> {
    let built = build_message(rt.alloc())?;
    print_segments(rt, &built)?;
    print_value(rt, &built)?;
    println!(rt; "canonical")?;
    print_segments(rt, &canonicalize(rt.alloc(), &built)?)
}

fn main(rt: HostRuntime) -> Result<ExitCode, Failure> {
    build_and_print(&rt)?;
    Ok(ExitCode::SUCCESS)
}
