//! The program `layout_tool`. By its first argument, it writes the canonical words of a message
//! (`canon`), whether the message is in canonical form (`check`), the message's size (`size`), its
//! frame (`frame`), or the frame of its canonical words (`framed-canon`). For these, the input has
//! a line of hex digits for each segment of the message. For `unframe` and `framed-check`, the
//! input is one line of hex digits that starts with a frame: the program writes the segments of the
//! message in that frame, or whether that message is canonical.
//!
//! `NESTING WORDS` follow each of these arguments but `frame` and `unframe`: the nesting limit, and
//! the traversal limit in words.
#![tactic(auto)]

use capnp_layout::devices::{ReaderInput, WriterOutput};
use capnp_layout::error::ErrorKind;
use capnp_layout::tool::{self, Args, Outcome};
use std::alloc::AllocError;
use std::env;
use std::io::{self, BufWriter};
use std::process::ExitCode;

/// How the program is called.
const USAGE: &str = "Usage: layout_tool canon NESTING WORDS
  or:  layout_tool check NESTING WORDS
  or:  layout_tool size NESTING WORDS
  or:  layout_tool frame
  or:  layout_tool unframe
  or:  layout_tool framed-canon NESTING WORDS
  or:  layout_tool framed-check NESTING WORDS
Reads one message from standard input as hex digits: a line for each segment; for unframe and
framed-check, one line with a frame. NESTING is the nesting limit, and WORDS the traversal limit in
words; none is no limit.";

fn main(rt: HostRuntime) -> ExitCode {
    match run_program(&rt) {
        Ok(code) => code,
        Err(AllocError) => report_refusal(&rt, ErrorKind::AllocationFailed),
    }
}

/// Runs the tool. Fails only if there is no memory for the arguments or the output's buffer, and
/// then writes nothing.
fn run_program(rt: &HostRuntime) -> Result<ExitCode, AllocError> {
    let Some(given) = collect_arguments(rt)? else {
        return Ok(print_error(rt, "bad arguments"));
    };
    if given.len() == 1 && given[0].as_str() == "--help" {
        return Ok(print_text(rt, USAGE));
    }
    let Some(args) = tool::parse_args(given.as_slice()) else {
        return Ok(print_error(rt, "bad arguments"));
    };
    Ok(match run(rt, &args)? {
        Outcome::Done => ExitCode::SUCCESS,
        Outcome::Refused => ExitCode::from(1),
        Outcome::BadInput => print_error(rt, "bad input"),
        Outcome::WriteFailed => ExitCode::from(2),
    })
}

/// The arguments without the program's name; `None` if an argument isn't text.
fn collect_arguments(rt: &HostRuntime) -> Result<Option<Vec<String>>, AllocError> {
    let given = match env::args(rt) {
        Ok(given) => given,
        Err(error) if error.kind() == io::ErrorKind::OutOfMemory => return Err(AllocError),
        Err(_) => return Ok(None),
    };
    let mut words = Vec::new(rt.alloc());
    for word in given.skip(1) {
        words.push(word)?;
    }
    Ok(Some(words))
}

/// Runs the tool from standard input to standard output.
fn run(rt: &HostRuntime, args: &Args) -> Result<Outcome, AllocError> {
    let Ok(writer) = BufWriter::new(rt.alloc(), io::writer(rt)) else {
        return Err(AllocError);
    };
    let mut input = ReaderInput::new(rt.reader());
    let mut output = WriterOutput::new(writer);
    let outcome = tool::run(rt.alloc(), args, &mut input, &mut output);
    Ok(match output.flush() {
        Ok(()) => outcome,
        Err(_) => Outcome::WriteFailed,
    })
}

/// Prints `text` to standard output.
fn print_text(rt: &HostRuntime, text: &str) -> ExitCode {
    match rt.println(text) {
        Ok(()) => ExitCode::SUCCESS,
        Err(_) => ExitCode::from(2),
    }
}

/// Prints the line that names a refusal.
fn report_refusal(rt: &HostRuntime, kind: ErrorKind) -> ExitCode {
    match println!(rt; "refused {}", kind.name()) {
        Ok(()) => ExitCode::from(1),
        Err(_) => ExitCode::from(2),
    }
}

/// Reports `text` on standard error, if possible.
fn print_error(rt: &HostRuntime, text: &str) -> ExitCode {
    let _ = eprintln!(rt; "{text}");
    ExitCode::from(2)
}
