//! The program `capnp_canon`: reads a stream of framed messages from standard input or from files,
//! and for each message writes its canonical copy, its digest, or how large it is, tests whether it
//! is in canonical form, or sound, or shows what it holds; or compares the messages of two files.
//! `capnp_canon --help` explains the arguments.
#![tactic(auto)]

mod conforming;
mod diffs;
mod inputs;
mod lists;
mod own_options;
mod progress;
mod schema;
mod texts;

use capnp_packing::buffered::{BufWriterOutput, BufferedOutput};
use capnp_packing::packing::PackingOutput;
use capnp_streams::device_log::{DeviceLog, Logged};
use capnp_streams::devices::{BoundedOutput, NoOutput};
use capnp_streams::streams::{
    self, ArgumentFault, DiffTask, Request, ShowTask, Task, WrongArgument,
};
use diffs::compare_files;
use inputs::{Unanswered, answer_all, show_all};
use own_options::{SchemaFault, split_arguments};
use progress::{Session, Watched};
use schema::{Schema, read_schema};
use std::alloc::AllocError;
use std::env;
use std::io::{self, BufWriter};
use std::process::ExitCode;
use texts::{HELP, HINT, NO_MEMORY, NO_TEXT, TWO_FILES, VERSION, WRITE_ERROR, error_text};

/// The size in bytes of the input buffer, and of the output buffer.
const BUFFER: usize = 1 << 16;

fn main(rt: HostRuntime) -> ExitCode {
    match run_program(&rt) {
        Ok(code) => code,
        Err(AllocError) => print_error(&rt, NO_MEMORY),
    }
}

/// Runs the command that the program's arguments ask for, and returns the exit status. Fails only
/// if there is no memory for the arguments, and then reads and writes nothing.
fn run_program(rt: &HostRuntime) -> Result<ExitCode, AllocError> {
    let Some(args) = collect_arguments(rt)? else {
        let _ = rt.eprintln(NO_TEXT);
        return Ok(print_error(rt, HINT));
    };
    let split = split_arguments(rt.alloc(), args.as_slice())?;
    let args = split.others.as_slice();
    let request = match streams::parse_args(args) {
        Err(wrong) => return Ok(report_usage_error(rt, args, wrong)),
        Ok(Request::Help) => return Ok(print_text(rt, HELP)),
        Ok(Request::Version) => return Ok(print_text(rt, VERSION)),
        Ok(request) => request,
    };
    if let Some(fault) = split.schema_fault(request) {
        return Ok(report_schema_fault(rt, split.schema_text(), fault));
    }
    let files = streams::named_files(rt.alloc(), args)?;
    let session = Session::new(rt, split.progress);
    Ok(run_request(&session, request, split.schema_text(), files.as_slice()))
}

/// Does what `request` asks for with `files`, and returns the exit status. `schema` is the value of
/// `--schema`; empty if there is none.
fn run_request(
    session: &Session<'_>,
    request: Request,
    schema: &str,
    files: &[String],
) -> ExitCode {
    match request {
        Request::Run(task) if schema.is_empty() => run(session, task, None, files),
        Request::Run(task) => match read_schema(session.rt, schema) {
            Some(schema) => run(session, task, Some(&schema), files),
            None => ExitCode::from(2),
        },
        Request::Show(task) => show(session, task, files),
        Request::Diff(task) => diff(session, task, files),
        Request::Help | Request::Version => ExitCode::SUCCESS,
    }
}

/// Reports why `--schema` with the value `text` is refused, and how to get help, and returns
/// status 2.
fn report_schema_fault(rt: &HostRuntime, text: &str, fault: SchemaFault) -> ExitCode {
    match fault {
        SchemaFault::MissingValue => print_about(rt, "option '", "--schema", "' needs a value"),
        SchemaFault::InvalidValue => print_invalid_value(rt, text, "--schema"),
        SchemaFault::NotOfCommand(command) => {
            print_both(rt, "'", command, "' has no option '", "--schema");
        }
    }
    print_error(rt, HINT)
}

/// Returns the arguments without the program's name; `None` if one of them isn't UTF-8.
fn collect_arguments(rt: &HostRuntime) -> Result<Option<Vec<String>>, AllocError> {
    let given = match env::args(rt) {
        Ok(given) => given,
        Err(error) if error.kind() == io::ErrorKind::OutOfMemory => return Err(AllocError),
        Err(_) => return Ok(None),
    };
    let mut args = Vec::new(rt.alloc());
    for arg in given.skip(1) {
        args.push(arg)?;
    }
    Ok(Some(args))
}

/// Reports which argument is wrong or missing, and how to get help, and returns status 2.
fn report_usage_error(rt: &HostRuntime, args: &[String], wrong: WrongArgument) -> ExitCode {
    let text = match args.get(wrong.at) {
        Some(arg) => arg.as_str(),
        None => "",
    };
    match wrong.fault {
        ArgumentFault::MissingCommand => print_about(rt, "missing command", "", ""),
        ArgumentFault::UnknownCommand => print_about(rt, "unknown command '", text, "'"),
        ArgumentFault::UnknownOption => print_about(rt, "unrecognized option '", text, "'"),
        ArgumentFault::MissingValue(option) => {
            print_about(rt, "option '", option.text(), "' needs a value");
        }
        ArgumentFault::InvalidValue(option) => print_invalid_value(rt, text, option.text()),
        ArgumentFault::InvalidAssignment(option) => {
            print_invalid_value(rt, assigned_value(text), option.text());
        }
        ArgumentFault::UnwantedValue(option) => {
            print_about(rt, "option '", option.text(), "' doesn't allow a value");
        }
        ArgumentFault::NotOfCommand(subcommand, option) => {
            print_both(
                rt,
                "'",
                subcommand.text(),
                "' has no option '",
                option.text(),
            );
        }
        ArgumentFault::Excluded(first, second) => {
            print_both(
                rt,
                "'",
                first.text(),
                "' can't be combined with '",
                second.text(),
            );
        }
        ArgumentFault::Needs(first, second) => {
            print_both(rt, "option '", first.text(), "' needs '", second.text());
        }
    }
    print_error(rt, HINT)
}

/// The part of an argument after its first `=`; the whole argument if it has none.
fn assigned_value(text: &str) -> &str {
    match text.split_once('=') {
        Some((_, value)) => value,
        None => text,
    }
}

/// Writes a line to standard error, if possible: a word, and what is around it.
fn print_about(rt: &HostRuntime, start: &str, word: &str, end: &str) {
    let _ = eprintln!(rt; "capnp_canon: {start}{word}{end}");
}

/// Writes a line to standard error, if possible: two words, what is before each, and a quotation
/// mark.
fn print_both(rt: &HostRuntime, start: &str, first: &str, middle: &str, second: &str) {
    let _ = eprintln!(rt; "capnp_canon: {start}{first}{middle}{second}'");
}

/// Writes to standard error, if possible, that `option` doesn't take `value`.
fn print_invalid_value(rt: &HostRuntime, value: &str, option: &str) {
    let _ = eprintln!(rt; "capnp_canon: invalid value '{value}' for {option}");
}

/// Does `task` with the messages of `files`, or of standard input if there are no files, and writes
/// the answers to standard output. Returns the program's exit status.
fn run(session: &Session<'_>, task: Task, schema: Option<&Schema>, files: &[String]) -> ExitCode {
    let rt = session.rt;
    let seen = DeviceLog::new();
    let writer = Logged::new(Watched::new(io::writer(rt), session), &seen);
    let Ok(writer) = BufWriter::with_capacity(rt.alloc(), BUFFER, writer) else {
        return print_error(rt, NO_MEMORY);
    };
    let mut output = BufWriterOutput::new(writer);
    if task.quiet && !task.lists {
        return run_to(session, task, schema, files, &mut NoOutput, &seen);
    }
    if !task.pack {
        return run_to(session, task, schema, files, &mut output, &seen);
    }
    let mut packing = PackingOutput::new(output);
    run_to(session, task, schema, files, &mut packing, &seen)
}

/// Does `task`, flushes `output`, and returns the program's exit status.
fn run_to<W: BufferedOutput>(
    session: &Session<'_>,
    task: Task,
    schema: Option<&Schema>,
    files: &[String],
    output: &mut W,
    seen: &DeviceLog,
) -> ExitCode {
    let ended = answer_all(session, task, schema, files, output);
    flush_and_choose_exit_code(session, ended, output, seen)
}

/// Shows the messages of `files`, or of standard input if there are no files, on standard output,
/// in at most as many bytes as `task` says. Returns the program's exit status.
fn show(session: &Session<'_>, task: ShowTask, files: &[String]) -> ExitCode {
    let rt = session.rt;
    let seen = DeviceLog::new();
    let writer = Logged::new(Watched::new(io::writer(rt), session), &seen);
    let Ok(writer) = BufWriter::with_capacity(rt.alloc(), BUFFER, writer) else {
        return print_error(rt, NO_MEMORY);
    };
    let most = match task.bytes {
        Some(bytes) => bytes as u64,
        None => u64::MAX,
    };
    let mut output = BoundedOutput::new(BufWriterOutput::new(writer), most);
    let ended = show_all(session, task, files, &mut output);
    if output.is_full() && output.flush().is_ok() {
        session.erase_line();
        let _ = eprintln!(rt; "capnp_canon: the output is cut at {most} bytes");
        return ExitCode::from(2);
    }
    flush_and_choose_exit_code(session, ended, &mut output, &seen)
}

/// Compares the messages of two files, and writes to standard output in what they differ. Returns
/// the program's exit status.
fn diff(session: &Session<'_>, task: DiffTask, files: &[String]) -> ExitCode {
    let rt = session.rt;
    if files.len() != 2 {
        let _ = rt.eprintln(TWO_FILES);
        return print_error(rt, HINT);
    }
    let (left, right) = (files[0].as_str(), files[1].as_str());
    let seen = DeviceLog::new();
    let writer = Logged::new(Watched::new(io::writer(rt), session), &seen);
    let Ok(writer) = BufWriter::with_capacity(rt.alloc(), BUFFER, writer) else {
        return print_error(rt, NO_MEMORY);
    };
    if task.quiet {
        let ended = compare_files(session, task, left, right, &mut NoOutput);
        return flush_and_choose_exit_code(session, ended, &mut NoOutput, &seen);
    }
    let mut output = BufWriterOutput::new(writer);
    let ended = compare_files(session, task, left, right, &mut output);
    flush_and_choose_exit_code(session, ended, &mut output, &seen)
}

/// Erases what shows the progress, flushes `output`, and returns the exit status of a program that
/// has `ended` so. If `output` fails, reports this failure.
fn flush_and_choose_exit_code<W: BufferedOutput>(
    session: &Session<'_>,
    ended: Result<bool, Unanswered>,
    output: &mut W,
    seen: &DeviceLog,
) -> ExitCode {
    session.erase_line();
    if output.flush().is_err() {
        return report_write_failure(session.rt, seen.fault());
    }
    match ended {
        Ok(true) => ExitCode::SUCCESS,
        Ok(false) => ExitCode::from(1),
        Err(Unanswered::Said) => ExitCode::from(2),
        Err(Unanswered::WriteFailed) => report_write_failure(session.rt, seen.fault()),
    }
}

/// Reports that the output failed, and why, and returns status 2. Reports nothing if the output is
/// a pipe that nobody reads any more.
fn report_write_failure(rt: &HostRuntime, fault: Option<io::Error>) -> ExitCode {
    let Some(error) = fault else {
        return print_error(rt, WRITE_ERROR);
    };
    if error.kind() != io::ErrorKind::BrokenPipe {
        let _ = match error_text(rt.alloc(), &error) {
            Ok(why) => eprintln!(rt; "{WRITE_ERROR}: {why}"),
            Err(AllocError) => eprintln!(rt; "{WRITE_ERROR}: {error}"),
        };
    }
    ExitCode::from(2)
}

/// Writes `text` to standard output, and returns the program's exit status.
fn print_text(rt: &HostRuntime, text: &str) -> ExitCode {
    match rt.println(text) {
        Ok(()) => ExitCode::SUCCESS,
        Err(error) => report_write_failure(rt, Some(error)),
    }
}

/// Writes `text` to standard error, if possible, and returns status 2.
fn print_error(rt: &HostRuntime, text: &str) -> ExitCode {
    let _ = rt.eprintln(text);
    ExitCode::from(2)
}
