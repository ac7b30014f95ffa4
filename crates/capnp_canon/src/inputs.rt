//! Opens each input of a run in turn, reads its messages and answers them, and reports on standard
//! error which message can't be answered.

ghost use Rattle.std.specs.Prelude.{◌≡◌, Ok, false, IfErr, IfOk};
ghost use Rattle.capnp_streams.specs.Forms.{IsAnsweredAs};
ghost use Rattle.capnp_streams.specs.Jobs.{job_form};
ghost use Rattle.capnp_streams.specs.Streams.{stage_of};

use crate::BUFFER;
use crate::conforming::{stop_of, test_input};
use crate::lists::verify_all;
use crate::progress::{CountedInput, Session, Watched};
use crate::schema::Schema;
use crate::texts::{NO_MEMORY, error_text};
use capnp_framing::devices::Output;
use capnp_framing::framing::FrameError;
use capnp_messages::messages::CopyMemory;
use capnp_packing::buffered::{BufReaderInput, BufferedInput, BufferedOutput};
use capnp_refusals::refusals::RefusedPointer;
use capnp_streams::device_log::{DeviceLog, Logged};
use capnp_streams::devices::{NamedLines, NumberedLines};
use capnp_streams::looks::guess_input;
use capnp_streams::streams::{
    self, Command, InputForm, Job, ShowTask, Stop, StreamError, Summary, Task,
};
use std::alloc::AllocError;
use std::fs::File;
use std::io::{self, BufReader, Read};

/// Why a run ends before all inputs are answered.
#[derive(Clone, Copy)]
pub enum Unanswered {
    /// The reason is written to standard error, and the answers so far are flushed.
    Said,
    /// Writing the output failed.
    WriteFailed,
}

/// What is done with an input.
#[derive(Clone, Copy)]
pub enum Work<'a> {
    /// A job with each message.
    Do(Job),
    /// Each message is tested against a schema.
    Test(Task, &'a Schema),
}

impl Work<'_> {
    /// How the input is read.
    fn input_form(self) -> InputForm {
        match self {
            Work::Do(job) => job.input_form(),
            Work::Test(task, _) => task.input_form,
        }
    }
}

/// What is added to each line that a message is answered with.
#[derive(Clone, Copy)]
enum AddedToLines {
    Nothing,
    /// The file's name before it, if there are several files.
    Name,
    /// The file's name, `-` for standard input, and the number of the message after it.
    NameAndNumber,
}

/// Why an input isn't answered to its end, and what is known of the pointer that is refused.
#[derive(Drop)]
struct Refusal {
    stop: Stop,
    field: String,
}

/// Does `task` with each message of each file in turn, or of standard input if there are no files.
/// Returns `false` if the command is `check` and one of the messages isn't canonical; otherwise
/// `true`. Ends with an error at the first file that can't be opened or isn't answered to its end.
///
/// If there are several files, each line of `check`, `size` and `validate` begins with the file's
/// name. Each line of `digest` ends with the file's name, `-` for standard input, and the number of
/// the message. If the files are lists of such lines, verifies them, and returns whether all
/// messages are as listed. If there is a schema, tests each message against it.
pub fn answer_all<W: BufferedOutput>(
    session: &Session<'_>,
    task: Task,
    schema: Option<&Schema>,
    files: &[String],
    output: &mut W,
) -> Result<bool, Unanswered> {
    if task.lists {
        return verify_all(session, task, files, output);
    }
    let added = match task.command {
        Command::Canon(_) => AddedToLines::Nothing,
        Command::Digest => AddedToLines::NameAndNumber,
        Command::Check | Command::Size | Command::Validate => AddedToLines::Name,
    };
    let work = match schema {
        Some(schema) => Work::Test(task, schema),
        None => Work::Do(Job::Answer(task)),
    };
    for_each_file(session, work, added, files, output)
}

/// Shows each message of each file in turn, or of standard input if there are no files. Returns
/// whether each pointer that was followed could be read. Ends with an error at the first file that
/// can't be opened or isn't shown to its end. If there are several files, each line of text begins
/// with the file's name.
pub fn show_all<W: BufferedOutput>(
    session: &Session<'_>,
    task: ShowTask,
    files: &[String],
    output: &mut W,
) -> Result<bool, Unanswered> {
    let added = if task.json {
        AddedToLines::Nothing
    } else {
        AddedToLines::Name
    };
    for_each_file(session, Work::Do(Job::Show(task)), added, files, output)
}

/// Does `work` with each message of each file in turn, or of standard input if there are no files,
/// and adds to each line what `added` says.
fn for_each_file<W: BufferedOutput>(
    session: &Session<'_>,
    work: Work<'_>,
    added: AddedToLines,
    files: &[String],
    output: &mut W,
) -> Result<bool, Unanswered> {
    if files.is_empty() {
        let reader = session.rt.reader();
        return match added {
            AddedToLines::NameAndNumber => {
                answer_reader(
                    session,
                    work,
                    None,
                    reader,
                    &mut NumberedLines::new("-", output),
                )
            }
            _ => answer_reader(session, work, None, reader, output),
        };
    }
    let mut holds = true;
    for file in files {
        let name = file.as_str();
        let here = match added {
            AddedToLines::NameAndNumber => {
                answer_file(session, work, name, &mut NumberedLines::new(name, output))
            }
            AddedToLines::Name if files.len() > 1 => {
                answer_file(session, work, name, &mut NamedLines::new(name, output))
            }
            _ => answer_file(session, work, name, output),
        };
        holds = here? && holds;
    }
    Ok(holds)
}

/// Does `work` with the file `name`, or with standard input if `name` is `-`. Returns what
/// `answer_all` returns.
pub fn answer_file<W: BufferedOutput>(
    session: &Session<'_>,
    work: Work<'_>,
    name: &str,
    output: &mut W,
) -> Result<bool, Unanswered> {
    if name == "-" {
        return answer_reader(session, work, Some(name), session.rt.reader(), output);
    }
    match File::open(session.rt, name) {
        Ok(file) => answer_reader(session, work, Some(name), file, output),
        Err(error) => report_unopened(session, name, &error, output),
    }
}

/// Reports that the file `name` can't be opened, and why, after the answers so far.
pub fn report_unopened<W: BufferedOutput>(
    session: &Session<'_>,
    name: &str,
    error: &io::Error,
    output: &mut W,
) -> Result<bool, Unanswered> {
    flush_to_report(session, output)?;
    let rt = session.rt;
    let _ = match error_text(rt.alloc(), error) {
        Ok(why) => eprintln!(rt; "capnp_canon: {name}: {why}"),
        Err(AllocError) => eprintln!(rt; "capnp_canon: {name}: {error}"),
    };
    Err(Unanswered::Said)
}

/// Flushes the output, and makes room on the screen for a report.
pub fn flush_to_report<W: BufferedOutput>(
    session: &Session<'_>,
    output: &mut W,
) -> Result<(), Unanswered> {
    session.erase_line();
    flush(output)
}

/// Flushes the output.
pub fn flush<W: BufferedOutput>(output: &mut W) -> Result<(), Unanswered> {
    match output.flush() {
        Ok(()) => Ok(()),
        Err(_) => Err(Unanswered::WriteFailed),
    }
}

/// Does `work` with the bytes of `reader`. Reports a fault with `name`, the name of the input, if
/// there is one. Returns what `answer_all` returns.
fn answer_reader<R: Read + Drop, W: BufferedOutput>(
    session: &Session<'_>,
    work: Work<'_>,
    name: Option<&str>,
    reader: R,
    output: &mut W,
) -> Result<bool, Unanswered> {
    if work.input_form() == InputForm::RawWords {
        // Raw words are read to the end of the input first, which may take a while.
        flush(output)?;
    }
    if output.failed() {
        return Err(Unanswered::WriteFailed);
    }
    let (rt, seen) = (session.rt, DeviceLog::new());
    let reader = Logged::new(Watched::new(reader, session), &seen);
    let Ok(reader) = BufReader::with_capacity(rt.alloc(), BUFFER, reader) else {
        flush_to_report(session, output)?;
        let _ = rt.eprintln(NO_MEMORY);
        return Err(Unanswered::Said);
    };
    match do_work(session, work, BufReaderInput::new(reader), output) {
        Ok(holds) => Ok(holds),
        Err(Refusal { stop, field }) => {
            if matches!(stop.fault, StreamError::Frame(FrameError::WriteFailed)) {
                return Err(Unanswered::WriteFailed);
            }
            flush_to_report(session, output)?;
            report_refusal(rt, work.input_form(), name, stop, field.as_str(), &seen);
            Err(Unanswered::Said)
        }
    }
}

/// Does `work` with the messages of `input`, and writes the answers to `output`. Precondition:
/// neither `input` nor `output` has failed.
fn do_work<R: BufferedInput + Drop, W: BufferedOutput>(
    session: &Session<'_>,
    work: Work<'_>,
    input: R,
    output: &mut W,
) -> Result<bool, Refusal>
    requires reads { R.has_failed input ≡ false }
    requires writes { W.has_failed output.old ≡ false }
{
    let alloc = session.rt.alloc();
    match work {
        Work::Do(job) => match run_job(session, job, input, output) {
            Ok(summary) => Ok(summary.holds),
            Err(stop) => Err(Refusal {
                stop,
                field: String::new(alloc),
            }),
        },
        Work::Test(task, schema) => match test_input(session, task, schema, input, output) {
            Ok(_) => Ok(true),
            Err(stop) => Err(Refusal {
                stop: stop_of(stop),
                field: schema.field_text(alloc, stop.fault),
            }),
        },
    }
}

/// Does `job` with the messages of `input`, and writes the answers to `output`. Precondition:
/// neither `input` nor `output` has failed.
fn run_job<R: BufferedInput + Drop, W: BufferedOutput>(
    session: &Session<'_>,
    job: Job,
    input: R,
    output: &mut W,
) -> Result<Summary, Stop>
    requires reads { R.has_failed input ≡ false }
    requires writes { W.has_failed output.old ≡ false }
    ensures answered { IfOk result (IsAnsweredAs (job_form job) job
        (stage_of R.Input W.Output input output.old) (W.contents output.new)) }
{
    let alloc = session.rt.alloc();
    let memory = CopyMemory::new(alloc);
    let mut input = CountedInput::new(input, session);
    match job.input_form() {
        InputForm::Frames => {
            let (summary, _) = streams::run(alloc, memory, job, &mut input, output);
            summary
        }
        InputForm::PackedFrames => {
            let (summary, _) = streams::run_packed(alloc, memory, job, input, output);
            summary
        }
        InputForm::RawWords => {
            let (holds, _) = streams::run_flat(alloc, memory, job, &mut input, output);
            summary_of_one(holds)
        }
    }
}

/// The result of a run over one message, after its answer.
fn summary_of_one(answered: Result<bool, StreamError>) -> Result<Summary, Stop>
    ensures { IfOk result (λ summary. answered ≡ Ok summary.holds) }
{
    match answered {
        Ok(holds) => Ok(Summary {
            messages: 1,
            bytes: 0,
            holds,
        }),
        Err(fault) => Err(Stop {
            answered: 0,
            byte: 0,
            fault,
        }),
    }
}

/// Reports which message is refused, counted from 1, at which byte of the input it begins, why it
/// is refused, and at which of its pointers, if it is at one, followed by `field`. If this is the
/// first message, and the input doesn't look like what `form` says, also reports what the input
/// looks like.
pub fn report_refusal(
    rt: &HostRuntime,
    form: InputForm,
    name: Option<&str>,
    stop: Stop,
    field: &str,
    seen: &DeviceLog,
) {
    let (name, colon) = match name {
        Some(name) => (name, ": "),
        None => ("", ""),
    };
    let number = stop.answered.saturating_add(1);
    let byte = stop.byte;
    let reason = stop.fault.name();
    let _ = match seen.fault() {
        None => match stop.fault.pointer() {
            None => eprintln!(rt;
                "capnp_canon: {name}{colon}message {number} at byte {byte}: refused {reason}"
            ),
            Some(RefusedPointer { segment, word, .. }) => eprintln!(rt;
                "capnp_canon: {name}{colon}message {number} at byte {byte}: refused {reason} at segment {segment}, word {word}{field}"
            ),
        },
        Some(error) => match error_text(rt.alloc(), &error) {
            Ok(why) => {
                eprintln!(rt;
                    "capnp_canon: {name}{colon}message {number} at byte {byte}: refused {reason}: {why}"
                )
            }
            Err(AllocError) => {
                eprintln!(rt;
                    "capnp_canon: {name}{colon}message {number} at byte {byte}: refused {reason}"
                )
            }
        },
    };
    let front = seen.first_bytes();
    if stop.answered == 0 {
        if let Some(looks) = guess_input(form, stop.fault, front.first(), front.total()) {
            let _ = eprintln!(rt;
                "capnp_canon: {name}{colon}the input looks like {}",
                looks.text()
            );
        }
    }
}
