//! Opens two inputs and compares their messages.

ghost use Rattle.std.specs.Prelude.{◌≡◌, false, IfOk};
ghost use Rattle.capnp_streams.specs.Diffs.{diff_stage};
ghost use Rattle.capnp_streams.specs.Forms.{IsComparedAs};

use crate::BUFFER;
use crate::inputs::{Unanswered, flush_to_report, report_refusal, report_unopened};
use crate::progress::{CountedInput, Session, Watched};
use crate::texts::NO_MEMORY;
use capnp_packing::buffered::{BufReaderInput, BufferedInput, BufferedOutput};
use capnp_streams::device_log::{DeviceLog, Logged};
use capnp_streams::streams::{self, DiffFault, DiffTask, InputForm, Side};
use std::fs::File;
use std::io::{BufReader, Read};

/// The names of the two inputs.
#[derive(Clone, Copy)]
struct Names<'a> {
    left: &'a str,
    right: &'a str,
}

/// Compares the messages of the files `left` and `right`; `-` is standard input. Returns whether
/// they are the same. Ends with an error if a file can't be opened, or at the first message that
/// can't be compared.
pub fn compare_files<W: BufferedOutput>(
    session: &Session<'_>,
    task: DiffTask,
    left: &str,
    right: &str,
    output: &mut W,
) -> Result<bool, Unanswered>
    requires { W.has_failed output.old ≡ false }
{
    let names = Names { left, right };
    if left == "-" {
        return open_second_and_compare(session, task, names, session.rt.reader(), output);
    }
    match File::open(session.rt, left) {
        Ok(file) => open_second_and_compare(session, task, names, file, output),
        Err(error) => report_unopened(session, left, &error, output),
    }
}

/// Opens the second input, and compares its messages with those of `left`.
fn open_second_and_compare<L: Read + Drop, W: BufferedOutput>(
    session: &Session<'_>,
    task: DiffTask,
    names: Names,
    left: L,
    output: &mut W,
) -> Result<bool, Unanswered>
    requires { W.has_failed output.old ≡ false }
{
    if names.right == "-" {
        return compare_readers(session, task, names, left, session.rt.reader(), output);
    }
    match File::open(session.rt, names.right) {
        Ok(file) => compare_readers(session, task, names, left, file, output),
        Err(error) => report_unopened(session, names.right, &error, output),
    }
}

/// Compares the messages of two readers, and reports a fault.
fn compare_readers<L: Read + Drop, R: Read + Drop, W: BufferedOutput>(
    session: &Session<'_>,
    task: DiffTask,
    names: Names,
    left: L,
    right: R,
    output: &mut W,
) -> Result<bool, Unanswered>
    requires { W.has_failed output.old ≡ false }
{
    let (left_seen, right_seen) = (DeviceLog::new(), DeviceLog::new());
    let left = Logged::new(Watched::new(left, session), &left_seen);
    let right = Logged::new(Watched::new(right, session), &right_seen);
    let rt = session.rt;
    let left = BufReader::with_capacity(rt.alloc(), BUFFER, left);
    let right = BufReader::with_capacity(rt.alloc(), BUFFER, right);
    let (Ok(left), Ok(right)) = (left, right) else {
        let _ = rt.eprintln(NO_MEMORY);
        return Err(Unanswered::Said);
    };
    let (left, right) = (BufReaderInput::new(left), BufReaderInput::new(right));
    let fault = match compare_inputs(session, task, left, right, output) {
        Ok(is_same) => return Ok(is_same),
        Err(DiffFault::WriteFailed) => return Err(Unanswered::WriteFailed),
        Err(fault) => fault,
    };
    flush_to_report(session, output)?;
    let form = task.input_form;
    match fault {
        DiffFault::Refused(Side::Left, stop) => {
            report_refusal(rt, form, Some(names.left), stop, "", &left_seen);
        }
        DiffFault::Refused(Side::Right, stop) => {
            report_refusal(rt, form, Some(names.right), stop, "", &right_seen);
        }
        DiffFault::TooLong(number) => {
            let _ = eprintln!(rt; "capnp_canon: message {number}: too long to compare");
        }
        DiffFault::AllocationFailed | DiffFault::WriteFailed => {
            let _ = rt.eprintln(NO_MEMORY);
        }
    }
    Err(Unanswered::Said)
}

/// Compares the messages of two inputs. Precondition: neither they nor the output have failed.
fn compare_inputs<L: BufferedInput + Drop, R: BufferedInput + Drop, W: BufferedOutput>(
    session: &Session<'_>,
    task: DiffTask,
    left: L,
    mut right: R,
    output: &mut W,
) -> Result<bool, DiffFault>
    requires left { L.has_failed left ≡ false }
    requires right { R.has_failed right ≡ false }
    requires writes { W.has_failed output.old ≡ false }
    ensures compared { IfOk result (IsComparedAs task.input_form task.limits
        (diff_stage L.Input R.Input W.Output left right output.old)
        (W.contents output.new)) }
{
    let alloc = session.rt.alloc();
    let mut left = CountedInput::new(left, session);
    match task.input_form {
        InputForm::Frames => match streams::run_diff(alloc, task, &mut left, &mut right, output) {
            Ok(compared) => Ok(compared.is_same),
            Err(fault) => Err(fault),
        },
        InputForm::PackedFrames => streams::run_diff_packed(alloc, task, left, right, output),
        InputForm::RawWords => {
            streams::run_diff_flat(alloc, task, &mut left, &mut right, output)
        }
    }
}
