//! Tests the messages of an input against a schema.

ghost use Rattle.std.specs.Prelude.{◌≡◌, Ok, false, IfOk, OnOk};
ghost use Rattle.capnp_streams.specs.Streams.{stage_of};
ghost use Rattle.typed_streams.specs.TestedForms.{AreTestedAs};

use crate::progress::{CountedInput, Session};
use crate::schema::Schema;
use capnp_arena::arena::HeapAllocator;
use capnp_packing::buffered::{BufferedInput, BufferedOutput};
use capnp_refusals::refusals::RefusedPointer;
use capnp_streams::streams::{InputForm, Stop, StreamError, Task};
use typed_conforming::schema::Misfit;
use typed_streams::conforming::{
    ConformingFault, ConformingStop, TestedMessages, test_packed_stream, test_raw_words,
    test_stream,
};

/// Tests each message of `input` against `schema`, and writes the answers to `output`. Precondition:
/// neither `input` nor `output` has failed.
pub fn test_input<R: BufferedInput + Drop, W: BufferedOutput>(
    session: &Session<'_>,
    task: Task,
    schema: &Schema,
    input: R,
    output: &mut W,
) -> Result<TestedMessages, ConformingStop>
    requires reads { R.has_failed input ≡ false }
    requires writes { W.has_failed output.old ≡ false }
    ensures tested { IfOk result (AreTestedAs task.input_form
        (record { table = schema.now.table.words.items; row = schema.now.row; limits = task.limits })
        (stage_of R.Input W.Output input output.old) (W.contents output.new)) }
{
    let alloc = session.rt.alloc();
    let mut memory = HeapAllocator::new(alloc, 0);
    let (table, row) = (schema.table.words.as_slice(), schema.row);
    let mut input = CountedInput::new(input, session);
    match task.input_form {
        InputForm::Frames => test_stream(
            alloc,
            &mut memory,
            table,
            row,
            task.limits,
            &mut input,
            output,
        ),
        InputForm::PackedFrames => {
            test_packed_stream(alloc, &mut memory, table, row, task.limits, input, output)
        }
        InputForm::RawWords => tested_one(test_raw_words(
            alloc,
            &mut memory,
            table,
            row,
            task.limits,
            &mut input,
            output,
        )),
    }
}

/// The result of a test of one message.
fn tested_one(tested: Result<(), ConformingFault>) -> Result<TestedMessages, ConformingStop>
    ensures { OnOk result (tested ≡ Ok tt) }
{
    match tested {
        Ok(()) => Ok(TestedMessages {
            messages: 1,
            bytes: 0,
        }),
        Err(fault) => Err(ConformingStop {
            tested: 0,
            byte: 0,
            fault,
        }),
    }
}

/// Returns where and why the test stopped, in the form of the other commands.
pub fn stop_of(stop: ConformingStop) -> Stop {
    let fault = match stop.fault {
        ConformingFault::Frame(error) => StreamError::Frame(error),
        ConformingFault::Misfit(misfit) => StreamError::Layout(
            misfit.error,
            Some(place_of(misfit)),
        ),
        ConformingFault::TooManyMessages => StreamError::TooManyMessages,
    };
    Stop {
        answered: stop.tested,
        byte: stop.byte,
        fault,
    }
}

/// The pointer that is refused.
fn place_of(misfit: Misfit) -> RefusedPointer {
    RefusedPointer {
        segment: misfit.segment,
        word: misfit.word,
        refusal: misfit.error,
    }
}
