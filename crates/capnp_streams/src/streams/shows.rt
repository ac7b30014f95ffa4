//! Shows a message.
ghost use Rattle.std.specs.Prelude.{◌≡◌, ◌⊎◌, ℕ, List, None, false, IfErr, IfOk, OnOk};
ghost use Rattle.capnp_arena_traits.specs.Limits.{IsSmall};
ghost use Rattle.capnp_format.specs.Bytes.{message};
ghost use Rattle.capnp_framing.specs.Writing.{IsUnwritten, Prints};
ghost use Rattle.capnp_show.specs.Show.{PrintsAtMost};
ghost use Rattle.capnp_streams.specs.Shows.{IsShown};
ghost use Rattle.capnp_streams.specs.Streams.{IsWriteFault};

use super::stream_error::StreamError;
use super::task::ShowTask;
use capnp_arena::arena::ReaderSegments;
use capnp_framing::devices::Output;
use capnp_framing::framing::FrameError;
use capnp_pointers::nesting::levels_left;
use capnp_show::show::{MOST_BYTES, ShowFault, Showing, show_message};
use capnp_words::error::ErrorKind;
use std::alloc::Global;

/// Shows message `number`, which is in `segments`. Returns whether each pointer that was followed
/// could be read.
pub(super) fn show<S: ReaderSegments + Drop, W: Output>(
    alloc: Global,
    task: ShowTask,
    number: u64,
    segments: S,
    output: &mut W,
) -> Result<bool, StreamError>
    requires small { IsSmall (S.segments segments) }
    requires works { W.has_failed output.old ≡ false }
    ensures shown { IfOk result (λ is_sound. (text : List ℕ)
        × IsShown task (message (S.segments segments)) is_sound text
        × Prints W.Output output.old output.new text) }
    ensures bounded { OnOk result (PrintsAtMost W.Output MOST_BYTES output.old output.new) }
    ensures works { OnOk result (W.has_failed output.new ≡ false) }
    ensures refused { IfErr result (λ e. IsWriteFault W.Output output.new e
        ⊎ ((e ≡ StreamError.Layout ErrorKind.AllocationFailed None)
        × IsUnwritten W.Output output.old output.new)) }
{
    let showing = Showing {
        json: task.json,
        values: task.values,
        colors: task.colors,
        depth: levels_left(task.depth),
    };
    let path = task.path.indexes();
    match show_message(alloc, showing, task.limits, number, path, segments, output) {
        Ok(is_sound) => Ok(is_sound),
        Err(ShowFault::AllocationFailed) => {
            Err(StreamError::Layout(ErrorKind::AllocationFailed, None))
        }
        Err(ShowFault::WriteFailed) => Err(StreamError::Frame(FrameError::WriteFailed)),
    }
}
