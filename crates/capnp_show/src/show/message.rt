//! Shows one message.
ghost use Rattle.std.specs.Prelude.{◌≡◌, ◌≤◌, ℕ, List, codes, length, false, true, Err, IfOk, IfErr, OnOk};
ghost use Rattle.capnp_format.specs.Bytes.{message};
ghost use Rattle.capnp_format.specs.Tree.{Tree};
ghost use Rattle.capnp_arena_traits.specs.Limits.{IsSmall};
ghost use Rattle.capnp_framing.specs.Writing.{IsUnwritten, Prints};
ghost use Rattle.capnp_pointers.specs.Source.{levels};
ghost use Rattle.capnp_show.specs.Adding.{max_text};
ghost use Rattle.capnp_show.specs.Show.{PrintsAtMost};
ghost use Rattle.capnp_show.specs.Shown.{IsPlain, Shows, shown_json};
ghost use Rattle.capnp_show.specs.ShownParts.{HasShortLine, IsShownPart, IsShownText, line_text, message_shown, path_line, shown_line};

use super::json::{Json, write_path_end};
use super::lines::{Lines, show_element, show_pointer};
use super::text::{Ended, MOST_BYTES};
use capnp_arena::arena::{ReaderArena, ReaderArenaImpl, ReaderOptions, ReaderSegments};
use capnp_framing::devices::Output;
use capnp_messages::messages::{Reached, read_part};
use capnp_words::read_limiter::ReadLimiter;
use std::alloc::Global;

/// How messages are shown.
#[derive(Clone, Copy, Debug, PartialEq, Eq)]
pub struct Showing {
    /// Whether each message is one line of JSON.
    pub json: bool,
    /// Whether places are left out, so that equal values are shown alike.
    pub values: bool,
    /// Whether parts of the lines have colors, by control sequences of a terminal. JSON has none.
    pub colors: bool,
    /// How many pointers below the first one are followed.
    pub depth: u32,
}

/// Why a message isn't shown.
#[derive(Clone, Copy, Debug, PartialEq, Eq)]
pub enum ShowFault {
    /// Memory ran out.
    AllocationFailed,
    /// Writing to the output failed.
    WriteFailed,
}

/// Shows the message in `segments`, or the part of it to which `path` leads: writes what it holds
/// to `output`, in the form that `showing` describes. Returns whether each pointer that was
/// followed could be read. Preconditions: `segments` has fewer than 2^32 segments, each of fewer
/// than 2^32 words; `output` hasn't failed.
///
/// The first pointer is the one that `read_part` of `capnp_messages` finds; with an empty `path` it
/// is the root pointer. If the path leads to an element of a list of structs, what is shown first is
/// this struct. If the path is refused, what is shown is the name of this refusal. Objects are read
/// like `Source::read_object`, within `limits`. A pointer that can't be read is shown with the name
/// of the refusal, and the pointers after it are still read. Writes at most `MOST_BYTES` bytes: if
/// they don't suffice, the lines end with one that says so, and a line of JSON is replaced by one
/// that says so.
///
/// Refusals: `AllocationFailed` if memory runs out, and then nothing is written; `WriteFailed` if
/// the output fails.
pub fn show_message<S: ReaderSegments + Drop, W: Output>(
    alloc: Global,
    showing: Showing,
    limits: ReaderOptions,
    number: u64,
    path: &[u32],
    segments: S,
    output: &mut W,
) -> Result<bool, ShowFault>
    requires small { IsSmall (S.segments segments) }
    requires works { W.has_failed output.old ≡ false }
    ensures bounded { OnOk result (PrintsAtMost W.Output MOST_BYTES output.old output.new) }
    ensures works { OnOk result (W.has_failed output.new ≡ false) }
    ensures value { (t : Tree) → showing.json ≡ true → showing.values ≡ true
        → IsShownPart (message (S.segments segments)) limits path.now showing.depth t
        → OnOk result (Prints W.Output output.old output.new (shown_line t)) }
    ensures sound { (t : Tree) → showing.json ≡ true → showing.values ≡ true
        → IsShownPart (message (S.segments segments)) limits path.now showing.depth t → HasShortLine t
        → IfOk result (λ is_sound. is_sound ≡ true) }
    ensures shown { IfOk result (λ is_sound. (text : List ℕ) × IsShownText showing
        (message_shown limits path.now showing.depth (message (S.segments segments))) is_sound text
        × Prints W.Output output.old output.new text) }
    ensures failed { result ≡ Err ShowFault.WriteFailed → W.has_failed output.new ≡ true }
    ensures unwritten { result ≡ Err ShowFault.AllocationFailed
        → IsUnwritten W.Output output.old output.new }
{
    let count = segments.len() as u64;
    let arena = ReaderArenaImpl::new(segments, limits);
    if showing.json {
        let json = make_json(alloc, showing, limits, number, count, path, &arena)?;
        json.text.write(output, ShowFault::WriteFailed)?;
        Ok(json.is_sound)
    } else {
        let lines = make_lines(alloc, showing, limits, number, count, path, &arena)?;
        lines.text.write(output, ShowFault::WriteFailed)?;
        Ok(lines.is_sound)
    }
}

/// Returns the lines of a message of `count` segments.
fn make_lines<S: ReaderSegments>(
    alloc: Global,
    showing: Showing,
    limits: ReaderOptions,
    number: u64,
    count: u64,
    path: &[u32],
    arena: &ReaderArenaImpl<S>,
) -> Result<Lines, ShowFault>
    ensures { IfErr result (λ e. e ≡ ShowFault.AllocationFailed) }
{
    let lim = ReadLimiter::new(limits.traversal_limit_in_words);
    let mut lines = Lines::new(alloc, lim, showing);
    write_lines(arena, number, count, path, &mut lines);
    match lines.finish() {
        Ok(()) => Ok(lines),
        Err(_) => Err(ShowFault::AllocationFailed),
    }
}

/// Writes the lines of a message of `count` segments.
fn write_lines<S: ReaderSegments>(
    arena: &ReaderArenaImpl<S>,
    number: u64,
    count: u64,
    path: &[u32],
    lines: &mut Lines,
) {
    lines.write_head(number, count, arena.size_in_words() as u64);
    lines.begin_path(path);
    match read_part(arena, path, &mut lines.lim) {
        Ok(Reached::Pointer(root)) => show_pointer(root, lines.depth, lines),
        Ok(Reached::Element(element)) => show_element(element, lines.depth, lines),
        Err(kind) => lines.write_no_root(kind.name()),
    }
}

/// Returns the line of JSON of a message of `count` segments.
fn make_json<S: ReaderSegments>(
    alloc: Global,
    showing: Showing,
    limits: ReaderOptions,
    number: u64,
    count: u64,
    path: &[u32],
    arena: &ReaderArenaImpl<S>,
) -> Result<Json, ShowFault>
    ensures shown { (t : Tree) → showing.values ≡ true
        → IsShownPart (message (⟦<ReaderArenaImpl<S> as ReaderArena>⟧.segments arena.now))
        limits path.now showing.depth t → arena.now.nesting_limit ≡ limits.nesting_limit
        → IfOk result (λ json. (json.text.bytes.items ≡ shown_line t)
        × (HasShortLine t → json.is_sound ≡ true)) }
    ensures line { showing.values ≡ true → arena.now.nesting_limit ≡ limits.nesting_limit
        → let s = message_shown limits path.now showing.depth
        (message (⟦<ReaderArenaImpl<S> as ReaderArena>⟧.segments arena.now)) in
        IfOk result (λ json. (json.text.bytes.items ≡ line_text s)
        × (length s.text ≤ max_text → json.is_sound ≡ s.sound)) }
    ensures refused { IfErr result (λ e. e ≡ ShowFault.AllocationFailed) }
{
    let lim = ReadLimiter::new(limits.traversal_limit_in_words);
    let mut json = Json::new(alloc, lim, !showing.values);
    match write_json(arena, number, count, path, showing.depth, &mut json) {
        Ok(()) => Ok(json),
        Err(Ended::Full) => cut_line(json),
        Err(_) => Err(ShowFault::AllocationFailed),
    }
}

/// Returns the line that says that a message isn't shown, since its line would be too long.
fn cut_line(mut json: Json) -> Result<Json, ShowFault>
    ensures line { IfOk result (λ cut. cut.text.bytes.items ≡ codes "{\"cut\":\"length\"}\n") }
    ensures refused { IfErr result (λ e. e ≡ ShowFault.AllocationFailed) }
{
    match json.write_cut() {
        Ok(()) => Ok(json),
        Err(_) => Err(ShowFault::AllocationFailed),
    }
}

/// Writes the line of JSON of a message of `count` segments.
pub(super) fn write_json<S: ReaderSegments>(
    arena: &ReaderArenaImpl<S>,
    number: u64,
    count: u64,
    path: &[u32],
    depth: u32,
    json: &mut Json,
) -> Result<(), Ended>
    ensures shows { IsPlain json.old → Shows result json.new (path_line depth
        (message (⟦<ReaderArenaImpl<S> as ReaderArena>⟧.segments arena.now))
        (levels arena.now.nesting_limit) path.now (shown_json json.old)) }
    ensures fits { OnOk result (length json.new.text.bytes.items ≤ max_text) }
{
    json.write_head(number, count, arena.size_in_words() as u64)?;
    let end = read_part(arena, path, &mut json.lim);
    write_path_end(end, depth, json)?;
    json.write_tail()
}
