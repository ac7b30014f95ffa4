//! Compares the values of two messages.
ghost use Rattle.std.specs.Prelude.{◌≡◌, ◌≢◌, ◌<◌, ◌↔◌, [], false, true, length, Ok, Err, IfSome, IsNone, IfOk, IfErr, OnOk};
ghost use Rattle.capnp_format.specs.Bytes.{message};
ghost use Rattle.capnp_format.specs.Segments.{AreWords};
ghost use Rattle.capnp_format.specs.Tree.{Tree};
ghost use Rattle.capnp_arena_traits.specs.Limits.{IsSmall};
ghost use Rattle.capnp_framing.specs.Writing.{IsUnwritten};
ghost use Rattle.capnp_pointers.specs.Source.{levels};
ghost use Rattle.capnp_messages.specs.Messages.{IsReadable};
ghost use Rattle.capnp_show.specs.Compared.{ComparesLines, HasLineOf};
ghost use Rattle.capnp_show.specs.Show.{PrintsAtMost, PrintsSome};
ghost use Rattle.capnp_show.specs.ShownParts.{HasShortLine, IsShownPart};

use super::json::{Json, Search};
use super::message::write_json;
use super::path::push_path;
use super::text::{CUT_LINE, Ended, MOST_BYTES, Text, text_prefix};
use capnp_arena::arena::{ReaderArena, ReaderArenaImpl, ReaderOptions, ReaderSegments};
use capnp_framing::devices::Output;
use capnp_pointers::nesting::levels_left;
use capnp_words::read_limiter::ReadLimiter;
use std::alloc::Global;

/// Why two messages aren't compared.
#[derive(Clone, Copy, Debug, PartialEq, Eq)]
pub enum CompareFault {
    /// Memory ran out.
    AllocationFailed,
    /// The line of one of the messages would have more than 67,108,799 bytes.
    TooLong,
    /// Writing to the output failed.
    WriteFailed,
}

/// Where two lines differ.
#[derive(Clone, Copy)]
struct Difference {
    /// The position of the first byte in which they differ.
    at: usize,
    /// Where the text of the object that differs begins at the latest.
    latest: usize,
}

/// Compares the values of the messages in `left` and `right`: the lines that `show_message` writes of
/// them in JSON without places, with all pointers followed within `limits`. If the lines are equal,
/// writes nothing and returns `true`. Otherwise writes three lines to `output` and returns `false`:
/// `message`, `number` and the path to the first object whose text differs; `<` and its text in
/// `left`; `>` and its text in `right`. Of a text, at most 1,024 bytes are written, and then two dots.
/// If all this has more than `MOST_BYTES` bytes, it ends with a line that says so.
///
/// Preconditions: `left` and `right` each have fewer than 2^32 segments, each of fewer than 2^32
/// words; `output` hasn't failed.
///
/// A pointer that can't be read has the name of its refusal in the line. If both messages are sound
/// (`validate` of `capnp_messages`), they are the same exactly if their values are equal.
///
/// Refusals: `AllocationFailed` if memory runs out, and `TooLong` if a line would have more than
/// 67,108,799 bytes, and then nothing is written; `WriteFailed` if the output fails. Takes memory for
/// two lines.
#[tactic(auto, using(crate::proofs::CompareLemmas::nothing_printed))]
pub fn compare_messages<S: ReaderSegments + Drop, T: ReaderSegments + Drop, W: Output>(
    alloc: Global,
    limits: ReaderOptions,
    number: u64,
    left: S,
    right: T,
    output: &mut W,
) -> Result<bool, CompareFault>
    requires left { IsSmall (S.segments left) }
    requires right { IsSmall (T.segments right) }
    requires works { W.has_failed output.old ≡ false }
    ensures same { result ≡ Ok true → IsUnwritten W.Output output.old output.new }
    ensures told { result ≡ Ok false → PrintsSome W.Output output.old output.new }
    ensures bounded { OnOk result (PrintsAtMost W.Output MOST_BYTES output.old output.new) }
    ensures works { OnOk result (W.has_failed output.new ≡ false) }
    ensures exactly { (l : IsReadable (message (S.segments left)) limits)
        (r : IsReadable (message (T.segments right)) limits)
        → AreWords (message (S.segments left)) → AreWords (message (T.segments right))
        → IfOk result (λ is_same. is_same ≡ true ↔ l.value ≡ r.value) }
    ensures granted { (l : IsReadable (message (S.segments left)) limits)
        (r : IsReadable (message (T.segments right)) limits) → l.value ≡ r.value
        → HasShortLine l.value → IfErr result (λ e. e ≡ CompareFault.AllocationFailed) }
    ensures short { (l : IsReadable (message (S.segments left)) limits)
        (r : IsReadable (message (T.segments right)) limits) → HasShortLine l.value
        → HasShortLine r.value → IfErr result (λ e. e ≢ CompareFault.TooLong) }
    ensures failed { result ≡ Err CompareFault.WriteFailed → W.has_failed output.new ≡ true }
    ensures unwritten { IfErr result (λ e. e ≢ CompareFault.WriteFailed
        → IsUnwritten W.Output output.old output.new) }
{
    let left = ReaderArenaImpl::new(left, limits);
    let right = ReaderArenaImpl::new(right, limits);
    let found = find_difference(alloc, limits, &left, &right)?;
    match found {
        None => Ok(true),
        Some(difference) => {
            let text = make_difference_text(alloc, limits, number, difference, &left, &right)?;
            text.write(output, CompareFault::WriteFailed)?;
            Ok(false)
        }
    }
}

/// Where the lines of the two messages differ; `None` if they are equal.
fn find_difference<S: ReaderSegments, T: ReaderSegments>(
    alloc: Global,
    limits: ReaderOptions,
    left: &ReaderArenaImpl<S>,
    right: &ReaderArenaImpl<T>,
) -> Result<Option<Difference>, CompareFault>
    ensures lines { (t u : Tree) → left.now.nesting_limit ≡ limits.nesting_limit
        → right.now.nesting_limit ≡ limits.nesting_limit
        → IsShownPart (message (⟦<ReaderArenaImpl<S> as ReaderArena>⟧.segments left.now)) limits
        [] (levels limits.nesting_limit) t
        → IsShownPart (message (⟦<ReaderArenaImpl<T> as ReaderArena>⟧.segments right.now)) limits
        [] (levels limits.nesting_limit) u
        → ComparesLines result t u }
    ensures refused { IfErr result (λ e. e ≢ CompareFault.WriteFailed) }
{
    let left = make_line(alloc, limits, left)?;
    let right = make_line(alloc, limits, right)?;
    Ok(compare_lines(left.text.bytes(), right.text.bytes()))
}

/// Where the two lines differ; `None` if they are equal. The object that differs may begin with the
/// first byte that differs if an object begins there in both lines.
fn compare_lines(left: &[u8], right: &[u8]) -> Option<Difference>
    ensures same { IsNone result → left.now ≡ right.now }
    ensures differ { IfSome result (λ _. left.now ≡ right.now → ⊥) }
{
    if left == right {
        return None;
    }
    let at = common_prefix_length(left, right);
    let latest = if begins_object(left, at) && begins_object(right, at) {
        at
    } else {
        at.saturating_sub(1)
    };
    Some(Difference { at, latest })
}

/// The number of bytes at the front that are the same in both.
fn common_prefix_length(left: &[u8], right: &[u8]) -> usize {
    let most = left.len().min(right.len());
    let mut at = 0;
    while at < most && left[at] == right[at] {
        at += 1;
    }
    at
}

/// Whether the byte at position `at` is one with which the text of an object begins: that of `null`,
/// or of an object of JSON.
fn begins_object(line: &[u8], at: usize) -> bool {
    matches!(line.get(at), Some(b'n' | b'{'))
}

/// The line of a message.
fn make_line<S: ReaderSegments>(
    alloc: Global,
    limits: ReaderOptions,
    arena: &ReaderArenaImpl<S>,
) -> Result<Json, CompareFault>
    ensures line { (t : Tree) → arena.now.nesting_limit ≡ limits.nesting_limit
        → IsShownPart (message (⟦<ReaderArenaImpl<S> as ReaderArena>⟧.segments arena.now)) limits
        [] (levels limits.nesting_limit) t
        → HasLineOf result t }
    ensures refused { IfErr result (λ e. e ≢ CompareFault.WriteFailed) }
{
    let lim = ReadLimiter::new(limits.traversal_limit_in_words);
    let mut json = Json::new(alloc, lim, false);
    match write_json(
        arena,
        0,
        0,
        &[],
        levels_left(limits.nesting_limit),
        &mut json,
    ) {
        Ok(()) => Ok(json),
        Err(Ended::Full) => Err(CompareFault::TooLong),
        Err(_) => Err(CompareFault::AllocationFailed),
    }
}

/// The line of a message up to the end of the object that `search` finds.
fn make_line_up_to<S: ReaderSegments>(
    alloc: Global,
    limits: ReaderOptions,
    search: Search,
    arena: &ReaderArenaImpl<S>,
) -> Result<Json, CompareFault>
    ensures line { (t : Tree) → arena.now.nesting_limit ≡ limits.nesting_limit
        → IsShownPart (message (⟦<ReaderArenaImpl<S> as ReaderArena>⟧.segments arena.now)) limits
        [] (levels limits.nesting_limit) t
        → HasShortLine t → IfErr result (λ e. e ≢ CompareFault.TooLong) }
    ensures refused { IfErr result (λ e. e ≢ CompareFault.WriteFailed) }
{
    let lim = ReadLimiter::new(limits.traversal_limit_in_words);
    let mut json = Json::new(alloc, lim, false);
    json.search = Some(search);
    match write_json(
        arena,
        0,
        0,
        &[],
        levels_left(limits.nesting_limit),
        &mut json,
    ) {
        Ok(()) | Err(Ended::Found) => Ok(json),
        Err(Ended::Full) => Err(CompareFault::TooLong),
        Err(Ended::NoMemory) => Err(CompareFault::AllocationFailed),
    }
}

/// Makes the text about a difference.
fn make_difference_text<S: ReaderSegments, T: ReaderSegments>(
    alloc: Global,
    limits: ReaderOptions,
    number: u64,
    difference: Difference,
    left: &ReaderArenaImpl<S>,
    right: &ReaderArenaImpl<T>,
) -> Result<Text, CompareFault>
    ensures some { IfOk result (λ text. 0 < length text.bytes.items) }
    ensures short { (t u : Tree) → left.now.nesting_limit ≡ limits.nesting_limit
        → right.now.nesting_limit ≡ limits.nesting_limit
        → IsShownPart (message (⟦<ReaderArenaImpl<S> as ReaderArena>⟧.segments left.now)) limits
        [] (levels limits.nesting_limit) t
        → IsShownPart (message (⟦<ReaderArenaImpl<T> as ReaderArena>⟧.segments right.now)) limits
        [] (levels limits.nesting_limit) u
        → HasShortLine t → HasShortLine u → IfErr result (λ e. e ≢ CompareFault.TooLong) }
    ensures refused { IfErr result (λ e. e ≢ CompareFault.WriteFailed) }
{
    let Difference { at, latest } = difference;
    let left = make_line_up_to(alloc, limits, Search::new(alloc, at, latest), left)?;
    let right = make_line_up_to(alloc, limits, Search::new(alloc, at, latest), right)?;
    difference_text(alloc, number, &left, &right)
}

/// The text about a difference. Each of its lines ends with the object that differs. A text that
/// would have more than `MOST_BYTES` bytes ends with a line that says so.
fn difference_text(
    alloc: Global,
    number: u64,
    left: &Json,
    right: &Json,
) -> Result<Text, CompareFault>
    ensures some { IfOk result (λ text. 0 < length text.bytes.items) }
    ensures refused { IfErr result (λ e. e ≡ CompareFault.AllocationFailed) }
{
    let mut text = Text::new(alloc);
    match push_difference(&mut text, number, left, right) {
        Ok(()) => Ok(text),
        Err(Ended::Full) => cut_text(text),
        Err(_) => Err(CompareFault::AllocationFailed),
    }
}

/// Ends a text that is full with a line that says so.
fn cut_text(mut text: Text) -> Result<Text, CompareFault>
    ensures some { IfOk result (λ cut. 0 < length cut.bytes.items) }
    ensures refused { IfErr result (λ e. e ≡ CompareFault.AllocationFailed) }
{
    match text.push_into_kept(CUT_LINE) {
        Ok(()) => Ok(text),
        Err(_) => Err(CompareFault::AllocationFailed),
    }
}

/// Adds the three lines about a difference.
fn push_difference(text: &mut Text, number: u64, left: &Json, right: &Json) -> Result<(), Ended>
    ensures { OnOk result (0 < length text.new.bytes.items) }
{
    text.push(b"message ")?;
    text.push_number(number)?;
    text.push(b": ")?;
    match &left.search {
        Some(search) => push_path(text, search.path.as_slice())?,
        None => push_path(text, &[])?,
    }
    text.push(b"\n<")?;
    push_found(text, left)?;
    text.push(b"\n>")?;
    push_found(text, right)?;
    text.push(b"\n")
}

/// Adds a space and the text of the object that was found.
fn push_found(text: &mut Text, line: &Json) -> Result<(), Ended> {
    let bytes = line.text.bytes();
    let start = match &line.search {
        Some(search) => search.start.min(bytes.len()),
        None => 0,
    };
    let found = &bytes[start..];
    let front = text_prefix(found);
    text.push(b" ")?;
    text.push(front)?;
    text.push(if front.len() < found.len() {
        b" .."
    } else {
        b""
    })
}
