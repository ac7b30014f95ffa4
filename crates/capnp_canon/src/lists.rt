//! Verifies lists that `digest` has written: whether the messages that they name still have the
//! digests that they state.

use crate::inputs::{Unanswered, Work, answer_file, flush, flush_to_report};
use crate::progress::Session;
use crate::texts::{NO_MEMORY, NO_UTF8, error_text};
use capnp_framing::devices::{DeviceFault, MemoryOutput, Output, write_all};
use capnp_packing::buffered::BufferedOutput;
use capnp_streams::devices::{write_escape_mark, write_name_and_number};
use capnp_streams::streams::{Job, Task};
use std::alloc::{AllocError, Global};
use std::fs::File;
use std::io::{self, Read};

/// The number of hex digits of a digest.
const DIGITS: usize = 64;

/// The number of bytes of a line that `digest` writes of a message, without its name: the digits,
/// and a line feed.
const LINE: usize = DIGITS + 1;

/// What a line of a list says: the digest of message `number` of the file `name` has these hex
/// digits.
#[derive(Drop)]
struct Entry<'a> {
    digits: &'a str,
    name: String,
    number: u64,
}

/// The digests of the messages of the file `file`.
#[derive(Drop)]
struct Digests {
    file: String,
    /// `LINE` bytes for each message up to the first refused one.
    bytes: MemoryOutput,
}

/// How many lines of a list have been read, and what they are.
#[derive(Clone, Copy)]
struct LineCounts {
    /// The number of lines.
    read: u64,
    /// The number of lines that `digest` has written.
    entries: u64,
    /// The number of other lines that aren't empty.
    others: u64,
    /// The number of the first of these; lines are counted from 1.
    first_other: u64,
}

/// What verifying has found so far.
#[derive(Clone, Copy)]
struct Verified {
    /// The number of messages that are missing or have another digest.
    failed: u64,
    /// Whether a list names no message.
    is_empty: bool,
    /// Whether a list or a message couldn't be read. The reason is written to standard error.
    is_unread: bool,
}

/// Verifies the lists in turn, or the one in standard input if there are no names. Writes for each
/// line of a list whether the message has the digest; if the task is quiet, only if it hasn't.
/// Returns whether all have. Ends with an error after the last list if something couldn't be read.
pub fn verify_all<W: BufferedOutput>(
    session: &Session<'_>,
    task: Task,
    lists: &[String],
    output: &mut W,
) -> Result<bool, Unanswered> {
    let mut found = Verified {
        failed: 0,
        is_empty: false,
        is_unread: false,
    };
    if lists.is_empty() {
        verify_list(session, task, "-", output, &mut found)?;
    }
    for list in lists {
        verify_list(session, task, list.as_str(), output, &mut found)?;
    }
    if 0 < found.failed {
        flush_to_report(session, output)?;
        let rt = session.rt;
        let _ = match found.failed {
            1 => rt.eprintln("capnp_canon: 1 listed message is missing or differs"),
            n => eprintln!(rt; "capnp_canon: {n} listed messages are missing or differ"),
        };
    }
    if found.is_unread {
        return Err(Unanswered::Said);
    }
    Ok(found.failed == 0 && !found.is_empty)
}

/// Verifies the list in the file `name`, or in standard input if `name` is `-`.
fn verify_list<W: BufferedOutput>(
    session: &Session<'_>,
    task: Task,
    name: &str,
    output: &mut W,
    found: &mut Verified,
) -> Result<(), Unanswered> {
    let rt = session.rt;
    let mut bytes = Vec::new(rt.alloc());
    if let Err(error) = read_list(rt, name, &mut bytes) {
        flush_to_report(session, output)?;
        let _ = match error_text(rt.alloc(), &error) {
            Ok(why) => eprintln!(rt; "capnp_canon: {name}: {why}"),
            Err(AllocError) => eprintln!(rt; "capnp_canon: {name}: {error}"),
        };
        found.is_unread = true;
        return Ok(());
    }
    let Ok(text) = str::from_utf8(bytes.as_slice()) else {
        flush_to_report(session, output)?;
        let _ = eprintln!(rt; "capnp_canon: {name}: {NO_UTF8}");
        found.is_unread = true;
        return Ok(());
    };
    match verify_lines(session, task, text, output, found) {
        Ok(Ok(lines)) => count_and_report_lines(session, name, lines, output, found),
        Ok(Err(unanswered)) => Err(unanswered),
        Err(AllocError) => {
            flush_to_report(session, output)?;
            let _ = rt.eprintln(NO_MEMORY);
            Err(Unanswered::Said)
        }
    }
}

/// Appends to `bytes` what the file `name` holds, or standard input if `name` is `-`.
fn read_list(rt: &HostRuntime, name: &str, bytes: &mut Vec<u8>) -> io::Result<()> {
    if name == "-" {
        rt.reader().read_to_end(bytes)?;
    } else {
        File::open(rt, name)?.read_to_end(bytes)?;
    }
    Ok(())
}

/// Verifies the lines of a list. Fails if there is no memory for what a line says.
fn verify_lines<W: BufferedOutput>(
    session: &Session<'_>,
    task: Task,
    text: &str,
    output: &mut W,
    found: &mut Verified,
) -> Result<Result<LineCounts, Unanswered>, AllocError> {
    let mut lines = LineCounts {
        read: 0,
        entries: 0,
        others: 0,
        first_other: 0,
    };
    let mut known = None;
    for line in text.split('\n') {
        let entry = parse_entry(session.rt.alloc(), line)?;
        lines.count(line.is_empty(), entry.is_some());
        if let Some(entry) = entry {
            match verify_entry(session, task, &entry, &mut known, output, found)? {
                Ok(()) => {}
                Err(unanswered) => return Ok(Err(unanswered)),
            }
        }
    }
    Ok(Ok(lines))
}

impl LineCounts {
    /// Counts a line.
    fn count(&mut self, is_empty: bool, is_entry: bool) {
        self.read = self.read.saturating_add(1);
        if is_entry {
            self.entries = self.entries.saturating_add(1);
        } else if !is_empty {
            if self.others == 0 {
                self.first_other = self.read;
            }
            self.others = self.others.saturating_add(1);
        }
    }
}

/// Verifies an entry, and writes the line about it. `known` has the digests of the file that was read
/// last; if that is another one, reads the entry's file. Fails if there is no memory for its name.
fn verify_entry<W: BufferedOutput>(
    session: &Session<'_>,
    task: Task,
    entry: &Entry<'_>,
    known: &mut Option<Digests>,
    output: &mut W,
    found: &mut Verified,
) -> Result<Result<(), Unanswered>, AllocError> {
    if !is_of_file(known, entry.name.as_str()) {
        let file = String::from_str(session.rt.alloc(), entry.name.as_str())?;
        match compute_digests(session, task, file.as_str(), output, found) {
            Ok(bytes) => *known = Some(Digests { file, bytes }),
            Err(unanswered) => return Ok(Err(unanswered)),
        }
    }
    let holds = match known {
        Some(digests) => has_digest(digests.bytes.bytes(), entry),
        None => false,
    };
    match count_and_report_entry(task, output, entry, holds, found) {
        Ok(()) => Ok(Ok(())),
        Err(DeviceFault) => Ok(Err(Unanswered::WriteFailed)),
    }
}

/// Whether these are the digests of the file `name`.
fn is_of_file(known: &Option<Digests>, name: &str) -> bool {
    match known {
        Some(digests) => digests.file.as_str() == name,
        None => false,
    }
}

/// Counts a list without entries, and one with other lines, and reports these.
fn count_and_report_lines<W: BufferedOutput>(
    session: &Session<'_>,
    list: &str,
    lines: LineCounts,
    output: &mut W,
    found: &mut Verified,
) -> Result<(), Unanswered> {
    if 0 < lines.others || lines.entries == 0 {
        flush_to_report(session, output)?;
        report_unparsed_lines(session.rt, list, lines.first_other, lines.others);
        found.is_unread |= 0 < lines.others;
        found.is_empty |= lines.others == 0;
    }
    Ok(())
}

/// Reports that lines of a list aren't those of `digest`, or that none is.
fn report_unparsed_lines(rt: &HostRuntime, list: &str, first: u64, others: u64) {
    let _ = match others {
        0 => eprintln!(rt; "capnp_canon: {list}: no line names a message"),
        1 => eprintln!(rt; "capnp_canon: {list}: line {first} is not as `digest` writes it"),
        _ => {
            let more = others - 1;
            eprintln!(rt;
                "capnp_canon: {list}: line {first} and {more} more are not as `digest` writes them"
            )
        }
    };
}

/// Returns the digests of the messages of a file, up to the first refused one: `LINE` bytes for
/// each.
fn compute_digests<W: BufferedOutput>(
    session: &Session<'_>,
    task: Task,
    name: &str,
    output: &mut W,
    found: &mut Verified,
) -> Result<MemoryOutput, Unanswered> {
    flush(output)?;
    let mut digests = MemoryOutput::new(session.rt.alloc());
    match answer_file(session, Work::Do(Job::Answer(task)), name, &mut digests) {
        Ok(_) => {}
        Err(Unanswered::Said) => found.is_unread = true,
        Err(Unanswered::WriteFailed) => {
            session.erase_line();
            let _ = session.rt.eprintln(NO_MEMORY);
            found.is_unread = true;
        }
    }
    Ok(digests)
}

/// Whether the digest of the entry is that of its message. `digests` has `LINE` bytes for each
/// message of the file.
fn has_digest(digests: &[u8], entry: &Entry<'_>) -> bool {
    let Some(at) = entry.number.checked_sub(1) else {
        return false;
    };
    let Some(start) = (at as usize).checked_mul(LINE) else {
        return false;
    };
    if digests.len() <= start || digests.len() - start < LINE {
        return false;
    }
    digests[start..start + DIGITS].eq_ignore_ascii_case(entry.digits.as_bytes())
}

/// Counts an entry whose message hasn't the digest, and writes the line about the entry; if the
/// task is quiet, only if its message hasn't the digest.
fn count_and_report_entry<W: BufferedOutput>(
    task: Task,
    output: &mut W,
    entry: &Entry<'_>,
    holds: bool,
    found: &mut Verified,
) -> Result<(), DeviceFault> {
    if !holds {
        found.failed = found.failed.saturating_add(1);
    }
    if holds && task.quiet {
        return Ok(());
    }
    write_entry_result(output, entry, holds)
}

/// Writes the line about an entry: whether its message has the digest.
fn write_entry_result<W: BufferedOutput>(
    output: &mut W,
    entry: &Entry<'_>,
    holds: bool,
) -> Result<(), DeviceFault> {
    if output.failed() {
        return Err(DeviceFault);
    }
    let name = entry.name.as_str();
    write_escape_mark(output, name)?;
    write_name_and_number(output, name, entry.number)?;
    if holds {
        write_all(output, b": OK\n")
    } else {
        write_all(output, b": FAILED\n")
    }
}

/// Returns what the line says; `None` if it isn't as `digest` writes it.
fn parse_entry(alloc: Global, line: &str) -> Result<Option<Entry<'_>>, AllocError> {
    let (is_escaped, rest) = match line.strip_prefix('\\') {
        Some(rest) => (true, rest),
        None => (false, line),
    };
    let Some((front, number)) = rest.rsplit_once(':') else {
        return Ok(None);
    };
    let (Some((digits, name)), Some(number)) = (split_digest_and_name(front), parse_number(number))
    else {
        return Ok(None);
    };
    let name = if is_escaped {
        unescape(alloc, name)?
    } else {
        String::from_str(alloc, name)?
    };
    Ok(Some(Entry {
        digits,
        name,
        number,
    }))
}

/// Returns the hex digits and the name in `front`, which are parted by two spaces, or by a space
/// and a `*`.
fn split_digest_and_name(front: &str) -> Option<(&str, &str)> {
    let (digits, rest) = front.split_at_checked(DIGITS)?;
    if !digits
        .as_bytes()
        .iter()
        .all(|byte| byte.is_ascii_hexdigit())
    {
        return None;
    }
    let name = match rest.strip_prefix("  ") {
        Some(name) => name,
        None => rest.strip_prefix(" *")?,
    };
    Some((digits, name))
}

/// Returns the number that `text` states in decimal digits; `None` if there are other characters, a
/// leading 0, or too many digits.
fn parse_number(text: &str) -> Option<u64> {
    if text.starts_with('0') || !text.as_bytes().iter().all(|byte| byte.is_ascii_digit()) {
        return None;
    }
    text.parse::<u64>().ok()
}

/// Returns `name` without the escapes of `sha256sum`.
fn unescape(alloc: Global, name: &str) -> Result<String, AllocError> {
    let mut plain = String::new(alloc);
    let mut is_escaped = false;
    for letter in name.chars() {
        if is_escaped {
            is_escaped = false;
            match letter {
                '\\' => plain.push('\\')?,
                'n' => plain.push('\n')?,
                'r' => plain.push('\r')?,
                other => {
                    plain.push('\\')?;
                    plain.push(other)?;
                }
            }
        } else if letter == '\\' {
            is_escaped = true;
        } else {
            plain.push(letter)?;
        }
    }
    if is_escaped {
        plain.push('\\')?;
    }
    Ok(plain)
}
