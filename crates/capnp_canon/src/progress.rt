//! Shows on standard error how far a long run has come, in one line that is erased at its end.

ghost use Rattle.std.specs.Prelude.{◌≡◌};

use capnp_framing::devices::{DeviceFault, Input};
use capnp_packing::buffered::BufferedInput;
use std::cell::Cell;
use std::io::{self, IsTerminal, Read, Write};
use std::time::Instant;

/// How many milliseconds a run takes before it shows its progress without being asked to.
const LONG: u64 = 2000;

/// The number of milliseconds from one line to the next.
const PAUSE: u64 = 200;

/// When the progress of a run is shown, if standard error is a terminal.
#[derive(Clone, Copy)]
pub enum ProgressDisplay {
    /// If the run takes long.
    IfLong,
    /// From its start on.
    Shown,
    /// Never.
    Hidden,
}

/// A run of a command: the program's runtime, and how far the run has come.
#[derive(Drop)]
pub struct Session<'a> {
    pub rt: &'a HostRuntime,
    progress: Cell<RunProgress>,
    /// The number of inputs that have begun.
    inputs: Cell<u64>,
    /// How often an input was asked whether a message is read ahead: once before each message of
    /// frames, and at the end.
    begun: Cell<u64>,
}

/// How far a run has come, and what the screen shows of it.
#[derive(Clone, Copy)]
struct RunProgress {
    /// When the run began; `None` if its progress isn't shown.
    start: Option<Instant>,
    /// The number of milliseconds after the start when the next line is due.
    due: u64,
    /// The number of bytes that are read.
    bytes: u64,
    /// Whether the line is on the screen.
    is_visible: bool,
    /// Whether standard output is on the screen, too.
    shares_screen: bool,
    /// Whether what is written to standard output ends in the middle of a line.
    is_within_line: bool,
}

impl<'a> Session<'a> {
    /// Begins a run that shows its progress as `display` says.
    pub fn new(rt: &'a HostRuntime, display: ProgressDisplay) -> Self {
        let start = match display {
            ProgressDisplay::Hidden => None,
            ProgressDisplay::IfLong | ProgressDisplay::Shown => Instant::now(rt).ok(),
        };
        let due = match display {
            ProgressDisplay::Shown => 0,
            ProgressDisplay::IfLong | ProgressDisplay::Hidden => LONG,
        };
        let progress = RunProgress {
            start,
            due,
            bytes: 0,
            is_visible: false,
            shares_screen: false,
            is_within_line: false,
        };
        Session {
            rt,
            progress: Cell::new(progress),
            inputs: Cell::new(0),
            begun: Cell::new(0),
        }
    }

    /// Counts bytes that were read, and shows the line if it is due.
    fn count_bytes(&self, count: usize) {
        let mut progress = self.progress.get();
        if let Some(start) = progress.start {
            progress.bytes = progress.bytes.saturating_add(count as u64);
            match milliseconds_since(self.rt, start) {
                Some(now) if progress.due <= now => {
                    progress.show_if_possible(self.rt, self.messages_done(), now);
                }
                _ => {}
            }
            self.progress.set(progress);
        }
    }

    /// The number of messages that are done, if they come in frames; otherwise 0.
    fn messages_done(&self) -> u64 {
        self.begun.get().saturating_sub(self.inputs.get())
    }

    /// Erases the line if it is on the screen.
    pub fn erase_line(&self) {
        let mut progress = self.progress.get();
        if progress.is_visible {
            let _ = eprint!(self.rt; "\r\x1b[K");
            progress.is_visible = false;
            self.progress.set(progress);
        }
    }

    /// Makes room for bytes that are written to standard output.
    fn begin_output(&self) {
        if self.progress.get().shares_screen {
            self.erase_line();
        }
    }

    /// Notes whether bytes that were written to standard output end in the middle of a line.
    fn end_output(&self, bytes: &[u8]) {
        let mut progress = self.progress.get();
        if let Some(last) = bytes.last() {
            progress.is_within_line = *last != b'\n';
            self.progress.set(progress);
        }
    }
}

/// The number of milliseconds since `start`; `None` if the clock can't be read.
fn milliseconds_since(rt: &HostRuntime, start: Instant) -> Option<u64> {
    let passed = start.elapsed(rt).ok()?;
    let seconds = passed.as_secs().saturating_mul(1000);
    Some(seconds.saturating_add(u64::from(passed.subsec_millis())))
}

impl RunProgress {
    /// Shows the line `now` milliseconds after the start, if standard error is a terminal. On a
    /// screen that also shows standard output, a line of the latter has to be complete. If standard
    /// error isn't a terminal, never shows it again.
    fn show_if_possible(&mut self, rt: &HostRuntime, messages: u64, now: u64) {
        self.due = now.saturating_add(PAUSE);
        if !self.is_visible {
            if !rt.stderr().is_terminal() {
                self.start = None;
                return;
            }
            self.shares_screen = rt.stdout().is_terminal();
        }
        if !self.shares_screen || !self.is_within_line {
            self.is_visible = true;
            show(rt, self.bytes, messages, now);
        }
    }
}

/// Writes the line over the one that is on the screen: how many bytes were read, how many messages
/// are done, if any are, and how many bytes were read in a second.
fn show(rt: &HostRuntime, bytes: u64, messages: u64, milliseconds: u64) {
    let tenths = bytes / 100_000;
    let (size, part) = (tenths / 10, tenths % 10);
    let tenths = bytes / milliseconds.max(PAUSE).saturating_mul(100);
    let (speed, rest) = (tenths / 10, tenths % 10);
    let _ = match messages {
        0 => eprint!(rt; "\rcapnp_canon: {size}.{part} MB, {speed}.{rest} MB/s\x1b[K"),
        1 => eprint!(rt; "\rcapnp_canon: {size}.{part} MB, 1 message, {speed}.{rest} MB/s\x1b[K"),
        n => {
            eprint!(rt; "\rcapnp_canon: {size}.{part} MB, {n} messages, {speed}.{rest} MB/s\x1b[K")
        }
    };
}

/// A reader whose bytes are counted, or a writer to standard output.
#[derive(Drop)]
pub struct Watched<'a, D> {
    device: D,
    session: &'a Session<'a>,
}

impl<'a, D> Watched<'a, D> {
    /// Makes a device that reads and writes like `device` in a run.
    pub fn new(device: D, session: &'a Session<'a>) -> Self
        ensures { result.device ≡ device }
    {
        Watched { device, session }
    }
}

impl<D: Read> Read for Watched<'_, D> {
    ghost remaining = { λ w. D.remaining w.device };

    fn read(&mut self, buf: &mut [u8]) -> io::Result<usize> {
        let n = self.device.read(buf)?;
        self.session.count_bytes(n);
        Ok(n)
    }
}

impl<D: Write> Write for Watched<'_, D> {
    ghost contents = { λ w. D.contents w.device };

    fn write(&mut self, buf: &[u8]) -> io::Result<usize> {
        self.session.begin_output();
        let n = self.device.write(buf)?;
        self.session.end_output(&buf[..n]);
        Ok(n)
    }

    fn flush(&mut self) -> io::Result<()> {
        self.device.flush()
    }
}

/// An input whose messages are counted.
#[derive(Drop)]
pub struct CountedInput<'a, R> {
    input: R,
    session: &'a Session<'a>,
}

impl<'a, R> CountedInput<'a, R> {
    /// Makes an input that reads like `input` in a run.
    pub fn new(input: R, session: &'a Session<'a>) -> Self
        ensures { result.input ≡ input }
    {
        session.inputs.set(session.inputs.get().saturating_add(1));
        CountedInput { input, session }
    }
}

impl<R: Input> Input for CountedInput<'_, R> {
    ghost remaining = { λ c. R.remaining c.input };

    ghost has_failed = { λ c. R.has_failed c.input };

    ghost ends_whole = { λ c. R.ends_whole c.input };

    fn read(&mut self, to: &mut [u8]) -> Result<usize, DeviceFault> {
        self.input.read(to)
    }

    fn failed(&self) -> bool {
        self.input.failed()
    }
}

impl<R: BufferedInput> BufferedInput for CountedInput<'_, R> {
    ghost has_enough = { λ c. R.has_enough c.input };

    fn is_ahead(&self) -> bool {
        let begun = &self.session.begun;
        begun.set(begun.get().wrapping_add(1));
        self.input.is_ahead()
    }
}
