//! The texts that the program prints about itself, and the text of a system error.

use std::alloc::{AllocError, Global};
use std::io;

/// The program's name and version.
pub const VERSION: &str = "capnp_canon 1.1.0";

/// Printed after the line that says what is wrong with the arguments.
pub const HINT: &str = "Try 'capnp_canon --help' for more information.";

/// Printed if `diff` has fewer files or more.
pub const TWO_FILES: &str = "capnp_canon: 'diff' needs two files";

/// Printed if an argument isn't UTF-8 text.
pub const NO_TEXT: &str = "capnp_canon: an argument isn't UTF-8";

/// Printed after the name of a list that isn't UTF-8 text.
pub const NO_UTF8: &str = "the list isn't UTF-8";

/// Printed if there is no memory for the arguments or a buffer.
pub const NO_MEMORY: &str = "capnp_canon: memory exhausted";

/// Printed if the output failed; the reason follows, if it is known.
pub const WRITE_ERROR: &str = "capnp_canon: write error";

/// The help text.
pub const HELP: &str = "Usage: capnp_canon canon [--flat] [--pack] [--hex] [OPTION]... [FILE]...
  or:  capnp_canon check [--quiet] [OPTION]... [FILE]...
  or:  capnp_canon size [OPTION]... [FILE]...
  or:  capnp_canon digest [--check [--quiet]] [OPTION]... [FILE]...
  or:  capnp_canon validate [--schema FILE:TYPE] [--quiet] [OPTION]... [FILE]...
  or:  capnp_canon show [--json | --color] [--values] [--depth N] [OPTION]... [FILE]...
  or:  capnp_canon diff [--quiet] [OPTION]... FILE FILE
  or:  capnp_canon --help | --version
Reads framed Cap'n Proto messages from files or standard input, one after the other, and answers
each one.

canon        writes each message in canonical form, as a frame of one segment
  --flat     as raw words: the words of the message without a segment table
  --pack     packed
  --hex      as raw words in hex digits, one line for each message
check        writes a line for each message: `canonical`, or
             `not canonical: REASON at segment S, word W` (W counts words of 8 bytes, from 0)
  --quiet    writes nothing; only the exit status answers
size         writes a line for each message: `words N caps M`, without landing pads
digest       writes a line for each message, like sha256sum: `HASH  FILE:N`. HASH is the SHA-256 of
             what canon --flat writes, and N the number of the message in FILE, counted from 1
  -c, --check  reads such lines from each file, and writes for each `FILE:N: OK`, or if message N of
             FILE doesn't have this hash any more, `FILE:N: FAILED`
  --quiet    with --check, writes only those that failed
validate     tests whether each message is sound: whether its whole value can be read within the
             limits. Writes a line for each: `sound: depth D, words N, capabilities M`
  --schema FILE:TYPE  tests whether each message is a TYPE, a struct of the schema in FILE, which
             capnp compile -o- writes. Writes the line `conforms` for each
  --quiet    writes nothing; only the exit status answers
show         writes what each message holds, without its schema: a line for each object, with its
             path, its place, its sizes and its data, and `refused NAME` where a pointer is wrong
  --json     as JSON, one line for each message
  --values   without places, so that equal values are shown alike
  --color    with colors, for a terminal
  --depth N  follows at most N pointers below the first one (default 64)
  --bytes N  writes at most N bytes in all (default 1073741824, which is 1 GiB); none for no limit
diff         writes where the values of two files' messages differ first, and both values there, as
             show --json --values writes them: `message N: PATH`, `< VALUE`, `> VALUE`
  --quiet    writes nothing; only the exit status answers

  --at PATH     canon, size, digest and show are about a part of each message: the value of the
                pointer to which PATH leads, 1 to 32 indexes between dots, such as 0.2.[7].1 (see
                the manual)
  --packed      the input is packed
  --from-flat   the input is the raw words of one message; the commands other than canon also accept
                --flat as a name for this option
  --nesting N   the nesting limit: at most N structs and lists inside one another (default 64)
  --words N     the traversal limit of each message, and the most words of 8 bytes that its frame
                may have (default 8388608, which is 64 MiB); none for no limit
  --progress    shows on standard error how many bytes are read and how many messages are done, if
                that is a terminal; without this option, only if the command takes two seconds
  --no-progress  never shows this
-h, --help      prints this text
-V, --version   prints the program's name and version

Options may come anywhere, and --nesting=N works like --nesting N. If an option is repeated, the
last one counts. After --, no argument is an option. Files are read in turn; with no FILE, or when
FILE is -, standard input is read. With several files, each line of check, size, validate and show
starts with `FILE: `, unless it is JSON.

Before the program waits for more input, it writes all answers that it has. It ends at the first
message that is refused; the answers before it are written. Standard error then says
`capnp_canon: message N at byte B: refused NAME`. N counts from 1 and B from 0; in packed input, B
is a position in the unpacked stream. If files are named, `FILE: ` comes before `message`.

Exit status: 0 if every message is answered and, with check, canonical; 1 if check found one that
isn't, digest --check one that failed or a list without lines, show a pointer that is wrong, or diff
two messages that differ; 2 if a message is refused, a file can't be opened, the arguments are
wrong, show would write more than --bytes allows, or reading or writing failed.";

/// Returns the system's text for `error`, without the error's number.
pub fn error_text(alloc: Global, error: &io::Error) -> Result<String, AllocError> {
    let text = format!(in alloc; "{error}")?;
    match text.as_str().split_once(" (os error ") {
        Some((front, _)) => String::from_str(alloc, front),
        None => Ok(text),
    }
}
