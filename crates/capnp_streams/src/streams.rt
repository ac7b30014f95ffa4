//! Does a job with each message of a stream.

mod answers;
mod arguments;
mod diffs;
mod flat;
mod input_form;
mod options;
mod packed;
mod parts;
mod path;
mod runs;
mod shows;
mod stream_error;
mod task;
mod writing;

pub use arguments::ArgumentFault;
pub use capnp_messages::messages::{Command, Form};
pub use diffs::{Compared, DiffFault, Side, run_diff, run_diff_flat, run_diff_packed};
pub use flat::run_flat;
pub use input_form::InputForm;
pub use options::{OptionName, PlainOption, Subcommand, ValueOption, option_of};
pub use packed::run_packed;
pub use path::{Path, paths_parsed};
pub use runs::{Stop, Summary, run};
pub use stream_error::StreamError;
pub use task::{DiffTask, Job, Request, ShowTask, Task, WrongArgument, named_files, parse_args};
