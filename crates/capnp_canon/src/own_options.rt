//! The options that the program takes out of its arguments before it parses the others.

use crate::progress::ProgressDisplay;
use capnp_messages::messages::Command;
use capnp_streams::streams::{OptionName, Request, option_of};
use std::alloc::{AllocError, Global};

/// The arguments without `--progress`, `--no-progress` and `--schema`, and what these say.
#[derive(Drop)]
pub struct SplitArguments {
    /// The other arguments, in order.
    pub others: Vec<String>,
    pub progress: ProgressDisplay,
    /// The value of the last `--schema`.
    pub schema: Option<String>,
    /// Whether the last argument is `--schema`, without a value.
    pub lacks_schema: bool,
}

/// Why `--schema` is refused.
#[derive(Clone, Copy)]
pub enum SchemaFault {
    /// Its value is missing.
    MissingValue,
    /// Its value has no `:`.
    InvalidValue,
    /// The command doesn't have the option.
    NotOfCommand(&'static str),
}

/// Splits the arguments. The value of an option isn't an option, and after `--` no argument is one.
pub fn split_arguments(alloc: Global, args: &[String]) -> Result<SplitArguments, AllocError> {
    let mut others = Vec::new(alloc);
    let mut progress = ProgressDisplay::IfLong;
    let mut schema = None;
    let mut is_schema = false;
    let mut is_value = false;
    let mut has_ended = false;
    for arg in args {
        let text = arg.as_str();
        if is_schema {
            schema = Some(arg.clone()?);
            is_schema = false;
        } else if has_ended || is_value {
            is_value = false;
            others.push(arg.clone()?)?;
        } else if text == "--progress" {
            progress = ProgressDisplay::Shown;
        } else if text == "--no-progress" {
            progress = ProgressDisplay::Hidden;
        } else if text == "--schema" {
            is_schema = true;
        } else if let Some(value) = text.strip_prefix("--schema=") {
            schema = Some(String::from_str(alloc, value)?);
        } else {
            has_ended = text == "--";
            is_value = takes_value(text);
            others.push(arg.clone()?)?;
        }
    }
    Ok(SplitArguments {
        others,
        progress,
        schema,
        lacks_schema: is_schema,
    })
}

impl SplitArguments {
    /// Returns why `--schema` is refused in `request`; `None` if it isn't, or isn't there.
    pub fn schema_fault(&self, request: Request) -> Option<SchemaFault> {
        if self.lacks_schema {
            return Some(SchemaFault::MissingValue);
        }
        let Some(text) = &self.schema else {
            return None;
        };
        match command_of(request) {
            "validate" if text.as_str().contains(':') => None,
            "validate" => Some(SchemaFault::InvalidValue),
            command => Some(SchemaFault::NotOfCommand(command)),
        }
    }

    /// The value of `--schema`; an empty text if there is none.
    pub fn schema_text(&self) -> &str {
        match &self.schema {
            Some(text) => text.as_str(),
            None => "",
        }
    }
}

/// The command of a request.
fn command_of(request: Request) -> &'static str {
    match request {
        Request::Help => "--help",
        Request::Version => "--version",
        Request::Show(_) => "show",
        Request::Diff(_) => "diff",
        Request::Run(task) => match task.command {
            Command::Canon(_) => "canon",
            Command::Check => "check",
            Command::Size => "size",
            Command::Digest => "digest",
            Command::Validate => "validate",
        },
    }
}

/// Whether the argument after `text` is the value of the option `text`.
fn takes_value(text: &str) -> bool {
    matches!(option_of(text), Some(OptionName::Valued(_)))
}
