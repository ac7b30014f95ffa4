//! The commands and options, and how a text names one.
ghost use Rattle.std.specs.Prelude.{◌≡◌, ◌<◌, MatchOption, length};
ghost use Rattle.std.specs.List.{after_first, before_first, position_or_len};
ghost use Rattle.capnp_streams.specs.Arguments.{can_be_quiet, has_option_form, is_equals, option_named, option_text, plain_option_text, reads_lists, shows, subcommand_named, subcommand_text, takes_path, value_option_text, writes_words};

/// A command of `capnp_canon`, without its options.
#[derive(Clone, Copy, Debug, PartialEq, Eq)]
pub enum Subcommand {
    Canon,
    Check,
    Size,
    Digest,
    Validate,
    Show,
    Diff,
}

impl Subcommand {
    /// Returns the argument that is this command.
    pub fn text(self) -> &'static str
        ensures { result.now ≡ subcommand_text self }
    {
        match self {
            Subcommand::Canon => "canon",
            Subcommand::Check => "check",
            Subcommand::Size => "size",
            Subcommand::Digest => "digest",
            Subcommand::Validate => "validate",
            Subcommand::Show => "show",
            Subcommand::Diff => "diff",
        }
    }

    /// Whether the command has `--pack` and `--hex`.
    pub(super) fn writes_words(self) -> bool
        ensures { result ≡ writes_words self }
    {
        matches!(self, Subcommand::Canon)
    }

    /// Whether the command has `--quiet`.
    pub(super) fn can_be_quiet(self) -> bool
        ensures { result ≡ can_be_quiet self }
    {
        matches!(
            self,
            Subcommand::Check | Subcommand::Digest | Subcommand::Validate | Subcommand::Diff
        )
    }

    /// Whether the command has `--check`.
    pub(super) fn reads_lists(self) -> bool
        ensures { result ≡ reads_lists self }
    {
        matches!(self, Subcommand::Digest)
    }

    /// Whether the command has `--at`.
    pub(super) fn takes_path(self) -> bool
        ensures { result ≡ takes_path self }
    {
        matches!(
            self,
            Subcommand::Canon | Subcommand::Size | Subcommand::Digest | Subcommand::Show
        )
    }

    /// Whether the command has `--json`, `--values`, `--depth`, `--color` and `--bytes`.
    pub(super) fn shows(self) -> bool
        ensures { result ≡ shows self }
    {
        matches!(self, Subcommand::Show)
    }
}

/// An option that takes no value and says something about the task.
#[derive(Clone, Copy, Debug, PartialEq, Eq)]
pub enum PlainOption {
    Packed,
    Pack,
    Flat,
    FromFlat,
    Hex,
    Quiet,
    Check,
    CheckLetter,
    Json,
    Values,
    Color,
}

impl PlainOption {
    /// Returns the argument that is this option.
    pub fn text(self) -> &'static str
        ensures { result.now ≡ plain_option_text self }
    {
        match self {
            PlainOption::Packed => "--packed",
            PlainOption::Pack => "--pack",
            PlainOption::Flat => "--flat",
            PlainOption::FromFlat => "--from-flat",
            PlainOption::Hex => "--hex",
            PlainOption::Quiet => "--quiet",
            PlainOption::Check => "--check",
            PlainOption::CheckLetter => "-c",
            PlainOption::Json => "--json",
            PlainOption::Values => "--values",
            PlainOption::Color => "--color",
        }
    }
}

/// An option with a value.
#[derive(Clone, Copy, Debug, PartialEq, Eq)]
pub enum ValueOption {
    Nesting,
    Words,
    At,
    Depth,
    Bytes,
}

impl ValueOption {
    /// Returns the argument that is this option, without its value.
    pub fn text(self) -> &'static str
        ensures { result.now ≡ value_option_text self }
    {
        match self {
            ValueOption::Nesting => "--nesting",
            ValueOption::Words => "--words",
            ValueOption::At => "--at",
            ValueOption::Depth => "--depth",
            ValueOption::Bytes => "--bytes",
        }
    }
}

/// An option. `End` is `--`.
#[derive(Clone, Copy, Debug, PartialEq, Eq)]
pub enum OptionName {
    Help,
    HelpLetter,
    Version,
    VersionLetter,
    End,
    Plain(PlainOption),
    Valued(ValueOption),
}

impl OptionName {
    /// Returns the argument that is this option, without a value.
    pub fn text(self) -> &'static str
        ensures { result.now ≡ option_text self }
    {
        match self {
            OptionName::Help => "--help",
            OptionName::HelpLetter => "-h",
            OptionName::Version => "--version",
            OptionName::VersionLetter => "-V",
            OptionName::End => "--",
            OptionName::Plain(option) => option.text(),
            OptionName::Valued(option) => option.text(),
        }
    }
}

/// All options.
const OPTIONS: [OptionName; 21] = [
    OptionName::Help,
    OptionName::HelpLetter,
    OptionName::Version,
    OptionName::VersionLetter,
    OptionName::End,
    OptionName::Plain(PlainOption::Packed),
    OptionName::Plain(PlainOption::Pack),
    OptionName::Plain(PlainOption::Flat),
    OptionName::Plain(PlainOption::FromFlat),
    OptionName::Plain(PlainOption::Hex),
    OptionName::Plain(PlainOption::Quiet),
    OptionName::Plain(PlainOption::Check),
    OptionName::Plain(PlainOption::CheckLetter),
    OptionName::Plain(PlainOption::Json),
    OptionName::Plain(PlainOption::Values),
    OptionName::Plain(PlainOption::Color),
    OptionName::Valued(ValueOption::Nesting),
    OptionName::Valued(ValueOption::Words),
    OptionName::Valued(ValueOption::At),
    OptionName::Valued(ValueOption::Depth),
    OptionName::Valued(ValueOption::Bytes),
];

/// Whether `text` looks like an option: `-` followed by more. `-` by itself is a file.
pub(super) fn looks_like_option(text: &str) -> bool
    ensures { result ≡ has_option_form text.now }
{
    let bytes = text.as_bytes();
    1 < bytes.len() && bytes[0] == b'-'
}

/// The option whose text is `text`, if there is one.
pub fn option_of(text: &str) -> Option<OptionName>
    ensures { result ≡ option_named text.now }
{
    let mut rest = OPTIONS.as_slice();
    while let Some((option, more)) = rest.split_first() {
        if option.text() == text {
            return Some(*option);
        }
        rest = more;
    }
    None
}

/// The command whose text is `text`, if there is one.
pub(super) fn subcommand_of(text: &str) -> Option<Subcommand>
    ensures { result ≡ subcommand_named text.now }
{
    if text == "canon" {
        Some(Subcommand::Canon)
    } else if text == "check" {
        Some(Subcommand::Check)
    } else if text == "size" {
        Some(Subcommand::Size)
    } else if text == "digest" {
        Some(Subcommand::Digest)
    } else if text == "validate" {
        Some(Subcommand::Validate)
    } else if text == "show" {
        Some(Subcommand::Show)
    } else if text == "diff" {
        Some(Subcommand::Diff)
    } else {
        None
    }
}

/// Returns the parts of `text` before and after its first `=`; `None` if there is no `=`.
pub(super) fn split_at_equals(text: &str) -> Option<(&str, &str)>
    ensures { MatchOption result (position_or_len is_equals text.now ≡ length text.now) (λ x.
        (position_or_len is_equals text.now < length text.now)
        × (x.0.now ≡ before_first is_equals text.now)
        × (x.1.now ≡ after_first is_equals text.now)) }
{
    text.split_once('=')
}
