//! A walk over objects that counts their words and capabilities.
ghost use Rattle.std.specs.Prelude.{◌≡◌, ◌<◌, ◌+◌, ◌-◌, ◌^◌, ◌↔◌, IsOk, OnOk, OnErr};
ghost use Rattle.capnp_words.specs.declared.error.ErrorKind.TheVariants.{MessageTooLarge};
ghost use Rattle.capnp_pointers.specs.Measure.{FitSize};

use crate::pointers::MessageSize;
use capnp_words::error::ErrorKind;
use capnp_words::read_limiter::ReadLimiter;
use std::mem;

/// A walk over objects: the sums so far, and the limiter that it charges.
#[derive(Drop)]
pub(crate) struct Walk {
    /// The sums so far.
    pub(crate) sums: Sums,
    /// The limiter, moved here during the walk.
    pub(crate) lim: ReadLimiter,
}

/// The sums of a walk, and its refusal once it has stopped. The refusal is here so that calls
/// return a `Result` with `Stopped`, which fits a register; a `Result` with the refusal would be
/// written to memory at each level.
#[derive(Drop)]
pub(crate) struct Sums {
    /// The sums so far.
    pub(crate) size: MessageSize,
    /// Why the walk stopped. Before that, it has no meaning.
    pub(crate) refusal: ErrorKind,
    ghost fits: { FitSize size.word_count size.cap_count },
}

/// The walk has stopped, with its `refusal`.
#[derive(Clone, Copy)]
pub(crate) struct Stopped;

impl Walk {
    /// Begins a walk whose sum of words starts at `words`, and moves the limiter from `lim` into
    /// it. The caller moves the limiter back at the end.
    pub(crate) fn begin(words: u64, lim: &mut ReadLimiter) -> Self
        ensures words { result.sums.size.word_count ≡ words }
        ensures caps { result.sums.size.cap_count ≡ 0 }
        ensures limiter { result.lim ≡ lim.old }
    {
        let size = MessageSize {
            word_count: words,
            cap_count: 0,
        };
        Walk {
            sums: Sums {
                size,
                refusal: ErrorKind::ReadLimitExceeded,
            },
            lim: mem::replace(lim, ReadLimiter::new(None)),
        }
    }
}

impl Sums {
    /// Adds `words` to the number of words. If the sum doesn't fit 64 bits, stops the walk with
    /// `MessageTooLarge(usize::MAX)`.
    pub(crate) fn add_words(&mut self, words: u64) -> Result<(), Stopped>
        ensures exactly { IsOk result ↔ (self.old.size.word_count + words < 2 ^ 64) }
        ensures sum { OnOk result ((self.new.size.word_count ≡ self.old.size.word_count + words)
            × (self.new.size.cap_count ≡ self.old.size.cap_count)) }
        ensures named { OnErr result (self.new.refusal ≡ MessageTooLarge (2 ^ 64 - 1)) }
    {
        match self.size.word_count.checked_add(words) {
            Some(word_count) => {
                self.size.word_count = word_count;
                Ok(())
            }
            None => {
                self.refusal = ErrorKind::MessageTooLarge(usize::MAX);
                Err(Stopped)
            }
        }
    }

    /// Adds 1 to the number of capabilities. If the sum doesn't fit 32 bits, stops the walk with
    /// `MessageTooLarge(usize::MAX)`.
    pub(crate) fn add_capability(&mut self) -> Result<(), Stopped>
        ensures exactly { IsOk result ↔ (self.old.size.cap_count + 1 < 2 ^ 32) }
        ensures sum { OnOk result ((self.new.size.word_count ≡ self.old.size.word_count)
            × (self.new.size.cap_count ≡ self.old.size.cap_count + 1)) }
        ensures named { OnErr result (self.new.refusal ≡ MessageTooLarge (2 ^ 64 - 1)) }
    {
        match self.size.cap_count.checked_add(1) {
            Some(cap_count) => {
                self.size.cap_count = cap_count;
                Ok(())
            }
            None => {
                self.refusal = ErrorKind::MessageTooLarge(usize::MAX);
                Err(Stopped)
            }
        }
    }
}
