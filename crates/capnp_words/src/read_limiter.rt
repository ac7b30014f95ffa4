//! The traversal limit: how many words may still be charged for reading. It bounds the cost of
//! reading a small message whose pointers lead to the same words again and again.
ghost use Rattle.std.specs.Prelude.{◌≡◌, ◌^◌, ◌<◌, ◌↔◌, IsOk, OnOk, OnErr, IfErr};
ghost use Rattle.capnp_words.specs.Meter.{Meter, Allows, spent, counted, unused};
ghost use Rattle.capnp_words.specs.declared.error.ErrorKind.TheVariants.{ReadLimitExceeded};

use crate::error::ErrorKind;
use std::marker::Model;

/// What is left of a traversal limit, in words, and the number of pointers followed.
#[derive(Drop)]
pub struct ReadLimiter {
    words: Option<usize>,
    pointers: u64,
}

impl Model for ReadLimiter {
    ghost use Rattle.capnp_words.specs.Meter.{Meter};

    ghost Value = { Meter };

    ghost view = { λ a. record { left = a.words; followed = a.pointers } };
}

impl ReadLimiter {
    /// Makes a limiter with `limit` words left; `None` means no limit.
    pub fn new(limit: Option<usize>) -> Self
        ensures { result ≡ unused limit }
    {
        ReadLimiter {
            words: limit,
            pointers: 0,
        }
    }

    /// Charges `amount` words. Refuses with `ReadLimitExceeded` if fewer than `amount` words are
    /// left; a refusal charges nothing. Without a limit, never refuses.
    pub fn can_read(&mut self, amount: usize) -> Result<(), ErrorKind>
        ensures exactly { IsOk result ↔ Allows self.old amount }
        ensures granted { OnOk result (self.new ≡ spent self.old amount) }
        ensures refused { OnErr result (self.new ≡ self.old) }
        ensures named { IfErr result (λ e. e ≡ ReadLimitExceeded) }
    {
        if let Some(left) = self.words {
            if left < amount {
                return Err(ErrorKind::ReadLimitExceeded);
            }
            self.words = Some(left - amount);
        }
        Ok(())
    }

    /// The words left; `None` without a limit.
    pub fn left(&self) -> Option<usize>
        ensures { result ≡ self.now.left }
    {
        self.words
    }

    /// The number of non-null pointers that charged reads have followed. Once this number is
    /// `u64::MAX`, it stays the same.
    pub fn followed(&self) -> u64
        ensures { result ≡ self.now.followed }
    {
        self.pointers
    }

    /// Adds 1 to the number of pointers followed, unless that number is `u64::MAX`.
    pub fn count(&mut self)
        ensures counted { self.new ≡ counted self.old }
        ensures small { self.old.followed < 2 ^ 64 }
    {
        self.pointers = self.pointers.saturating_add(1);
    }
}
