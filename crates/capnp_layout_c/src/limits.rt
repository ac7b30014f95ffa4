//! The traversal limit as C has it: the words that are left. One number stands for no limit: each
//! call then has that many words, more than it can take, and leaves them all.
ghost use Rattle.std.specs.Prelude.{◌≡◌};
ghost use Rattle.capnp_layout_c.specs.Lent.{left_over, words_left};

use capnp_words::read_limiter::ReadLimiter;

/// The number that stands for no traversal limit.
pub const NO_LIMIT: u64 = u64::MAX;

// The words that a limiter has left.
#[inline(always)]
fn words_left(lim: &ReadLimiter) -> u64
    ensures { result ≡ words_left lim.now.left }
{
    match lim.left() {
        Some(words) => words as u64,
        None => 0,
    }
}

/// Stores the words that a limiter has left in `left`. Without a limit nothing is written, so `left`
/// may then be in memory that can't be.
#[inline(always)]
pub fn store_left(lim: &ReadLimiter, left: &mut u64)
    ensures { left.new ≡ left_over left.old lim.now.left }
{
    if *left < NO_LIMIT {
        *left = words_left(lim);
    }
}
