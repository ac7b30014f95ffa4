//! Levels of nesting: how many structs and lists may still be entered within a nesting limit.
ghost use Rattle.std.specs.Prelude.{◌≡◌, pred};
ghost use Rattle.capnp_pointers.specs.Source.{levels};

/// The number of levels that a nesting limit leaves.
#[inline(always)]
pub fn levels_left(nesting_limit: i32) -> u32
    ensures { result ≡ levels nesting_limit }
{
    nesting_limit.max(0) as u32
}

/// The nesting limit with one level less.
#[inline(always)]
pub fn one_level_less(nesting_limit: i32) -> i32
    ensures { levels result ≡ pred (levels nesting_limit) }
{
    nesting_limit.saturating_sub(1)
}
