//! The ends of a list of numbers.
ghost use Rattle.std.specs.Prelude.{◌≡◌};
ghost use Rattle.cfb_tables.specs.Listed.{last_or_end};
ghost use Rattle.cfb_tables.specs.Tables.{first_or_end};

use cfb_format::consts::END_OF_CHAIN;

/// The first number of a list, or END.
pub fn first_number(numbers: &[u32]) -> u32
    ensures { result ≡ first_or_end numbers.now }
{
    numbers.first().copied().unwrap_or(END_OF_CHAIN)
}

/// The last number of a list, or END.
pub fn last_number(numbers: &[u32]) -> u32
    ensures { result ≡ last_or_end numbers.now }
{
    numbers.last().copied().unwrap_or(END_OF_CHAIN)
}
