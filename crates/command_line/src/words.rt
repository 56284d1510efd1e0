//! Parses the addresses of a command line.

ghost use Rattle.std.specs.Prelude.{◌≡◌, map, Ok, MatchResult};
ghost use Rattle.command_line.specs.Settings.{numbers_of};
ghost use Rattle.command_line.specs.Private.Parsing.{IsInvalidArgument, texts_of};

use crate::faults::CliFault;
use crate::numbers::parse_number;
use std::alloc::Global;

/// Parses arguments as numbers. Returns the first argument that is not a number as the fault.
fn numbers<'a>(alloc: Global, words: &[&'a str]) -> Result<Vec<u64>, CliFault<'a>>
    ensures { MatchResult result
        (λ numbers. numbers_of (map (λ w. w.now) words.now) ≡ Ok numbers.items)
        (IsInvalidArgument (numbers_of (map (λ w. w.now) words.now))) }
{
    let mut numbers = Vec::new(alloc);
    for word in words {
        let Some(number) = parse_number(word.as_bytes()) else {
            return Err(CliFault::Address(word));
        };
        numbers.push(number)?;
    }
    Ok(numbers)
}

/// Parses the positional arguments as addresses, if there are any.
pub fn addresses<'a>(alloc: Global, words: Option<&[&'a str]>) -> Result<Vec<u64>, CliFault<'a>>
    ensures { MatchResult result (λ numbers. numbers_of (texts_of words.entry) ≡ Ok numbers.items)
        (IsInvalidArgument (numbers_of (texts_of words.entry))) }
{
    match words {
        Some(words) => numbers(alloc, words),
        None => Ok(Vec::new(alloc)),
    }
}
