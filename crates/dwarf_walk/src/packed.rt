//! Narrow integers for compact storage.

ghost use Rattle.std.specs.Prelude.{◌<◌, ◌^◌, OkIff};

use std::alloc::AllocError;

/// Converts a number to 32 bits. A number of 2^32 or more is reported as an allocation failure.
pub fn narrow(number: usize) -> Result<u32, AllocError>
    ensures { OkIff result (number < 2 ^ 32) number }
{
    if number > u32::MAX as usize {
        return Err(AllocError);
    }
    Ok(number as u32)
}
