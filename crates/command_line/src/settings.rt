//! The options of a run.

ghost use Rattle.std.specs.Prelude.{◌≡◌, IfOk, MatchResult, map, option_map, string_bytes};
ghost use Rattle.command_line.specs.Refusals.{AreOptions, IsRefused};

use crate::command::parse;
use crate::faults::CliFault;
use crate::matches::{cache_size, is_set, text, words};
use crate::words::addresses;
use io_streams::Options;
use std::alloc::{AllocError, Global};

/// Copies an optional string.
fn copy_string(alloc: Global, text: Option<&str>) -> Result<Option<String>, AllocError>
    ensures { IfOk result (λ copy.
        option_map string_bytes copy ≡ option_map (λ t. t.now) text.entry) }
{
    match text {
        None => Ok(None),
        Some(text) => Ok(Some(String::from_str(alloc, text)?)),
    }
}

/// Parses the options from the arguments of a command line, which start with the program's name. A
/// request for help or the version is returned as a refusal; its error contains the text.
pub fn options<'a>(alloc: Global, arguments: &'a [String]) -> Result<Options, CliFault<'a>>
    ensures { MatchResult result (AreOptions (map string_bytes arguments.entry.now))
        (IsRefused (map string_bytes arguments.entry.now)) }
{
    let matches = parse(alloc, arguments)?;
    let addresses = addresses(alloc, words(&matches))?;
    let exe = copy_string(alloc, text(&matches, "exe"))?;
    Ok(Options {
        addresses: is_set(&matches, "addresses"),
        functions: is_set(&matches, "functions"),
        inlines: is_set(&matches, "inlines"),
        pretty: is_set(&matches, "pretty-print"),
        basenames: is_set(&matches, "basenames"),
        linkage: is_set(&matches, "linkage"),
        exe,
        cache: cache_size(&matches),
        words: addresses,
    })
}
