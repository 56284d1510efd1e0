//! Reads arguments from the parser's matches.

ghost use Rattle.std.specs.Prelude.{◌≡◌, map, option_map, codes};
ghost use Rattle.clap.specs.Walk.{rows_of, first_of, all_of, one_of};
ghost use Rattle.clap.specs.Matches.{found_of};
ghost use Rattle.command_line.specs.Settings.{is_flag, IsCacheSize};

use clap::ArgMatches;

/// The default capacity of the cache.
const DEFAULT_CACHE: usize = 1024;

/// Returns whether a flag is present.
pub fn is_set(matches: &ArgMatches<'_>, id: &str) -> bool
    ensures { result ≡ is_flag id.now (rows_of (found_of matches.now)) }
{
    match text(matches, id) {
        Some(value) => value == "true",
        None => false,
    }
}

/// Returns the value of an option, if it is present.
pub fn text<'a>(matches: &ArgMatches<'a>, id: &str) -> Option<&'a str>
    ensures { option_map (λ s. s.now) result ≡ first_of id.now (rows_of (found_of matches.now)) }
{
    matches.get_str(id)
}

/// Returns the positional arguments, if there are any.
pub fn words<'b, 'a>(matches: &'b ArgMatches<'a>) -> Option<&'b [&'a str]>
    ensures { option_map (λ s. map (λ v. v.now) s.now) result
        ≡ all_of (codes "words") (rows_of (found_of matches.entry.now)) }
{
    matches.get_strs("words")
}

/// Returns the maximum number of cached answers.
pub fn cache_size(matches: &ArgMatches<'_>) -> usize
    ensures { IsCacheSize (one_of (codes "cache") (rows_of (found_of matches.now))) result }
{
    match matches.get_one::<u32>("cache") {
        Some(size) => size as usize,
        None => DEFAULT_CACHE,
    }
}
