//! The command line, as it is described to the parser.

ghost use Rattle.std.specs.Prelude.{◌≡◌, IfOk, MatchResult, map, false, string_bytes};
ghost use Rattle.clap.specs.Walk.{rows_of, rule_of};
ghost use Rattle.clap.specs.Matches.{found_of};
ghost use Rattle.clap.specs.Simple.{matches_of, app_of};
ghost use Rattle.clap.specs.Kinds.{HasKind};
ghost use Rattle.clap.specs.Faults.{fault_of};
ghost use Rattle.command_line.specs.CommandLine.{flag_rule, exe_rule, cache_rule, linkage_rule};
ghost use Rattle.command_line.specs.CommandLine.{words_rule, all_rules, our_app};
ghost use Rattle.command_line.specs.Refusals.{IsAccepted};

use crate::help::{ABOUT, COMMANDS, VERSION};
use clap::{Arg, ArgAction, ArgMatches, Command, Error};
use std::alloc::{AllocError, Global};

/// Returns a flag with a letter and a long name, which is also its id.
fn flag(alloc: Global, letter: char, name: &'static str, help: &'static str) -> Arg<'static>
    ensures rule { rule_of result ≡ flag_rule letter name.entry.now }
    ensures local { result.global ≡ false }
{
    Arg::new(alloc, name)
        .short(letter)
        .long(name)
        .help(help)
        .action(ArgAction::SetTrue)
}

/// Returns the flag for linkage names.
fn linkage(alloc: Global) -> Arg<'static>
    ensures rule { rule_of result ≡ linkage_rule }
    ensures local { result.global ≡ false }
{
    Arg::new(alloc, "linkage")
        .long("linkage")
        .help("Print linkage names if there are any")
        .action(ArgAction::SetTrue)
}

/// Returns the option for the object to load first.
fn exe(alloc: Global) -> Arg<'static>
    ensures rule { rule_of result ≡ exe_rule }
    ensures local { result.global ≡ false }
{
    Arg::new(alloc, "exe")
        .short('e')
        .long("exe")
        .value_name("FILE")
        .help("Load FILE first, as module exe at base 0")
        .action(ArgAction::Set)
}

/// Returns the option for the capacity of the cache.
fn cache<'a>(alloc: Global) -> Arg<'a>
    ensures rule { rule_of result ≡ cache_rule }
    ensures local { result.global ≡ false }
{
    Arg::new(alloc, "cache")
        .long("cache")
        .value_name("N")
        .help("Cache N answers, 0 to 65536 [default: 1024]")
        .action(ArgAction::Set)
        .value_parser(clap::value_parser!(u32).range(0..=65536))
}

/// Returns the positional arguments, which are addresses.
fn addresses(alloc: Global) -> Arg<'static>
    ensures rule { rule_of result ≡ words_rule }
    ensures local { result.global ≡ false }
{
    Arg::new(alloc, "words")
        .value_name("ADDR")
        .help("Answer these addresses instead of reading standard input")
        .action(ArgAction::Append)
}

/// Returns the command without its help and its version.
fn command<'a>(alloc: Global) -> Result<Command<'a>, AllocError>
    ensures { IfOk result (λ c. app_of c ≡ all_rules) }
{
    Command::new(alloc, "addr2line_live")
        .arg(flag(
            alloc,
            'a',
            "addresses",
            "Print the address before each answer",
        ))?
        .arg(flag(alloc, 'f', "functions", "Print the names of functions"))?
        .arg(flag(
            alloc,
            'i',
            "inlines",
            "Print the callers into which the code was inlined",
        ))?
        .arg(flag(alloc, 'p', "pretty-print", "Print each frame on one line"))?
        .arg(flag(alloc, 's', "basenames", "Print base names of files"))?
        .arg(linkage(alloc))?
        .arg(exe(alloc))?
        .arg(cache(alloc))?
        .arg(addresses(alloc))
}

/// Parses the arguments of a command line.
pub fn parse<'a>(alloc: Global, words: &'a [String]) -> Result<ArgMatches<'a>, Error>
    ensures { MatchResult result
        (λ m. IsAccepted (map string_bytes words.entry.now)
        × (rows_of (found_of m) ≡ matches_of our_app (map string_bytes words.entry.now)))
        (HasKind (fault_of our_app (map string_bytes words.entry.now))) }
{
    let command = command(alloc)?;
    command
        .about(ABOUT)
        .version(VERSION)
        .after_help(COMMANDS)
        .try_get_matches_from(words)
}
