//! The texts of the help and of refused arguments.

use crate::starts::ends;
use std::test::*;

/// The whole help.
const HELP: &[u8] = b"\
Converts run-time addresses to functions, files and lines while modules are loaded and unloaded.

Usage: addr2line_live [OPTIONS] [ADDR]...

Arguments:
  [ADDR]...  Answer these addresses instead of reading standard input

Options:
  -a, --addresses     Print the address before each answer
  -f, --functions     Print the names of functions
  -i, --inlines       Print the callers into which the code was inlined
  -p, --pretty-print  Print each frame on one line
  -s, --basenames     Print base names of files
      --linkage       Print linkage names if there are any
  -e, --exe <FILE>    Load FILE first, as module exe at base 0
      --cache <N>     Cache N answers, 0 to 65536 [default: 1024]
  -h, --help          Print help
  -V, --version       Print version

Without ADDR, commands are read from standard input, one a line. Each is answered at once:
  load NAME BASE PATH   load the object file PATH, with its link address 0 at BASE
  unload NAME           unload a module
  move NAME BASE        move a module to another base
  list                  list the modules by address, then print end
  ADDR                  print FILE:LINE for a run-time address
BASE and ADDR are hexadecimal, with or without 0x. NAME has letters, digits, '_', '-' and '.'.
A command that fails gets a reply that begins with refused, and changes nothing.

Example:
  $ printf 'load app 0x550000000000 ./app\\n550000001136\\n' | addr2line_live -f -i
  loaded app 0x0000550000000000-0x0000550000004030
  square
  /home/me/app.c:3
  main
  /home/me/app.c:7
";

fn help() -> &'static [u8] {
    HELP
}

/// The help is written to standard output, also after other options.
#[test]
fn prints_help(rt: HostRuntime) {
    for arguments in [["--help", "-f"], ["-f", "-h"]] {
        ends(&rt, &arguments, 0, help(), b"");
    }
}

/// The version is written to standard output, also after other options.
#[test]
fn prints_the_version(rt: HostRuntime) {
    for arguments in [["--version", "-f"], ["-f", "-V"]] {
        ends(&rt, &arguments, 0, b"addr2line_live 0.9.0\n", b"");
    }
}

/// Arguments that the parser refuses, and its message on standard error.
#[test]
fn prints_usage(rt: HostRuntime) {
    let refused: [([&str; 2], &[u8]); 3] = [
        (
            ["-x", "10"],
            b"error: unexpected argument '-x' found\n\n\
            \x20 tip: to pass '-x' as a value, use '-- -x'\n\n\
            Usage: addr2line_live [OPTIONS] [ADDR]...\n\nFor more information, try '--help'.\n",
        ),
        (
            ["--cache", "65537"],
            b"error: invalid value '65537' for '--cache <N>': 65537 is not in 0..=65536\n\n\
            For more information, try '--help'.\n",
        ),
        (
            ["-a", "-a"],
            b"error: the argument '--addresses' cannot be used multiple times\n\n\
            Usage: addr2line_live [OPTIONS] [ADDR]...\n\nFor more information, try '--help'.\n",
        ),
    ];
    for (arguments, message) in refused {
        ends(&rt, &arguments, 2, b"", message);
    }
}
