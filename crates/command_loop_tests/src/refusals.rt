//! Refusals and their reasons.

use crate::fixtures::*;
use std::test::*;

#[test]
fn lines_up_to_the_limit(rt: HostRuntime) {
    let mut input = [b'z'; 8206];
    input[..10].copy_from_slice(b"unload x\n\n");
    input[4106] = b'\n';
    input[8204] = b'\n';
    let wanted = b"refused no-module\nrefused command\nrefused long-line\n";
    loaded(&rt, &[(b"", &input[..8205], wanted)]);
}

/// Refusals after the first sample object was loaded: options, input and output.
#[test]
fn refusals_after_a_load(rt: HostRuntime) {
    let runs: [Run<'_>; 4] = [
        // lines that are no commands
        (
            b"",
            b"load a 0x30000 A\nloads a\nload a\nload a! 0 A\nload c 0x A\nload c 0 \n",
            b"refused name-taken\nrefused command\nrefused fields\nrefused name\nrefused number\n\
            refused path\n",
        ),
        // numbers that are no addresses
        (
            b"",
            b"12345678901234567\n11004\r\n",
            b"refused command\nrefused command\n",
        ),
        // objects that are none
        (
            b"",
            b"load c 0 empty\nload c 0 cut\nload c 0 none\nload c 0 large\nload c 0 short\n",
            b"refused object elf not-elf at 0\nrefused object elf not-elf at 0\nrefused file\n\
            refused too-large\nrefused memory\n",
        ),
        // the source is asked before the modules are checked
        (
            b"",
            b"load a 0 none\nload a 0 empty\n",
            b"refused file\nrefused name-taken\n",
        ),
    ];
    loaded(&rt, &runs);
}

/// Refusals without a module: options, input and output.
#[test]
fn refusals_without_modules(rt: HostRuntime) {
    let runs: [Run<'_>; 1] = [
        // fields of each command
        (
            b"",
            b"unload\nunload \nunload a b\n\
            move a\nmove a \nmove a! 0\nmove a 0 1\nmove a 0\nlist \n list\n \n\n",
            b"refused fields\nrefused name\nrefused fields\nrefused fields\nrefused number\n\
            refused name\nrefused fields\nrefused no-module\nrefused fields\nrefused command\n\
            refused command\n",
        ),
    ];
    fresh(&rt, &runs);
}

/// Malformed objects, with and without another module: input and output.
#[test]
fn malformed_objects(rt: HostRuntime) {
    let runs: [(&[u8], &[u8]); 5] = [
        // abbreviations cut short
        (
            b"load c 0 A1\n",
            b"refused object .debug_abbrev short at 0\n",
        ),
        // origins in a circle
        (
            b"load c 0 A2\n",
            b"refused object .debug_info origin-depth at 54\n",
        ),
        // directories without a format
        (
            b"load c 0 A3\n",
            b"refused object .debug_line file-format at 0\n",
        ),
        // units and calls
        (
            b"load c 0 A5\nload c 0 A6\n",
            b"refused object .debug_info version at 0\n\
            refused object .debug_info call-file at 54\n",
        ),
        // lines and references
        (
            b"load c 0 A7\nload c 0 A8\n",
            b"refused object .debug_line short at 0\nrefused object .debug_info reference at 54\n",
        ),
    ];
    refused(&rt, &runs);
}
