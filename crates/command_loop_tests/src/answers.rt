//! Output of answers with each option.

use crate::fixtures::*;
use std::test::*;

/// The linkage name of the sample begins with a control character, which is printed as `?`.
#[test]
fn linkage_names_come_first_if_asked_for(rt: HostRuntime) {
    let load = b"load a 0 linkage\n1004\n";
    let named = b"loaded a 0x0000000000001000-0x0000000000002000\nmid\n/src/a.c:11\n";
    let linked = b"loaded a 0x0000000000001000-0x0000000000002000\n?leaf\n/src/a.c:11\n";
    let runs: [Run<'_>; 2] = [(b"f", load, named), (b"fl", load, linked)];
    fresh(&rt, &runs);
}

#[test]
fn a_path_that_ends_in_a_slash_has_no_base_name(rt: HostRuntime) {
    let runs: [Run<'_>; 2] = [
        (
            b"s",
            b"load a 0 slash\n1000\n",
            b"loaded a 0x0000000000001000-0x0000000000002000\n??:10\n",
        ),
        (
            b"",
            b"load a 0 slash\n1000\n",
            b"loaded a 0x0000000000001000-0x0000000000002000\n/src/:10\n",
        ),
    ];
    fresh(&rt, &runs);
}

/// All frames for the first sample object, loaded at 0x10000: options, input and output.
#[test]
fn frames_of_the_first_object(rt: HostRuntime) {
    let runs: [Run<'_>; 3] = [
        // all frames with names
        (
            b"fi",
            b"11004\n",
            b"leaf\n/src/a.c:11\nmid\n/src/a.c:5\nmain\n/src/a.c:20\n",
        ),
        // all frames on a line each
        (
            b"afip",
            b"11004\n",
            b"0x0000000000011004: leaf at /src/a.c:11\n (inlined by) \
            mid at /src/a.c:5\n (inlined by) main at /src/a.c:20\n",
        ),
        // all frames without names
        (b"i", b"11004\n", b"/src/a.c:11\n/src/a.c:5\n/src/a.c:20\n"),
    ];
    loaded(&rt, &runs);
}

/// Other answers for that object: options, input and output.
#[test]
fn answers_of_the_first_object(rt: HostRuntime) {
    let runs: [Run<'_>; 6] = [
        // ranges are half open
        (b"f", b"0x11008\n", b"mid\n/src/a.c:11\n"),
        // plain answers
        (
            b"",
            b"11010\n0X11004\n1100F",
            b"??:0\nrefused command\n/src/a.c:11\n",
        ),
        // base names
        (
            b"s",
            b"load b 0x10fff A\n11004\n",
            b"refused overlap a\na.c:11\n",
        ),
        // an address and its place on a line
        (b"ap", b"11004\n", b"0x0000000000011004: /src/a.c:11\n"),
        // nothing known has no at
        (b"fp", b"11010\n", b"?? ??:0\n"),
        // without a linkage name, the name is printed
        (b"fl", b"11008\n", b"mid\n/src/a.c:11\n"),
    ];
    loaded(&rt, &runs);
}

/// Answers without that object: options, input and output.
#[test]
fn answers_of_other_objects(rt: HostRuntime) {
    let runs: [Run<'_>; 4] = [
        // nothing is known without modules
        (b"apf", b"0\n", b"0x0000000000000000: ?? ??:0\n"),
        // the first covering row answers
        (
            b"",
            b"load a 0x10000 B\n11000\n1100f\n11010\n",
            b"loaded a 0x0000000000011000-0x0000000000012000\n/src/a.c:12\n/src/a.c:12\n??:0\n",
        ),
        // a scope without code is passed over
        (
            b"fi",
            b"load a 0x10000 A4\n11004\n",
            b"loaded a 0x0000000000011000-0x0000000000012000\n\
            mid\n/src/a.c:11\nmain\n/src/a.c:20\n",
        ),
        // control characters are question marks
        (
            b"",
            b"load a 0 control\n1000\n",
            b"loaded a 0x0000000000001000-0x0000000000002000\n/src/a?.c:10\n",
        ),
    ];
    fresh(&rt, &runs);
}
