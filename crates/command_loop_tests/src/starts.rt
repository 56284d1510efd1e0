//! Arguments, the object of the command line, exit statuses, and the output on standard error.

use crate::checks::are_equal;
use crate::devices::{Paper, Script};
use crate::fixtures::*;
use crate::shelf::Shelf;
use command_loop::program;
use io_streams::Options;
use std::process::Abort;
use std::test::*;

/// Returns the status of the program over this input, and its output on both writers.
fn status(
    rt: &(impl Abort + AllocGlobal),
    texts: &[&str],
    reader: &mut Script<'_>,
    writer: &mut Paper,
    errors: &mut Paper,
) -> u8 {
    let words = command_line(rt, texts);
    let mut source = Shelf::new(rt.alloc());
    program(rt.alloc(), &words, reader, writer, errors, &mut source)
}

/// Returns input that cannot be read.
fn unreadable() -> Script<'static> {
    let mut reader = Script::new(b"11004\n", 4096);
    reader.until = 0;
    reader
}

/// Checks the status of the program over input that cannot be read, and its output on both writers.
pub fn ends(
    rt: &(impl Abort + AllocGlobal),
    texts: &[&str],
    wanted: u8,
    output: &[u8],
    message: &[u8],
) {
    let (mut writer, mut errors) = (Paper::new(), Paper::new());
    let mut reader = unreadable();
    let status = status(rt, texts, &mut reader, &mut writer, &mut errors);
    are_equal(
        rt,
        (status, writer.text(), errors.text()),
        (wanted, output, message),
    );
}

/// Arguments, and the exit status, output and message of the program.
#[test]
fn statuses(rt: HostRuntime) {
    let rows: [(&[&str], u8, &[u8], &[u8]); 5] = [
        // addresses that are answered
        (
            &["-e", "A", "-f", "1004", "1010"],
            0,
            b"leaf\n/src/a.c:11\n??\n??:0\n",
            b"",
        ),
        // no file
        (&["-e", "none"], 1, b"", b"addr2line_live: refused file\n"),
        // no object
        (
            &["-e", "A5", "0"],
            1,
            b"",
            b"addr2line_live: refused object .debug_info version at 0\n",
        ),
        // an invalid address, which is found before the file is read
        (
            &["-e", "none", "10", "zz", "yy"],
            2,
            b"",
            b"addr2line_live: bad address zz\n",
        ),
        // no address, so the input is read
        (&[], 1, b"", b"addr2line_live: reading failed\n"),
    ];
    for (arguments, status, output, message) in rows {
        ends(&rt, arguments, status, output, message);
    }
}

#[test]
fn help_that_cannot_be_written(rt: HostRuntime) {
    let (mut writer, mut errors) = (Paper::new(), Paper::new());
    writer.capacity = 0;
    let mut reader = unreadable();
    let status = status(&rt, &["--help"], &mut reader, &mut writer, &mut errors);
    let message = b"addr2line_live: writing failed\n";
    are_equal(&rt, (status, errors.text()), (1, message.as_slice()));
}

#[test]
fn commands_after_the_first_object(rt: HostRuntime) -> Result<(), Fail> {
    let mut options = Options::plain(rt.alloc());
    options.exe = Some(String::from_str(rt.alloc(), "A")?);
    compare(
        &rt,
        &mut options,
        b"1004\nload exe 0x10000 A\nmove exe 0x10000\n11004\nunload exe\n",
        b"/src/a.c:11\nrefused name-taken\nmoved exe 0x0000000000011000-0x0000000000012000\n\
            /src/a.c:11\nunloaded exe\n",
    );
    Ok(())
}

/// Checks the output of the program over this input. Its status is 0.
fn prints(rt: &(impl Abort + AllocGlobal), texts: &[&str], input: &[u8], wanted: &[u8]) {
    let (mut writer, mut errors) = (Paper::new(), Paper::new());
    let mut reader = Script::new(input, 7);
    let status = status(rt, texts, &mut reader, &mut writer, &mut errors);
    are_equal(
        rt,
        (status, writer.text(), errors.text()),
        (0, wanted, b"".as_slice()),
    );
}

/// Without arguments and input, the program writes nothing.
#[test]
fn no_input(rt: HostRuntime) {
    prints(&rt, &[], b"", b"");
}

#[test]
fn commands_of_standard_input(rt: HostRuntime) {
    let texts = ["-f", "--cache", "4"];
    let input = b"11004\nload a 0x10000 A\n11004\n";
    let wanted = b"??\n??:0\nloaded a 0x0000000000011000-0x0000000000012000\nleaf\n/src/a.c:11\n";
    prints(&rt, &texts, input, wanted);
}
