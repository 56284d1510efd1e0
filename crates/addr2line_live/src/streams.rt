//! The standard streams and the file system as the devices of a run.

use command_loop::{Device, FileSource, program};

/// Runs the program with the arguments of the command line, which start with the program's name.
/// Reads standard input, writes replies to standard output and faults to standard error, and loads
/// objects from files. Returns the exit status.
pub fn serve(rt: &HostRuntime, words: &[String]) -> u8 {
    let alloc = rt.alloc();
    let mut reader = Device::new(rt.stdin());
    let mut writer = Device::new(rt.stdout());
    let mut errors = Device::new(rt.stderr());
    let mut source = FileSource::new(alloc, rt);
    program(
        alloc,
        words,
        &mut reader,
        &mut writer,
        &mut errors,
        &mut source,
    )
}
