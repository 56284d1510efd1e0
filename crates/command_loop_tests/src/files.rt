//! Objects from files.

use crate::checks::are_equal;
use crate::devices::{Paper, Script};
use command_loop::{FetchFault, FileSource, Objects, Options, run};
use dwarf_samples::inlined;
use std::fs;
use std::test::*;

#[test]
fn reads_objects_from_files(rt: HostRuntime) -> Result<(), Fail> {
    fs::write(&rt, "inlined.o", inlined().as_slice())?;
    let mut source = FileSource::new(rt.alloc(), &rt);
    let bytes = source.fetch("inlined.o");
    fs::remove_file(&rt, "inlined.o")?;
    match bytes {
        Ok(bytes) => are_equal(&rt, bytes.as_slice(), inlined().as_slice()),
        Err(fault) => are_equal(&rt, fault, FetchFault::Memory),
    }
    Ok(())
}

#[test]
fn no_object_without_a_file(rt: HostRuntime) {
    let mut source = FileSource::new(rt.alloc(), &rt);
    for path in ["none", ".", ""] {
        let fault = source.fetch(path).err();
        are_equal(&rt, (path, fault), (path, Some(FetchFault::File)));
    }
}

/// Loads the first sample object from a file named `A`, and asks for addresses of it.
#[test]
fn serves_an_object_from_a_file(rt: HostRuntime) -> Result<(), Fail> {
    fs::write(&rt, "A", inlined().as_slice())?;
    let options = Options::plain(rt.alloc());
    let mut reader = Script::new(b"load a 0 A\n1000\n1003\n1004\n100f\n1010\n0\n", 4096);
    let mut writer = Paper::new();
    let mut source = FileSource::new(rt.alloc(), &rt);
    let result = run(rt.alloc(), &options, &mut reader, &mut writer, &mut source);
    fs::remove_file(&rt, "A")?;
    are_equal(&rt, result, Ok(()));
    let wanted = b"loaded a 0x0000000000001000-0x0000000000002000
/src/a.c:10
/src/a.c:10
/src/a.c:11
/src/a.c:11
??:0
??:0
";
    are_equal(&rt, writer.text(), wanted.as_slice());
    Ok(())
}
