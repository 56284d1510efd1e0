//! Objects that are refused.

use crate::checks::{are_equal, copy, expect};
use crate::table::fixtures::*;
use addr_table::Module;
use dwarf_bytes::{Cause, LoadFault, Section};
use dwarf_samples::*;
use std::process::Abort;
use std::test::*;

/// Checks that an object is refused and that its bytes are returned.
fn is_refused(
    rt: &(impl Abort + AllocGlobal),
    object: &[u8],
    section: Section,
    cause: Cause,
    at: u64,
) {
    let (back, fault) = expect(
        rt,
        Module::decode(rt.alloc(), copy(rt, object)).err(),
        "no fault",
    );
    are_equal(rt, fault, LoadFault { section, cause, at });
    are_equal(rt, back.as_slice(), object);
}

#[test]
fn samples_with_a_fault(rt: HostRuntime) {
    let info = Section::DebugInfo;
    is_refused(
        &rt,
        &cut_abbreviations(),
        Section::DebugAbbrev,
        Cause::Short,
        0,
    );
    is_refused(&rt, &circular_origins(), info, Cause::OriginDepth, 54);
    let line = many_directories_without_a_format();
    is_refused(&rt, &line, Section::DebugLine, Cause::FileFormat, 0);
    is_refused(&rt, &version_four(), info, Cause::Version, 0);
    is_refused(&rt, &call_file_outside(), info, Cause::CallFile, 54);
    is_refused(
        &rt,
        &cut_line_program(),
        Section::DebugLine,
        Cause::Short,
        0,
    );
    is_refused(&rt, &origin_of_no_entry(), info, Cause::Reference, 54);
}

#[test]
fn objects_without_a_file_header(rt: HostRuntime) {
    let sample = inlined();
    is_refused(&rt, &[], Section::Elf, Cause::NotElf, 0);
    let cut = sample.get(..63).unwrap_or(&[]);
    is_refused(&rt, cut, Section::Elf, Cause::NotElf, 0);
}

#[test]
fn a_root_of_no_program(rt: HostRuntime) {
    // the root's line program is at 1; and also with an invalid call file: the root is checked
    // first
    let mut object = inlined();
    object[176] = 1;
    is_refused(&rt, &object, Section::DebugInfo, Cause::StmtList, 12);
    let mut both = call_file_outside();
    both[176] = 1;
    is_refused(&rt, &both, Section::DebugInfo, Cause::StmtList, 12);
}

/// A compilation unit with stmt_list, a subprogram, and an inlined subroutine with a call file.
const ABBREV: [u8; 29] = [
    1, 0x11, 1, 0x10, 0x17, 0, 0, // unit: stmt_list
    2, 0x2e, 1, 0x03, 0x08, 0, 0, // subprogram: name
    3, 0x1d, 0, 0x58, 0x0b, 0, 0, // inlined subroutine: call_file
    4, 0x2e, 0, 0x58, 0x0b, 0, 0, // subprogram: call_file
    0,
];

#[test]
fn units_are_validated_in_order(rt: HostRuntime) {
    // a unit with an invalid call file, followed by a unit without a line program
    let mut info = Vec::new(rt.alloc());
    add_unit(&rt, &mut info, &[1, 0, 0, 0, 0, 2, b'f', 0, 3, 9, 0, 0]);
    add_unit(&rt, &mut info, &[1, 9, 0, 0, 0, 0]);
    let parts = Parts {
        abbrev: &ABBREV,
        info: &info,
        line: &inlined()[259..334],
        rnglists: &[],
    };
    let bytes = object(&rt, parts);
    // 12 bytes of the header, 5 of the root and 3 of the subprogram
    is_refused(&rt, &bytes, Section::DebugInfo, Cause::CallFile, 20);
}

#[test]
fn a_call_file_of_a_subprogram_is_not_checked(rt: HostRuntime) {
    let mut info = Vec::new(rt.alloc());
    add_unit(&rt, &mut info, &[1, 0, 0, 0, 0, 4, 9, 0]);
    let parts = Parts {
        abbrev: &ABBREV,
        info: &info,
        line: &inlined()[259..334],
        rnglists: &[],
    };
    let bytes = object(&rt, parts);
    are_equal(&rt, Module::decode(rt.alloc(), bytes).is_ok(), true);
}

// The test runner can make each allocation fail.
#[test]
fn out_of_memory_is_the_only_other_answer(rt: HostRuntime) -> Result<(), Fail> {
    let mut bytes = Vec::new(rt.alloc());
    bytes.extend_from_slice(&inlined())?;
    match Module::decode(rt.alloc(), bytes) {
        Ok(module) => are_equal(&rt, module.segments().list().len(), 4),
        Err((back, fault)) => {
            are_equal(
                &rt,
                fault,
                LoadFault::at_item(Section::Elf, Cause::Memory, 0),
            );
            are_equal(&rt, back.as_slice(), inlined().as_slice());
        }
    }
    Ok(())
}
