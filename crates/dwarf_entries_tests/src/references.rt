//! References between entries.

use crate::fixtures::*;
use dwarf_bytes::{Cause, Section};
use dwarf_entries::TextOffset;
use dwarf_samples::inlined;
use std::process::Abort;
use std::test::*;

/// Builds a chain of subprograms from offset 13 on. Each except the last refers to the next one,
/// with `count` references in all. The last is named `z`.
fn linked(rt: &(impl Abort + AllocGlobal), count: u8) -> Vec<u8> {
    let mut entries = Vec::new(rt.alloc());
    put(rt, &mut entries, &[1]);
    for number in 1..=count {
        let next = number.saturating_mul(5).saturating_add(13);
        put(rt, &mut entries, &[2, next, 0, 0, 0]);
    }
    put(rt, &mut entries, &[3, 0x7a, 0, 0]);
    unit(rt, &entries)
}

/// A unit, a subprogram whose abstract_origin is ref4, and a subprogram with a name.
const LINKED: [u8; 20] = [
    1, 0x11, 1, 0, 0, // unit
    2, 0x2e, 0, 0x31, 0x13, 0, 0, // subprogram: abstract_origin as ref4
    3, 0x2e, 0, 0x03, 0x08, 0, 0, // subprogram: name as string
    0,
];

#[test]
fn linked_subprograms(rt: HostRuntime) {
    let info = linked(&rt, 16);
    let read = scopes_of(&rt, &sections(&info, &LINKED));
    have_names(&rt, &read, &[text(Section::DebugInfo, 94); 17]);
}

#[test]
fn one_reference_too_many(rt: HostRuntime) {
    let info = linked(&rt, 17);
    is_refused(&rt, &sections(&info, &LINKED), Cause::OriginDepth, 13);
}

/// A reference that exceeds the limit is not resolved, so it may be invalid.
#[test]
fn an_invalid_reference_after_the_last_one_allowed(rt: HostRuntime) {
    let mut info = linked(&rt, 17);
    are_equal(&rt, (info.len(), info.get(94)), (102, Some(&98)));
    if let Some(byte) = info.get_mut(94) {
        *byte = 0;
    }
    is_refused(&rt, &sections(&info, &LINKED), Cause::OriginDepth, 13);
}

/// Builds two units whose roots are named `q`, at offset 12, and `r`, at offset 28. The abstract
/// origin of the subprogram at 31 has this value.
fn referring(rt: &(impl Abort + AllocGlobal), value: &[u8]) -> Vec<u8> {
    let mut entries = Vec::new(rt.alloc());
    put(rt, &mut entries, &[1, 0x72, 0, 2]);
    put(rt, &mut entries, value);
    put(rt, &mut entries, &[0]);
    units_of(rt, &[(1, 0, &[1, 0x71, 0, 0]), (1, 0, &entries)])
}

#[test]
fn forms_of_references(rt: HostRuntime) {
    let q = text(Section::DebugInfo, 13);
    let r = text(Section::DebugInfo, 29);
    let references: [(u8, &[u8], Option<TextOffset>); 9] = [
        // ref1, ref2, ref4, ref8 and ref_udata are relative to the unit, ref_addr to the section
        (0x11, &[12], r),
        (0x12, &[12, 0], r),
        (0x13, &[12, 0, 0, 0], r),
        (0x14, &[12, 0, 0, 0, 0, 0, 0, 0], r),
        (0x15, &[0x8c, 0], r),
        (0x10, &[12, 0, 0, 0], q),
        (0x10, &[28, 0, 0, 0], r),
        // ref_sig8 is not followed
        (0x20, &[12, 0, 0, 0, 0, 0, 0, 0], None),
        // indirect
        (0x16, &[0x11, 12], r),
    ];
    for (form, value, name) in references {
        has_origin(&rt, form, value, name);
    }
}

/// Checks the name of the subprogram if its abstract origin has this form.
fn has_origin(rt: &(impl Abort + AllocGlobal), form: u8, value: &[u8], name: Option<TextOffset>) {
    let table = declarations(rt, (&[0x03, 0x08], &[]), (&[0x31, form], &[]));
    let info = referring(rt, value);
    let read = scopes_of(rt, &sections(&info, &table));
    have_names(rt, &read, &[name]);
}

#[test]
fn references_to_no_entry(rt: HostRuntime) {
    let references: [(u8, &[u8]); 11] = [
        // ref_addr: a header, within a root, the null entries of both units, beyond the section
        (0x10, &[0, 0, 0, 0]),
        (0x10, &[16, 0, 0, 0]),
        (0x10, &[13, 0, 0, 0]),
        (0x10, &[15, 0, 0, 0]),
        (0x10, &[36, 0, 0, 0]),
        (0x10, &[37, 0, 0, 0]),
        // ref1: the header of the unit, within its root, its null entry, beyond its end
        (0x11, &[0]),
        (0x11, &[13]),
        (0x11, &[17]),
        (0x11, &[18]),
        // ref8: a sum beyond 64 bits
        (0x14, &[0xff; 8]),
    ];
    for (form, value) in references {
        has_no_origin(&rt, form, value);
    }
}

/// Checks that the sections are refused if the abstract origin of the subprogram has this form.
fn has_no_origin(rt: &(impl Abort + AllocGlobal), form: u8, value: &[u8]) {
    let table = declarations(rt, (&[0x03, 0x08], &[]), (&[0x31, form], &[]));
    let info = referring(rt, value);
    is_refused(rt, &sections(&info, &table), Cause::Reference, 31);
}

/// References to null entries, to headers, and into the middle of entries of the first object.
#[test]
fn an_origin_that_is_no_entry(rt: HostRuntime) {
    let sample = inlined();
    let whole = sections_of(&rt, &sample);
    let mut info = [0; 96];
    info.copy_from_slice(&inlined()[163..259]);
    for origin in [0, 11, 13, 26, 91, 92, 93, 94, 95, 96, 255] {
        info[55] = origin;
        is_refused(
            &rt,
            &sections(&info, whole.debug_abbrev),
            Cause::Reference,
            54,
        );
    }
}

/// A reference that is relative to a unit cannot leave it: ref4 to the root of the next unit.
#[test]
fn references_out_of_the_unit(rt: HostRuntime) {
    let table = declarations(&rt, (&[], &[]), (&[0x31, 0x13], &[]));
    let units: [Unit<'_>; 2] = [(1, 0, &[1, 2, 31, 0, 0, 0, 0]), (1, 0, &[1, 0])];
    let reference = Some(fault(Cause::Reference, 13));
    have_fault(&rt, &units, &table, reference);
}

/// Entries of type units are not read: ref_addr to what would be the root of the unit before.
#[test]
fn references_into_a_type_unit(rt: HostRuntime) {
    let table = declarations(&rt, (&[], &[]), (&[0x31, 0x10], &[]));
    let units: [Unit<'_>; 2] = [(2, 0, &[1, 0]), (1, 0, &[1, 2, 12, 0, 0, 0, 0])];
    let reference = Some(fault(Cause::Reference, 27));
    have_fault(&rt, &units, &table, reference);
}
