//! Names, and the origin chains on which they are found.

use crate::fixtures::*;
use dwarf_bytes::{Cause, LoadFault, Section};
use dwarf_entries::{Scope, Scopes, Sections, TextOffset};
use std::process::Abort;
use std::test::*;

/// The strings `ab` at offset 0 and `c` at offset 3.
const TEXTS: [u8; 5] = [0x61, 0x62, 0, 0x63, 0];

/// A table of two string offsets, 3 and 0, whose base is 8.
const OFFSETS: [u8; 16] = [12, 0, 0, 0, 5, 0, 0, 0, 3, 0, 0, 0, 0, 0, 0, 0];

/// Adds the strings and their offsets to these sections.
fn with_texts(sections: Sections<'_>) -> Sections<'_> {
    Sections {
        debug_str: &TEXTS,
        debug_str_offsets: &OFFSETS,
        debug_line_str: &[0x78, 0, 0x79, 0x7a, 0, 0x78],
        ..sections
    }
}

/// Checks the name of a subprogram at offset 17, which is an index, in a unit with this base.
fn is_indexed(
    rt: &(impl Abort + AllocGlobal),
    base: u8,
    index: u8,
    wanted: Result<Option<TextOffset>, LoadFault>,
) {
    // str_offsets_base, and name as strx1
    let base = [base, 0, 0, 0];
    let index = [index];
    let object = OneScope::new(rt, (&[0x72, 0x17], &base), (&[0x03, 0x25], &index));
    is_named_or_refused(rt, &with_texts(object.sections()), wanted);
}

#[test]
fn names_by_index(rt: HostRuntime) {
    is_indexed(&rt, 8, 0, Ok(text(Section::DebugStr, 3)));
    is_indexed(&rt, 8, 1, Ok(text(Section::DebugStr, 0)));
    is_indexed(&rt, 8, 2, Err(fault(Cause::Index, 17)));
    is_indexed(&rt, 7, 0, Err(fault(Cause::Base, 12)));
    is_indexed(&rt, 16, 0, Err(fault(Cause::Short, 12)));
    is_indexed(&rt, 17, 0, Err(fault(Cause::Base, 12)));
}

#[test]
fn a_name_by_index_without_a_base(rt: HostRuntime) {
    let object = OneScope::new(&rt, (&[], &[]), (&[0x03, 0x25], &[0]));
    is_refused(&rt, &with_texts(object.sections()), Cause::Base, 13);
}

/// Reads a subprogram at offset 17 with a name in each form, or with an invalid name.
#[test]
fn forms_of_names(rt: HostRuntime) {
    let ab = text(Section::DebugStr, 0);
    let names: [(u8, &[u8], Option<TextOffset>); 13] = [
        // string, in the entry itself
        (0x08, &[0x7a, 0], text(Section::DebugInfo, 18)),
        (0x08, &[0], text(Section::DebugInfo, 18)),
        // strp
        (0x0e, &[3, 0, 0, 0], text(Section::DebugStr, 3)),
        (0x0e, &[4, 0, 0, 0], text(Section::DebugStr, 4)),
        (0x0e, &[5, 0, 0, 0], None),
        // line_strp: the last terminated string, and the unterminated bytes after it
        (0x1f, &[2, 0, 0, 0], text(Section::DebugLineStr, 2)),
        (0x1f, &[5, 0, 0, 0], None),
        // strx to strx4
        (0x1a, &[0x81, 0], ab),
        (0x25, &[1], ab),
        (0x26, &[1, 0], ab),
        (0x27, &[1, 0, 0], ab),
        (0x28, &[1, 0, 0, 0], ab),
        // indirect
        (0x16, &[0x25, 1], ab),
    ];
    for (form, values, wanted) in names {
        has_name(&rt, form, values, wanted);
    }
}

/// Checks the name of a subprogram at offset 17, which has this form and these bytes. Without an
/// expected name, the sections are refused.
fn has_name(rt: &(impl Abort + AllocGlobal), form: u8, values: &[u8], wanted: Option<TextOffset>) {
    let declared = [0x03, form];
    let root: Attributes<'_> = (&[0x72, 0x17], &[8, 0, 0, 0]);
    let object = OneScope::new(rt, root, (&declared, values));
    let wanted = match wanted {
        Some(_) => Ok(wanted),
        None => Err(fault(Cause::String, 17)),
    };
    is_named_or_refused(rt, &with_texts(object.sections()), wanted);
}

/// The index of a name is relative to the base of the unit that contains the name.
#[test]
fn names_of_another_unit(rt: HostRuntime) {
    let table = [
        1, 0x11, 1, 0x72, 0x17, 0, 0, // unit: str_offsets_base
        2, 0x2e, 0, 0x03, 0x25, 0, 0, // subprogram: name as strx1
        3, 0x2e, 0, 0x31, 0x10, 0, 0, // subprogram: abstract_origin as ref_addr
        4, 0x11, 1, 0, 0, // unit
        0,
    ];
    let units: [Unit<'_>; 3] = [
        // the name of index 0 at offset 17, and the origin 42 at offset 19
        (1, 0, &[1, 8, 0, 0, 0, 2, 0, 3, 42, 0, 0, 0, 0]),
        // the name of index 0 at offset 42, and the origin 17 at offset 44
        (1, 0, &[1, 24, 0, 0, 0, 2, 0, 3, 17, 0, 0, 0, 0]),
        // the origin 17 at offset 63, in a unit without a base
        (1, 0, &[4, 3, 17, 0, 0, 0, 0]),
    ];
    let info = units_of(&rt, &units);
    // a table with the offsets 3 and 0 at base 8, and a table with the offset 0 at base 24
    let offsets = [
        12, 0, 0, 0, 5, 0, 0, 0, 3, 0, 0, 0, 0, 0, 0, 0, 8, 0, 0, 0, 5, 0, 0, 0, 0, 0, 0, 0,
    ];
    let all = Sections {
        debug_str: &TEXTS,
        debug_str_offsets: &offsets,
        ..sections(&info, &table)
    };
    let read = scopes_of(&rt, &all);
    are_equal(
        &rt,
        read.roots(),
        [root(12, 0, 2), root(37, 2, 4), root(62, 4, 5)].as_slice(),
    );
    let c = text(Section::DebugStr, 3);
    let ab = text(Section::DebugStr, 0);
    have_names(&rt, &read, &[c, ab, ab, c, c]);
}

/// The declarations of subprograms with names and references.
const NAMED: [u8; 58] = [
    1, 0x11, 1, 0, 0, // unit
    // subprogram: abstract_origin as ref1, linkage_name as string
    2, 0x2e, 0, 0x31, 0x11, 0x6e, 0x08, 0, 0,
    // subprogram: name, linkage_name, specification
    3, 0x2e, 0, 0x03, 0x08, 0x6e, 0x08, 0x47, 0x11, 0, 0,
    // subprogram: name
    4, 0x2e, 0, 0x03, 0x08, 0, 0,
    // subprogram: specification, abstract_origin
    5, 0x2e, 0, 0x47, 0x11, 0x31, 0x11, 0, 0,
    // subprogram: specification
    6, 0x2e, 0, 0x47, 0x11, 0, 0,
    // subprogram: specification, abstract_origin as ref_sig8
    7, 0x2e, 0, 0x47, 0x11, 0x31, 0x20, 0, 0, 0,
];

/// A unit with these entries, by their offsets in the section.
const NAMED_ENTRIES: [u8; 35] = [
    1, // 12
    2, 17, 0x4c, 0, // 13: origin 17, linkage_name L
    3, 0x6e, 0, 0x4d, 0, 23, // 17: name n, linkage_name M, specification 23
    4, 0x6f, 0, // 23: name o
    5, 17, 23, // 26: specification 17, origin 23
    6, 23, // 29: specification 23
    3, 0, 0x4d, 0, 23, // 31: an empty name, linkage_name M, specification 23
    7, 23, 23, 0, 0, 0, 0, 0, 0, 0, // 36: specification 23, a signature
    0,
];

/// Returns the location of a string of `.debug_info`.
fn at(offset: usize) -> Option<TextOffset> {
    text(Section::DebugInfo, offset)
}

/// Checks the name and the linkage name of each scope.
fn have_both(rt: &impl Abort, read: &Scopes, names: &[(Option<TextOffset>, Option<TextOffset>)]) {
    are_equal(rt, read.scopes().len(), names.len());
    for (number, (scope, wanted)) in read.scopes().iter().zip(names).enumerate() {
        are_equal(rt, (number, both_of(scope)), (number, *wanted));
    }
}

fn both_of(scope: &Scope) -> (Option<TextOffset>, Option<TextOffset>) {
    (scope.name(), scope.linkage_name())
}

#[test]
fn first_names_on_a_path(rt: HostRuntime) {
    let info = unit(&rt, &NAMED_ENTRIES);
    let read = scopes_of(&rt, &sections(&info, &NAMED));
    let names = [
        (at(18), at(15)),
        (at(18), at(20)),
        (at(24), None),
        (at(24), None),
        (at(24), None),
        (at(32), at(33)),
        (None, None),
    ];
    have_both(&rt, &read, &names);
}

/// An origin chain may contain entries that are not scopes.
#[test]
fn paths_out_of_the_scopes(rt: HostRuntime) {
    let info = unit(&rt, &PATHS);
    let read = scopes_of(&rt, &sections(&info, &OUTSIDE));
    let both = (at(22), at(15));
    have_both(&rt, &read, &[both, both]);
}

/// The variable at offset 19 refers to offset 14, where there is no entry.
#[test]
fn a_path_to_no_entry(rt: HostRuntime) {
    let mut entries = PATHS;
    entries[8] = 14;
    is_invalid_unit(&rt, &entries, &OUTSIDE, Cause::Reference, 17);
}

/// The declarations of subprograms and variables with names and references.
const OUTSIDE: [u8; 36] = [
    1, 0x11, 1, 0, 0, // unit
    2, 0x2e, 0, 0x47, 0x11, 0x6e, 0x08, 0, 0, // subprogram: specification, linkage_name
    3, 0x2e, 0, 0x31, 0x11, 0, 0, // subprogram: abstract_origin
    4, 0x34, 0, 0x47, 0x11, 0, 0, // variable: specification
    5, 0x34, 0, 0x03, 0x08, 0, 0, // variable: name
    0,
];

/// A unit with these entries, by their offsets in the section.
const PATHS: [u8; 13] = [
    1, // 12
    2, 21, 0x4c, 0, // 13: specification 21, linkage_name L
    3, 19, // 17: origin 19
    4, 13, // 19: specification 13
    5, 0x76, 0, // 21: name v
    0,
];
