//! Re-reading of entries at their offsets.

use crate::fixtures::*;
use dwarf_bytes::{Cause, Cursor};
use dwarf_units::{
    AttributeValue, EntryValues, Tables, UnitTable, UsedAttributes, UsedName, units,
};
use std::process::Abort;
use std::test::*;

/// A used attribute, and its form and number if the entry has it.
type Value = (UsedName, Option<(u64, u64)>);

/// Reads the subprogram of a unit, which is at offset 13, with attributes of these names and
/// forms. Checks some values, the end of the entry, and whether its size is fixed, if 263 bytes
/// follow the unit.
fn is_read(
    rt: &(impl Abort + AllocGlobal),
    forms: &[u8],
    bytes: &[u8],
    values: &[Value],
    end: usize,
    fixed: bool,
) {
    let table = declarations(rt, (&[], &[]), (forms, &[]));
    let mut info = one_scope(rt, (&[], &[]), (&[], bytes));
    let headers = expect(rt, units(rt.alloc(), &info).ok(), "the unit is refused");
    let Ok(mut tables) = Tables::validate(rt.alloc(), &table, &headers) else {
        panic!(rt; "the table is refused");
    };
    let header = expect(rt, headers.first(), "no unit");
    let Ok(number) = tables.number_of(rt.alloc(), header) else {
        panic!(rt; "no table");
    };
    are_equal(rt, tables.is_number_of(header, number), true);
    are_equal(
        rt,
        tables.is_number_of(header, number.wrapping_add(1)),
        false,
    );
    let table = tables.table(number);
    put(rt, &mut info, &[0; 263]);
    is_entry(rt, &table, &info, values, end);
    if fixed {
        is_fixed(rt, &table, &info, values, end);
    }
    are_equal(rt, table.fixed_size_entry(&info, 13).is_some(), fixed);
}

/// Reads the entry at offset 13. Checks its values and its end, and that the null entry after it
/// is refused.
fn is_entry(rt: &impl Abort, table: &UnitTable<'_>, info: &[u8], values: &[Value], end: usize) {
    let mut cursor = Cursor::new(info);
    expect(rt, cursor.seek(13).ok(), "no entry");
    let mut found = UsedAttributes::none();
    let tag = table.read_entry(&mut cursor, &mut found);
    are_equal(rt, tag, Ok(0x2e));
    for (name, parts) in values {
        are_equal(rt, parts_of(found.value(*name)), *parts);
    }
    are_equal(rt, cursor.place(), end);
    let null = table.read_entry(&mut cursor, &mut found);
    are_equal(rt, null, Err(Cause::AbbrevCode));
}

/// Reads the values of the entry at offset 13 by their positions. Checks that it is not found if
/// only 262 bytes follow its code, and that the null entry after it is not found.
fn is_fixed(rt: &impl Abort, table: &UnitTable<'_>, info: &[u8], values: &[Value], end: usize) {
    let entry = expect(
        rt,
        table.fixed_size_entry(info, 13),
        "no entry of a fixed size",
    );
    are_equal(rt, entry.tag, 0x2e);
    are_equal(rt, entry.after, end);
    for (name, parts) in values {
        are_equal(rt, parts_of(entry.values.value(*name)), *parts);
    }
    let part = expect(rt, info.get(..276), "the unit ends too early");
    are_equal(rt, table.fixed_size_entry(part, 13).is_some(), false);
    are_equal(rt, table.fixed_size_entry(info, end).is_some(), false);
}

/// Returns the form and the number of a value.
fn parts_of(value: Option<AttributeValue>) -> Option<(u64, u64)> {
    match value {
        Some(value) => Some((value.form, value.number)),
        None => None,
    }
}

#[test]
fn entries_at_their_places(rt: HostRuntime) {
    // subprogram: decl_file as data1, name as string, high_pc as data1
    let forms = [0x3a, 0x0b, 0x03, 0x08, 0x12, 0x0b];
    let values = [
        (UsedName::Name, Some((0x08, 15))),
        (UsedName::HighPc, Some((0x0b, 9))),
        (UsedName::LowPc, None),
    ];
    is_read(&rt, &forms, &[7, 0x66, 0, 9], &values, 18, false);
}

/// Reads an entry whose used attributes are after 70 others in its declaration. Most of the others
/// take no bytes.
#[test]
fn entry_of_a_long_list(rt: HostRuntime) {
    let mut forms = Vec::new(rt.alloc());
    for name in 0u8..70 {
        // the first and the last as data1, the others as flag_present
        let form = if name == 0 || name == 69 { 0x0b } else { 0x19 };
        put(&rt, &mut forms, &[0x80 | name, 0x40, form]);
    }
    // name as string, high_pc as data1
    put(&rt, &mut forms, &[0x03, 0x08, 0x12, 0x0b]);
    let values = [
        (UsedName::Name, Some((0x08, 16))),
        (UsedName::HighPc, Some((0x0b, 9))),
        (UsedName::LowPc, None),
    ];
    is_read(&rt, &forms, &[7, 8, 0x66, 0, 9], &values, 19, false);
}

/// Reads an entry of a fixed size, with numbers of 1, 2, 3, 4 and 8 bytes and a constant of its
/// declaration.
#[test]
fn entry_of_a_fixed_size(rt: HostRuntime) {
    // subprogram: low_pc as addr, high_pc as data4, decl_file as data1, name as strp,
    // abstract_origin as ref4, call_file as implicit_const 3, call_line as data2, linkage_name as
    // strx3, specification as ref1
    let forms = [
        0x11, 0x01, 0x12, 0x06, 0x3a, 0x0b, 0x03, 0x0e, 0x31, 0x13, 0x58, 0x21, 3, 0x59, 0x05,
        0x6e, 0x27, 0x47, 0x11,
    ];
    let bytes = [
        0x10, 0x20, 0, 0, 0, 0, 0, 0, 0x44, 0x33, 0x22, 0x11, 7, 1, 2, 0, 0, 12, 0, 0, 0, 0x39,
        0x30, 3, 2, 1, 13,
    ];
    let values = [
        (UsedName::LowPc, Some((0x01, 0x2010))),
        (UsedName::HighPc, Some((0x06, 0x1122_3344))),
        (UsedName::Name, Some((0x0e, 0x201))),
        (UsedName::AbstractOrigin, Some((0x13, 12))),
        (UsedName::CallFile, Some((0x21, 3))),
        (UsedName::CallLine, Some((0x05, 12_345))),
        (UsedName::LinkageName, Some((0x27, 0x01_0203))),
        (UsedName::Specification, Some((0x11, 13))),
        (UsedName::Ranges, None),
    ];
    is_read(&rt, &forms, &bytes, &values, 41, true);
}

/// Reads an entry of a fixed size with a stmt_list, which has no slot: it is used of units alone.
#[test]
fn entry_with_an_attribute_of_units(rt: HostRuntime) {
    // subprogram: high_pc as data1, stmt_list as sec_offset
    let forms = [0x12, 0x0b, 0x10, 0x17];
    let values = [
        (UsedName::HighPc, Some((0x0b, 9))),
        (UsedName::StmtList, Some((0x17, 7))),
        (UsedName::LowPc, None),
    ];
    is_read(&rt, &forms, &[9, 7, 0, 0, 0], &values, 19, false);
}
