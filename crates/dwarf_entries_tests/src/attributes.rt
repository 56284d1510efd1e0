//! Attributes in various forms.

use crate::fixtures::*;
use dwarf_bytes::Cause;
use std::process::Abort;
use std::test::*;

/// Attributes of the subprogram at offset 13 that are refused: the name and form of each, and its
/// value.
#[test]
fn forms_of_attributes(rt: HostRuntime) {
    let refused: [(&[u8], &[u8], Cause); 19] = [
        // name as data1, linkage_name as exprloc
        (&[0x03, 0x0b], &[0], Cause::AttrForm),
        (&[0x6e, 0x18], &[0], Cause::AttrForm),
        // low_pc as data8, high_pc as exprloc
        (&[0x11, 0x07], &[0; 8], Cause::AttrForm),
        (&[0x12, 0x18], &[0], Cause::AttrForm),
        // call_file as data16, call_line as flag
        (&[0x58, 0x1e], &[0; 16], Cause::AttrForm),
        (&[0x59, 0x0c], &[0], Cause::AttrForm),
        // abstract_origin as data4, specification as sec_offset
        (&[0x31, 0x06], &[0; 4], Cause::AttrForm),
        (&[0x47, 0x17], &[0; 4], Cause::AttrForm),
        // ranges as data4
        (&[0x55, 0x06], &[0; 4], Cause::AttrForm),
        // stmt_list and the bases as data4
        (&[0x10, 0x06], &[0; 4], Cause::AttrForm),
        (&[0x72, 0x06], &[0; 4], Cause::AttrForm),
        (&[0x73, 0x06], &[0; 4], Cause::AttrForm),
        (&[0x74, 0x06], &[0; 4], Cause::AttrForm),
        // negative counts, as sdata and as implicit_const
        (&[0x58, 0x0d], &[0x7f], Cause::AttrForm),
        (&[0x12, 0x21, 0x7f], &[], Cause::AttrForm),
        // name as indirect: with form data1, with form indirect, with an unknown form
        (&[0x03, 0x16], &[0x0b, 0], Cause::AttrForm),
        (&[0x03, 0x16], &[0x16, 0x08, 0], Cause::Form),
        (&[0x03, 0x16], &[0x02, 0], Cause::Form),
        // an unused attribute that is truncated
        (&[0x3a, 0x0a], &[9, 0], Cause::Short),
    ];
    for (declared, values, cause) in refused {
        is_invalid_scope(&rt, (declared, values), cause);
    }
}

/// Checks that a subprogram at offset 13 with these attributes is refused.
fn is_invalid_scope(rt: &(impl Abort + AllocGlobal), attributes: Attributes<'_>, cause: Cause) {
    let object = OneScope::new(rt, (&[], &[]), attributes);
    is_refused(rt, &object.sections(), cause, 13);
}

/// Reads call_file in each form of a count.
#[test]
fn forms_of_counts(rt: HostRuntime) {
    let counts: [(&[u8], &[u8]); 8] = [
        (&[0x58, 0x0b], &[7]),
        (&[0x58, 0x05], &[7, 0]),
        (&[0x58, 0x06], &[7, 0, 0, 0]),
        (&[0x58, 0x07], &[7, 0, 0, 0, 0, 0, 0, 0]),
        (&[0x58, 0x0f], &[0x87, 0]),
        (&[0x58, 0x0d], &[7]),
        (&[0x58, 0x21, 7], &[]),
        (&[0x58, 0x16], &[0x0d, 7]),
    ];
    for (declared, values) in counts {
        is_called_in_file_7(&rt, (declared, values));
    }
}

/// Checks that a subprogram with these attributes has the call file 7 and no call line.
fn is_called_in_file_7(rt: &(impl Abort + AllocGlobal), attributes: Attributes<'_>) {
    let object = OneScope::new(rt, (&[], &[]), attributes);
    let read = scopes_of(rt, &object.sections());
    let scope = expect(rt, read.scopes().first(), "no scope");
    are_equal(rt, call_of(&read, scope), (Some(7), None));
}
