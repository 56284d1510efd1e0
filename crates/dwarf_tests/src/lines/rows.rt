//! The rows of line programs.

use crate::checks::{are_equal, put};
use crate::lines::fixtures::*;
use dwarf_bytes::Cause;
use dwarf_lines::{LineTables, ProgramNo};
use dwarf_samples::format_of_64_bits;

#[test]
fn standard_opcodes_move_the_address(rt: HostRuntime) {
    // set_address 0x1000, copy, const_add_pc, copy, fixed_advance_pc 5, copy, advance_pc 1, end
    let line = with_instructions(
        &rt,
        &[
            0, 9, 2, 0, 0x10, 0, 0, 0, 0, 0, 0, 1, 8, 1, 9, 5, 0, 1, 2, 1, 0, 1, 1,
        ],
    );
    are_equal(&rt, line.len(), 78);
    are_equal(&rt, line.first().copied(), Some(0x4a));
    let rows = [
        row(0, 0x1000, 1),
        row(0, 0x1011, 1),
        row(0, 0x1016, 1),
        end(0, 0x1017),
    ];
    has_rows(&rt, line.as_slice(), &rows);
}

#[test]
fn a_file_is_set_and_a_line_is_advanced(rt: HostRuntime) {
    // set_address 0x1000, set_file 0, copy, advance_line 5, copy, advance_pc 1, end
    let mut first = row(0, 0x1000, 1);
    first.file = 0;
    let mut second = row(0, 0x1000, 6);
    second.file = 0;
    have_rows(
        &rt,
        &[
            0, 9, 2, 0, 0x10, 0, 0, 0, 0, 0, 0, 4, 0, 1, 3, 5, 1, 2, 1, 0, 1, 1,
        ],
        &[first, second, end(0, 0x1001)],
    );
}

#[test]
fn operands_have_one_byte_or_more(rt: HostRuntime) {
    // set_address 0x1000, advance_line 200, set_column 300, copy, negate_stmt, advance_line -200,
    // advance_pc 300, special +4 +1, set_column 16,384, const_add_pc, advance_line 16,384,
    // set_file 0, copy, set_basic_block, set_file 1, special +0 +0, fixed_advance_pc 5, end
    let mut of_file_0 = row(0, 0x1141, 16_386);
    of_file_0.file = 0;
    have_rows(
        &rt,
        &[
            0, 9, 2, 0, 0x10, 0, 0, 0, 0, 0, 0, 3, 0xc8, 1, 5, 0xac, 2, 1, 6, 3, 0xb8, 0x7e, 2,
            0xac, 2, 0x4b, 5, 0x80, 0x80, 1, 8, 3, 0x80, 0x80, 1, 4, 0, 1, 7, 4, 1, 0x12, 9, 5, 0,
            0, 1, 1,
        ],
        &[
            row(0, 0x1000, 201),
            row(0, 0x1130, 2),
            of_file_0,
            row(0, 0x1141, 16_386),
            end(0, 0x1146),
        ],
    );
}

#[test]
fn rows_after_valid_ones_are_refused(rt: HostRuntime) {
    // copy, special +0 -5, end; copy, set_file 2, copy, end
    have_fault(&rt, &[1, 0x0d, 0, 1, 1], Cause::LineRange);
    have_fault(&rt, &[1, 4, 2, 1, 0, 1, 1], Cause::FileIndex);
    // copy, set_address 2^64 - 2, special +4 +1, end
    have_fault(
        &rt,
        &[
            1, 0, 9, 2, 254, 255, 255, 255, 255, 255, 255, 255, 0x4b, 0, 1, 1,
        ],
        Cause::Overflow,
    );
}

#[test]
fn rows_of_one_and_two_sequences(rt: HostRuntime) {
    let rows = [row(0, 0x1000, 10), row(0, 0x1004, 11), end(0, 0x1010)];
    has_rows(&rt, &one_sequence(), &rows);
    let rows = [
        row(0, 0x1000, 10),
        row(0, 0x1000, 12),
        end(0, 0x1010),
        row(0, 0x1000, 99),
        end(0, 0x1010),
    ];
    has_rows(&rt, &two_sequences(), &rows);
}

#[test]
fn programs_start_where_the_last_one_ends(rt: HostRuntime) {
    let tables = read(&rt, &two_programs());
    are_equal(&rt, tables.program_at(0), Some(ProgramNo(0)));
    are_equal(&rt, tables.program_at(75), Some(ProgramNo(1)));
    for offset in [1, 74, 76, 172, u64::MAX] {
        are_equal(&rt, (offset, tables.program_at(offset)), (offset, None));
    }
    are_equal(&rt, tables.rows().len(), 8);
    are_equal(&rt, tables.rows().get(3).copied(), Some(row(1, 0x1000, 10)));
    are_equal(&rt, tables.files(ProgramNo(1)), 2);
    are_equal(&rt, tables.files(ProgramNo(2)), 0);
    are_equal(&rt, tables.path(ProgramNo(2), 0).is_none(), true);
    are_equal(&rt, tables.path(ProgramNo(1), 2).is_none(), true);
}

#[test]
fn sums_are_checked_when_a_row_is_built(rt: HostRuntime) {
    // advance_line -5, advance_line 5, set_address 2^64 - 1, advance_pc 1, set_address 7, copy, end
    have_rows(
        &rt,
        &[
            3, 0x7b, 3, 5, 0, 9, 2, 255, 255, 255, 255, 255, 255, 255, 255, 2, 1, 0, 9, 2, 7, 0, 0,
            0, 0, 0, 0, 0, 1, 0, 1, 1,
        ],
        &[row(0, 7, 1), end(0, 7)],
    );
    have_fault(
        &rt,
        &[
            0, 9, 2, 254, 255, 255, 255, 255, 255, 255, 255, 2, 2, 1, 0, 1, 1,
        ],
        Cause::Overflow,
    );
    have_fault(
        &rt,
        &[2, 9, 1, 0, 9, 2, 8, 0, 0, 0, 0, 0, 0, 0, 0, 1, 1],
        Cause::GoesBack,
    );
}

/// Returns the line program of the sample in the 64-bit format.
fn program_of_64_bits() -> [u8; 87] {
    let mut line = [0; 87];
    line.copy_from_slice(&format_of_64_bits()[275..362]);
    line
}

#[test]
fn a_program_of_the_64_bit_format_has_the_same_rows(rt: HostRuntime) {
    let mut line = copy(&rt, &program_of_64_bits());
    put(&rt, &mut line, &one_sequence());
    let tables = read(&rt, line.as_slice());
    let rows = [
        row(0, 0x1000, 10),
        row(0, 0x1004, 11),
        end(0, 0x1010),
        row(1, 0x1000, 10),
        row(1, 0x1004, 11),
        end(1, 0x1010),
    ];
    are_rows(&rt, &tables, &rows);
    are_equal(&rt, tables.program_at(87), Some(ProgramNo(1)));
    has_path(&rt, &tables, [line.as_slice(), &[], &[]], 1, b"/src/a.c");
}

#[test]
fn changed_bytes_of_a_program_of_the_64_bit_format(rt: HostRuntime) {
    for (place, byte, cause) in [
        (0usize, 0xf0u8, Cause::Length),
        (11, 1, Cause::Short),
        (23, 1, Cause::Short),
        (16, 6, Cause::Short),
    ] {
        let mut line = program_of_64_bits();
        if let Some(changed) = line.get_mut(place) {
            *changed = byte;
        }
        let actual = fault_of(&rt, &line);
        are_equal(&rt, (place, actual), (place, Some(fault(cause, 0))));
    }
}

#[test]
fn a_sequence_at_a_tombstone_has_no_rows(rt: HostRuntime) {
    has_rows(&rt, &tombstone_program(), &[]);
    let mut open = tombstone_program();
    open[74] = 4;
    has_fault(&rt, &open, Cause::SequenceOpen, 0);
    // set_address 7, set_address 2^64 - 1, advance_pc 1, set_file 9, advance_line -5, copy,
    // set_address 0, copy, end;
    // then a sequence at 0
    have_rows(
        &rt,
        &[
            0, 9, 2, 7, 0, 0, 0, 0, 0, 0, 0, 0, 9, 2, 255, 255, 255, 255, 255, 255, 255, 255, 2, 1,
            4, 9, 3, 0x7b, 1, 0, 9, 2, 0, 0, 0, 0, 0, 0, 0, 0, 1, 0, 1, 1, 1, 0, 1, 1,
        ],
        &[row(0, 0, 1), end(0, 0)],
    );
    // a sequence that consists only of its end is dead too
    have_rows(
        &rt,
        &[0, 9, 2, 255, 255, 255, 255, 255, 255, 255, 255, 0, 1, 1],
        &[],
    );
}

#[test]
fn the_tombstone_after_a_row_is_an_address(rt: HostRuntime) {
    have_rows(
        &rt,
        &[1, 0, 9, 2, 255, 255, 255, 255, 255, 255, 255, 255, 0, 1, 1],
        &[row(0, 0, 1), end(0, u64::MAX)],
    );
    have_fault(
        &rt,
        &[0, 9, 2, 255, 255, 255, 255, 255, 255, 255, 255, 1, 0, 2, 2],
        Cause::Short,
    );
}

#[test]
fn no_programs(rt: HostRuntime) {
    let tables = read(&rt, &[]);
    are_equal(&rt, tables.rows().len(), 0);
    are_equal(&rt, tables.program_at(0), None);
}

// The test runner can make each allocation fail.
#[test]
fn out_of_memory_is_the_only_other_answer(rt: HostRuntime) {
    match LineTables::read(rt.alloc(), &two_programs(), &[], &[]) {
        Ok(tables) => {
            are_equal(&rt, tables.rows().len(), 8);
            are_equal(&rt, tables.program_at(75), Some(ProgramNo(1)));
        }
        Err(fault) => are_equal(&rt, fault, memory_fault()),
    }
}
