//! Theorems about all line programs.

ghost use Rattle.std.specs.Prelude.{◌≡◌, ◌<◌, ◌≤◌, ◌↔◌, ℕ, List, [], length, drop, map, Ok, None};
ghost use Rattle.std.specs.Prelude.{true};
ghost use Rattle.std.specs.List.Sorted.{IsStrictlyIncreasing, IsNonDecreasingBy};
ghost use Rattle.dwarf_bytes.specs.Numbers.{IsEncodedAt};
ghost use Rattle.dwarf_bytes.specs.declared.format.Format.{Format};
ghost use Rattle.dwarf_lines.specs.declared.row.Row.{Row};
ghost use Rattle.dwarf_lines.specs.declared.row.Origin.{Origin};
ghost use Rattle.dwarf_lines.specs.declared.instruction.Instruction.{Instruction};
ghost use Rattle.dwarf_lines.specs.Instructions.{Encoding, instruction_at, reading_of};
ghost use Rattle.dwarf_lines.specs.Encodings.{Encodes, AreEncoded};
ghost use Rattle.dwarf_lines.specs.declared.formats.Field.{Field};
ghost use Rattle.dwarf_lines.specs.declared.formats.EntryTable.{EntryTable};
ghost use Rattle.dwarf_lines.specs.declared.entries.Entry.{Entry};
ghost use Rattle.dwarf_lines.specs.Formats.{is_format};
ghost use Rattle.dwarf_lines.specs.Headers.{LineHeader, encoding_at, header_at};
ghost use Rattle.dwarf_lines.specs.Entries.{repeated_at, format_at, entry_at, table_at};
ghost use Rattle.dwarf_lines.specs.HeaderEncodings.{EncodesEach, EncodesField, EncodesEntry};
ghost use Rattle.dwarf_lines.specs.HeaderEncodings.{EncodesTable, EncodesParameters, EncodesHeader};
ghost use Rattle.dwarf_lines.specs.Matrix.{rows_from};
ghost use Rattle.dwarf_lines.specs.Machine.{at_start, rows_by};
ghost use Rattle.dwarf_lines.specs.Sections.{LineSections};
ghost use Rattle.dwarf_lines.specs.Lines.{Lines, lines_in, HaveNext, HavePaths};
ghost use Rattle.dwarf_lines.specs.Programs.{Program, programs_of, next_program, program_at_place};
ghost use Rattle.dwarf_lines.specs.ProgramEncoding.{IsProgram};
ghost use Rattle.dwarf_bytes.specs.Items.{Lists};
ghost use Rattle.dwarf_bytes.specs.Numbers.{IsText};
ghost use Rattle.dwarf_bytes.specs.declared.fault.Section.{Section};
ghost use Rattle.dwarf_lines.specs.Sections.{section_bytes};
ghost use Rattle.dwarf_lines.specs.Entries.{text_from};
ghost use Rattle.dwarf_lines.specs.Paths.{part_bytes};

/// A row that does not end its sequence has a next row of the same program, at no lower address.
pub fn rows_have_next()
    ensures { (s : LineSections) (lines : Lines) → lines_in s ≡ Ok lines → HaveNext lines.rows }
{}

/// A row that does not end its sequence has a path.
pub fn rows_have_paths()
    ensures { (s : LineSections) (lines : Lines) → lines_in s ≡ Ok lines → HavePaths lines }
{}

/// The rows of a program precede the rows of the next program.
pub fn rows_are_in_order_of_programs()
    ensures { (s : LineSections) (lines : Lines) → lines_in s ≡ Ok lines
        → IsNonDecreasingBy (λ (row : Row). row.program.0) lines.rows }
{}

/// There are no more rows than bytes of the section.
pub fn rows_take_bytes()
    ensures { (s : LineSections) (lines : Lines) → lines_in s ≡ Ok lines
        → length lines.rows ≤ length s.line }
{}

/// Each program starts after the start of the one before it.
pub fn program_offsets_rise()
    ensures { (s : LineSections) (lines : Lines) → lines_in s ≡ Ok lines
        → IsStrictlyIncreasing (map (λ program. program.offset) lines.programs) }
{}

/// Two definitions of the rows agree: row by row from sums over the preceding instructions, and by
/// execution of the line number machine (DWARF 5, 6.2.2 and 6.2.5).
pub fn rows_are_appended_by_the_machine()
    ensures { (e : Encoding) (o : Origin) (instructions : List Instruction)
        → rows_from e o [] instructions ≡ rows_by e o at_start instructions }
{}

/// An instruction is read if and only if an encoding of it is at the offset.
pub fn instructions_are_encoded()
    ensures { (e : Encoding) (bytes : List ℕ) (at : ℕ) (i : Instruction) (next : ℕ)
        → 0 < e.opcode_base
        → (instruction_at e bytes at ≡ Ok (i, next)) ↔ IsEncodedAt (Encodes e) bytes at i next }
{}

/// The instructions of a program are read without a fault if and only if its bytes are their
/// encodings, in order.
pub fn instruction_lists_are_encoded()
    ensures { (e : Encoding) (bytes : List ℕ) (at : ℕ) (is : List Instruction)
        → 0 < e.opcode_base → at ≤ length bytes
        → (reading_of e bytes at ≡ record { instructions = is; fault = None })
        ↔ AreEncoded e (drop at bytes) is }
{}

/// The fields of a format are read if and only if encodings of that many fields are at the offset.
pub fn formats_are_encoded()
    ensures { (count : ℕ) (bytes : List ℕ) (at : ℕ) (fields : List Field) (next : ℕ)
        → (repeated_at format_at count bytes at ≡ Ok (fields, next))
        ↔ (IsEncodedAt (EncodesEach EncodesField at) bytes at fields next
        × (length fields ≡ count)) }
{}

/// An entry of a valid format is read if and only if an encoding of it is at the offset.
pub fn entries_are_encoded()
    ensures { (s : LineSections) (format : Format) (table : EntryTable) (fields : List Field)
        (bytes : List ℕ) (at : ℕ) (entry : Entry) (next : ℕ)
        → is_format table fields ≡ true
        → (entry_at s format table fields bytes at ≡ Ok (entry, next))
        ↔ IsEncodedAt (EncodesEntry s format table fields at) bytes at entry next }
{}

/// A table of a header is read if and only if an encoding of it is at the offset.
pub fn tables_are_encoded()
    ensures { (s : LineSections) (format : Format) (table : EntryTable) (bytes : List ℕ) (at : ℕ)
        (entries : List Entry) (next : ℕ)
        → (table_at s format table bytes at ≡ Ok (entries, next))
        ↔ IsEncodedAt (EncodesTable s format table at) bytes at entries next }
{}

/// The instruction encoding parameters of a header are read if and only if an encoding of them is
/// at the offset.
pub fn parameters_are_encoded()
    ensures { (bytes : List ℕ) (at : ℕ) (e : Encoding) (next : ℕ)
        → (encoding_at bytes at ≡ Ok (e, next)) ↔ IsEncodedAt EncodesParameters bytes at e next }
{}

/// The header of a line program is read if and only if a program with that header is at the offset.
pub fn headers_are_encoded()
    ensures { (s : LineSections) (place : ℕ) (header : LineHeader)
        → (header_at s place ≡ Ok header)
        ↔ IsEncodedAt (EncodesHeader s place) s.line place header header.past }
{}

/// The programs of a section are read if and only if they are contiguous up to its end.
pub fn sections_are_programs()
    ensures { (s : LineSections) (programs : List Program) (after : ℕ)
        → (programs_of s ≡ Ok (programs, after)) ↔ Lists (next_program s) [] 0 programs after }
{}

/// The bytes of a part are its string.
pub fn parts_are_strings()
    ensures { (s : LineSections) (section : Section) (place past : ℕ) (text : List ℕ)
        → IsEncodedAt IsText (section_bytes s section) place text past
        → part_bytes s (text_from section place text).part ≡ text }
{}

/// A program is read if and only if its header and instructions are at the offset, with their rows.
pub fn programs_are_encoded()
    ensures { (s : LineSections) (number place : ℕ) (program : Program)
        → (program_at_place s number place ≡ Ok program) ↔ IsProgram s number place program }
{}
