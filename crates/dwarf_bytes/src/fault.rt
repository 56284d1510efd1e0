//! Faults: why bytes could not be decoded, and why an object is refused.

ghost use Rattle.std.specs.Prelude.{◌≡◌};
ghost use Rattle.dwarf_bytes.specs.Refusals.{at_item};

use thiserror::Error;

/// Why a field could not be read.
#[derive(Clone, Copy, Debug, PartialEq, Eq, Error)]
pub enum ReadFault {
    /// The bytes end before the field does.
    #[error("short")]
    Short = 1,
    /// A LEB128 number has more than ten bytes, or its value does not fit in 64 bits.
    #[error("leb")]
    Leb = 2,
    /// A string has no NUL.
    #[error("unterminated")]
    Unterminated = 3,
    /// An initial length is one of the reserved values (DWARF 5, 7.4).
    #[error("length")]
    Length = 4,
}

/// The part of an object that contains a fault: its ELF tables, or a section.
#[derive(Clone, Copy, Debug, PartialEq, Eq)]
pub enum Section {
    /// The ELF header, the program headers, or the section headers and their names.
    Elf,
    DebugInfo,
    DebugAbbrev,
    DebugLine,
    DebugLineStr,
    DebugStr,
    DebugStrOffsets,
    DebugAddr,
    DebugRnglists,
}

/// What is wrong with an object. `as u8` gives the cause's number. Numbers in parentheses are
/// sections of DWARF 5.
#[derive(Clone, Copy, Debug, PartialEq, Eq, Error)]
pub enum Cause {
    /// The file has fewer than 64 bytes or does not start like an ELF file.
    NotElf = 1,
    /// The file is not 64-bit, not little-endian, or not of ELF version 1.
    Class = 2,
    /// The file is neither an executable nor a shared object.
    FileType = 3,
    /// A table or a section is outside the file, or its headers have another size than the
    /// standard's.
    Table = 4,
    /// Two sections have the same name.
    SectionTwice = 5,
    /// A section is compressed.
    Compressed = 6,
    /// No load segment has bytes.
    NoLoad = 7,
    /// The end of a load segment exceeds 2^64-1.
    Range = 8,
    /// Memory ran out, which is not a fault of the object.
    Memory = 9,
    /// The bytes end before a field does, or a list extends past the end of its container.
    Short = 10,
    /// A LEB128 number has more than ten bytes, or its value does not fit in 64 bits.
    Leb = 11,
    /// An initial length is reserved (7.4), or has another format than its unit.
    Length = 12,
    /// A unit, a line program or a table is not of DWARF version 5.
    Version = 13,
    /// The type of a unit is unknown, or is that of a skeleton or split unit (7.5.1).
    UnitType = 14,
    /// The addresses of a unit, a line program or a table do not have 8 bytes.
    AddressSize = 15,
    /// The addresses have segment selectors.
    SegmentSize = 16,
    /// The code of an entry is not in its abbreviation table.
    AbbrevCode = 17,
    /// An abbreviation table declares a code twice.
    AbbrevTwice = 18,
    /// A form is not in DWARF 5 (7.5.6), or refers to a supplementary file.
    Form = 19,
    /// A declaration has an attribute twice.
    AttrTwice = 20,
    /// An attribute has a form that it may not have, or its value is a negative count.
    AttrForm = 21,
    /// A unit has two entries at depth 0.
    TwoRoots = 22,
    /// A list of children has no end.
    TreeOpen = 23,
    /// An entry is deeper than 256.
    TooDeep = 24,
    /// A string starts outside its section, or has no NUL.
    String = 25,
    /// An index is past the end of its table.
    Index = 26,
    /// A unit has an index but no base of the table, or a range list has offsets but no base
    /// address.
    Base = 27,
    /// A range ends before it starts.
    RangeBackwards = 28,
    /// An address or the end of a range exceeds 2^64-1.
    Overflow = 29,
    /// A scope has a range list and also a `low_pc` or `high_pc`, or a `high_pc` alone.
    PcAndRanges = 30,
    /// A reference does not lead to an entry.
    Reference = 31,
    /// More than 16 references lead from a scope to its name.
    OriginDepth = 32,
    /// A line program has several operations per instruction, or a `line_range` or `opcode_base` of
    /// 0.
    LineParams = 33,
    /// A line program gives a standard opcode another number of operands (6.2.4).
    OpcodeLengths = 34,
    /// The length of an extended instruction is wrong for its opcode.
    Extended = 35,
    /// A format of directories or files has no path, an item twice, or a form that it may not have.
    FileFormat = 36,
    /// A file is in a directory that the line program does not have.
    DirIndex = 37,
    /// A row has a file that the line program does not have.
    FileIndex = 38,
    /// A row has a lower address than the row before it in its sequence.
    GoesBack = 39,
    /// A line program ends within a sequence.
    SequenceOpen = 40,
    /// A unit refers to a line program at an offset where none starts.
    StmtList = 41,
    /// A call site has a file that the line program of its unit does not have.
    CallFile = 42,
    /// The object has too many declarations or ranges.
    TooMany = 43,
    /// The line of a row is less than 0 or does not fit in 32 bits.
    LineRange = 44,
    /// The byte of a declaration that says whether there are children is neither 0 nor 1.
    Children = 45,
    /// An entry of a range list has a kind that is not in DWARF 5 (7.25).
    RangeKind = 46,
}

/// Why an object is refused: the section, the cause, and the offset of the invalid item.
#[derive(Clone, Copy, Debug, PartialEq, Eq, Error)]
#[error("object {section} {cause} at {at}")]
pub struct LoadFault {
    pub section: Section,
    pub cause: Cause,
    pub at: u64,
}

/// Out of memory, which is not a fault of the bytes.
pub(crate) const MEMORY_FAULT: LoadFault = LoadFault {
    section: Section::Elf,
    cause: Cause::Memory,
    at: 0,
};

impl LoadFault {
    /// Returns the fault of an item of a section. Out of memory is not the fault of an item: it is
    /// reported as `elf` at offset 0.
    pub fn at_item(section: Section, cause: Cause, at: u64) -> LoadFault
        ensures { result ≡ at_item section cause at }
    {
        if cause == Cause::Memory {
            return MEMORY_FAULT;
        }
        LoadFault { section, cause, at }
    }
}
