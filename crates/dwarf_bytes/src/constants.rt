//! The constants of DWARF 5 under the names used in its tables (chapter 7). The definitions in
//! specs/ refer to the same constants.

// Unit types (7.5.1, table 7.2).
pub const DW_UT_COMPILE: u8 = 0x01;

pub const DW_UT_TYPE: u8 = 0x02;

pub const DW_UT_PARTIAL: u8 = 0x03;

// Tags (7.5.3, table 7.3).
pub const DW_TAG_INLINED_SUBROUTINE: u64 = 0x1d;

pub const DW_TAG_SUBPROGRAM: u64 = 0x2e;

// Attributes (7.5.4, table 7.5).
pub const DW_AT_NAME: u64 = 0x03;

pub const DW_AT_STMT_LIST: u64 = 0x10;

pub const DW_AT_LOW_PC: u64 = 0x11;

pub const DW_AT_HIGH_PC: u64 = 0x12;

pub const DW_AT_ABSTRACT_ORIGIN: u64 = 0x31;

pub const DW_AT_SPECIFICATION: u64 = 0x47;

pub const DW_AT_RANGES: u64 = 0x55;

pub const DW_AT_CALL_FILE: u64 = 0x58;

pub const DW_AT_CALL_LINE: u64 = 0x59;

pub const DW_AT_LINKAGE_NAME: u64 = 0x6e;

pub const DW_AT_STR_OFFSETS_BASE: u64 = 0x72;

pub const DW_AT_ADDR_BASE: u64 = 0x73;

pub const DW_AT_RNGLISTS_BASE: u64 = 0x74;

// Forms (7.5.6, table 7.6).
pub const DW_FORM_ADDR: u64 = 0x01;

pub const DW_FORM_BLOCK2: u64 = 0x03;

pub const DW_FORM_BLOCK4: u64 = 0x04;

pub const DW_FORM_DATA2: u64 = 0x05;

pub const DW_FORM_DATA4: u64 = 0x06;

pub const DW_FORM_DATA8: u64 = 0x07;

pub const DW_FORM_STRING: u64 = 0x08;

pub const DW_FORM_BLOCK: u64 = 0x09;

pub const DW_FORM_BLOCK1: u64 = 0x0a;

pub const DW_FORM_DATA1: u64 = 0x0b;

pub const DW_FORM_FLAG: u64 = 0x0c;

pub const DW_FORM_SDATA: u64 = 0x0d;

pub const DW_FORM_STRP: u64 = 0x0e;

pub const DW_FORM_UDATA: u64 = 0x0f;

pub const DW_FORM_REF_ADDR: u64 = 0x10;

pub const DW_FORM_REF1: u64 = 0x11;

pub const DW_FORM_REF2: u64 = 0x12;

pub const DW_FORM_REF4: u64 = 0x13;

pub const DW_FORM_REF8: u64 = 0x14;

pub const DW_FORM_REF_UDATA: u64 = 0x15;

pub const DW_FORM_INDIRECT: u64 = 0x16;

pub const DW_FORM_SEC_OFFSET: u64 = 0x17;

pub const DW_FORM_EXPRLOC: u64 = 0x18;

pub const DW_FORM_FLAG_PRESENT: u64 = 0x19;

pub const DW_FORM_STRX: u64 = 0x1a;

pub const DW_FORM_ADDRX: u64 = 0x1b;

pub const DW_FORM_DATA16: u64 = 0x1e;

pub const DW_FORM_LINE_STRP: u64 = 0x1f;

pub const DW_FORM_REF_SIG8: u64 = 0x20;

pub const DW_FORM_IMPLICIT_CONST: u64 = 0x21;

pub const DW_FORM_LOCLISTX: u64 = 0x22;

pub const DW_FORM_RNGLISTX: u64 = 0x23;

pub const DW_FORM_STRX1: u64 = 0x25;

pub const DW_FORM_STRX2: u64 = 0x26;

pub const DW_FORM_STRX3: u64 = 0x27;

pub const DW_FORM_STRX4: u64 = 0x28;

pub const DW_FORM_ADDRX1: u64 = 0x29;

pub const DW_FORM_ADDRX2: u64 = 0x2a;

pub const DW_FORM_ADDRX3: u64 = 0x2b;

pub const DW_FORM_ADDRX4: u64 = 0x2c;

// Standard opcodes of line programs (7.22, table 7.25).
pub const DW_LNS_COPY: u8 = 0x01;

pub const DW_LNS_ADVANCE_PC: u8 = 0x02;

pub const DW_LNS_ADVANCE_LINE: u8 = 0x03;

pub const DW_LNS_SET_FILE: u8 = 0x04;

pub const DW_LNS_SET_COLUMN: u8 = 0x05;

pub const DW_LNS_NEGATE_STMT: u8 = 0x06;

pub const DW_LNS_CONST_ADD_PC: u8 = 0x08;

pub const DW_LNS_FIXED_ADVANCE_PC: u8 = 0x09;

// Extended opcodes of line programs (7.22, table 7.26).
pub const DW_LNE_END_SEQUENCE: u8 = 0x01;

pub const DW_LNE_SET_ADDRESS: u8 = 0x02;

// Content types of line program header entries (7.22, table 7.27).
pub const DW_LNCT_PATH: u64 = 0x1;

pub const DW_LNCT_DIRECTORY_INDEX: u64 = 0x2;

// Range list entries (7.25, table 7.30).
pub const DW_RLE_END_OF_LIST: u8 = 0x00;

pub const DW_RLE_BASE_ADDRESSX: u8 = 0x01;

pub const DW_RLE_STARTX_ENDX: u8 = 0x02;

pub const DW_RLE_STARTX_LENGTH: u8 = 0x03;

pub const DW_RLE_OFFSET_PAIR: u8 = 0x04;

pub const DW_RLE_BASE_ADDRESS: u8 = 0x05;

pub const DW_RLE_START_END: u8 = 0x06;

pub const DW_RLE_START_LENGTH: u8 = 0x07;
