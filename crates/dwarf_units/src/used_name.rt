//! The names of the used attributes (DWARF 5, 2.2 and 7.5.4).

ghost use Rattle.std.specs.Prelude.{◌≡◌, ◌<◌};
ghost use Rattle.dwarf_units.specs.Private.Names.{slot_of, used_name};

use dwarf_bytes::constants::*;

/// The number of slots, one for each name of a used attribute.
pub(crate) const SLOTS: usize = 13;
/// The number of slots whose names are not for roots alone. They are the first ones.
pub(crate) const ENTRY_SLOTS: usize = 9;
/// The slot of the call_file.
pub(crate) const CALL_FILE_SLOT: usize = 7;

/// The name of a used attribute.
#[derive(Clone, Copy)]
pub enum UsedName {
    Name,
    LinkageName,
    AbstractOrigin,
    Specification,
    LowPc,
    HighPc,
    Ranges,
    CallFile,
    CallLine,
    StmtList,
    StrOffsetsBase,
    AddrBase,
    RnglistsBase,
}

impl UsedName {
    /// Returns the name of an attribute code, if the attribute is used.
    pub(crate) fn of(name: u64) -> Option<UsedName>
        ensures { result ≡ used_name name }
    {
        match name {
            DW_AT_NAME => Some(UsedName::Name),
            DW_AT_LINKAGE_NAME => Some(UsedName::LinkageName),
            DW_AT_ABSTRACT_ORIGIN => Some(UsedName::AbstractOrigin),
            DW_AT_SPECIFICATION => Some(UsedName::Specification),
            DW_AT_LOW_PC => Some(UsedName::LowPc),
            DW_AT_HIGH_PC => Some(UsedName::HighPc),
            DW_AT_RANGES => Some(UsedName::Ranges),
            DW_AT_CALL_FILE => Some(UsedName::CallFile),
            DW_AT_CALL_LINE => Some(UsedName::CallLine),
            DW_AT_STMT_LIST => Some(UsedName::StmtList),
            DW_AT_STR_OFFSETS_BASE => Some(UsedName::StrOffsetsBase),
            DW_AT_ADDR_BASE => Some(UsedName::AddrBase),
            DW_AT_RNGLISTS_BASE => Some(UsedName::RnglistsBase),
            _ => None,
        }
    }

    /// Returns the slot of the name in `UsedAttributes`.
    // Inlined: called for each attribute.
    #[inline(always)]
    pub(crate) fn slot(self) -> usize
        ensures slot { result ≡ slot_of self }
        ensures bound { result < 13 }
    {
        self as usize
    }
}
