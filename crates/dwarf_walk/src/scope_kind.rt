//! The entries that are scopes (DWARF 5, 3.3).

ghost use Rattle.std.specs.Prelude.{◌≡◌};
ghost use Rattle.dwarf_walk.specs.ScopeEntries.{kind_of};

use dwarf_bytes::constants::*;

/// The kind of a scope.
#[derive(Clone, Copy, Debug, PartialEq, Eq)]
pub enum ScopeKind {
    Subprogram,
    Inlined,
}

/// Returns the kind of the scopes with a tag, or `None` if entries with this tag are not scopes.
pub(crate) fn kind_of(tag: u64) -> Option<ScopeKind>
    ensures { result ≡ kind_of tag }
{
    match tag {
        DW_TAG_SUBPROGRAM => Some(ScopeKind::Subprogram),
        DW_TAG_INLINED_SUBROUTINE => Some(ScopeKind::Inlined),
        _ => None,
    }
}
