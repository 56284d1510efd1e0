//! The entries that are scopes (DWARF 5, 3.3).

ghost use Rattle.std.specs.Prelude.{◌≡◌, ◌++◌, [], count_by, IfOk, OnOk};
ghost use Rattle.dwarf_units.specs.Entries.{below};
ghost use Rattle.dwarf_walk.specs.ScopeEntries.{kind_of, is_scope};
ghost use Rattle.dwarf_entries.specs.Scopes.{site_of, sites_in, all_sites};

use crate::entries::Die;
use crate::references::Member;
use crate::units::CompilationUnit;
use dwarf_bytes::constants::{DW_TAG_INLINED_SUBROUTINE, DW_TAG_SUBPROGRAM};
use dwarf_entries::ScopeKind;
use std::alloc::{AllocError, Global};
use std::marker::Model;

/// A scope without its names and ranges: its entry, its kind, and the number of scopes below it.
#[derive(Drop)]
pub(crate) struct Site<'a> {
    member: Member<'a>,
    kind: ScopeKind,
    inside: usize,
}

impl<'a> Model for Site<'a> {
    ghost use Rattle.dwarf_entries.specs.Scopes.{ScopeSite};

    ghost Value = { ScopeSite };

    ghost view = { λ s. record { member = s.member; kind = s.kind; inside = s.inside } };
}

impl<'a> Site<'a> {
    pub(crate) fn member(&self) -> Member<'a>
        ensures { result ≡ self.now.member }
    {
        self.member.fork()
    }

    /// Returns the offset of the entry in `.debug_info`.
    pub(crate) fn offset(&self) -> usize
        ensures { result ≡ self.now.member.die.offset }
    {
        self.member.die().offset()
    }

    pub(crate) fn kind(&self) -> ScopeKind
        ensures { result ≡ self.now.kind }
    {
        self.kind
    }

    pub(crate) fn inside(&self) -> usize
        ensures { result ≡ self.now.inside }
    {
        self.inside
    }
}

/// Returns the kind of the scopes with a tag, or `None` if entries with this tag are not scopes.
fn kind_of(tag: u64) -> Option<ScopeKind>
    ensures { result ≡ kind_of tag }
{
    match tag {
        DW_TAG_SUBPROGRAM => Some(ScopeKind::Subprogram),
        DW_TAG_INLINED_SUBROUTINE => Some(ScopeKind::Inlined),
        _ => None,
    }
}

fn is_scope(die: &Die) -> bool
    ensures { result ≡ is_scope die.now }
{
    kind_of(die.tag()).is_some()
}

/// Returns the number of scopes among some entries.
pub(crate) fn scope_count(dies: &[Die]) -> usize
    ensures { result ≡ count_by is_scope dies.now }
{
    dies.iter().filter(|die| is_scope(die)).count()
}

/// Returns the number of scopes below an entry, given the entries after it.
fn scopes_below(die: &Die, rest: &[Die]) -> usize
    ensures { result ≡ count_by is_scope (below die.now rest.now) }
{
    rest.iter()
        .take_while(|other| other.depth() > die.depth())
        .filter(|other| is_scope(other))
        .count()
}

/// Appends an entry of a unit if it is a scope. `rest` are the entries after it.
fn add_site<'a>(
    unit: &'a CompilationUnit<'a>,
    die: &'a Die,
    rest: &[Die],
    sites: &mut Vec<Site<'a>>,
) -> Result<(), AllocError>
    ensures { OnOk result (sites.new.items ≡ sites.old.items
        ++ site_of unit.now die.now rest.now (kind_of die.now.tag) []) }
{
    if let Some(kind) = kind_of(die.tag()) {
        sites.push(Site {
            member: Member::of(unit, die),
            kind,
            inside: scopes_below(die, rest),
        })?;
    }
    Ok(())
}

/// Appends the scopes of a unit.
fn add_sites<'a>(unit: &'a CompilationUnit<'a>, sites: &mut Vec<Site<'a>>) -> Result<(), AllocError>
    ensures { OnOk result (sites.new.items ≡ sites.old.items
        ++ sites_in unit.now unit.now.dies) }
{
    let mut rest = unit.dies();
    while let Some((die, after)) = rest.split_first() {
        add_site(unit, die, after, sites)?;
        rest = after;
    }
    Ok(())
}

/// Returns the scopes of all units.
pub(crate) fn all_sites<'a>(
    alloc: Global,
    units: &'a [CompilationUnit<'a>],
) -> Result<Vec<Site<'a>>, AllocError>
    ensures { IfOk result (λ sites. sites.items ≡ all_sites units.now) }
{
    let mut sites = Vec::new(alloc);
    for unit in units {
        add_sites(unit, &mut sites)?;
    }
    Ok(sites)
}
