//! The data of the scopes of an object (DWARF 5, 3.3).

ghost use Rattle.std.specs.Prelude.{◌≡◌, ◌≤◌, ◌+◌, ◌-◌, List, length, map, sum_by, IfOk};
ghost use Rattle.dwarf_bytes.specs.Refusals.{Gives};
ghost use Rattle.dwarf_bytes.specs.declared.constants.TheConstants.{DW_AT_LOW_PC, DW_AT_HIGH_PC};
ghost use Rattle.dwarf_bytes.specs.declared.constants.TheConstants.{DW_AT_RANGES};
ghost use Rattle.dwarf_ranges.specs.Ranges.{covers_of};
ghost use Rattle.dwarf_units.specs.Entries.{attribute};
ghost use Rattle.dwarf_walk.specs.Sections.{sections_of};
ghost use Rattle.dwarf_entries.specs.Scopes.{ParsedScope, items_limit, stmt_list_of};
ghost use Rattle.dwarf_entries.specs.Scopes.{scope_at as parsed_scope};
ghost use Rattle.dwarf_entries.specs.{Passes.PassGives, Scopes.all_scopes};
ghost use Rattle.plain_scopes.specs.Scopes.{covering, parsed};

use crate::entries::Die;
use crate::names::names_of;
use crate::sites::{Site, all_sites};
use crate::units::CompilationUnit;
use dwarf_bytes::constants::*;
use dwarf_bytes::{Cause, LoadFault, Section};
use dwarf_entries::{Range, ScopeKind, TextOffset};
use dwarf_ranges::{Bases, covers};
use dwarf_walk::{NamedEntry, ScopeEntry, Sections};
use std::alloc::{AllocError, Global};
use std::marker::Model;

/// The maximum number of range items that are read for an object.
const ITEMS_LIMIT: u64 = 4_194_304;

/// The data of a scope. `end` is the number of the first later scope that is not below it.
#[derive(Drop)]
pub struct PlainScope {
    pub kind: ScopeKind,
    pub offset: usize,
    pub number: usize,
    pub end: usize,
    pub ranges: Vec<Range>,
    pub name: Option<TextOffset>,
    pub linkage_name: Option<TextOffset>,
    pub stmt_list: Option<u64>,
    pub call_file: Option<u64>,
    pub call_line: Option<u64>,
}

impl Model for PlainScope {
    ghost use Rattle.dwarf_entries.specs.Scopes.{Scope};

    ghost Value = { Scope };

    ghost view = { λ s. record {
      kind = s.kind;
      offset = s.offset;
      number = s.number;
      end = s.«end»;
      ranges = s.ranges.items;
      name = s.name;
      linkage_name = s.linkage_name;
      stmt_list = s.stmt_list;
      call_file = s.call_file;
      call_line = s.call_line;
    } };
}

/// Returns a sum, or an allocation failure if it has more than 64 bits.
pub(crate) fn sum(a: usize, b: usize) -> Result<usize, AllocError>
    ensures { IfOk result (λ total. total ≡ a + b) }
{
    a.checked_add(b).ok_or(AllocError)
}

/// Returns the stmt_list of a unit, which is that of its root.
fn stmt_list_of(dies: &[Die]) -> Option<u64>
    ensures { result ≡ stmt_list_of dies.now }
{
    dies.first()?.number(DW_AT_STMT_LIST)
}

/// Returns the attributes of an entry that describe its ranges, as `covers` takes them.
fn scope_entry(die: &Die) -> ScopeEntry
    ensures low_pc { result.low_pc ≡ attribute die.now DW_AT_LOW_PC }
    ensures high_pc { result.high_pc ≡ attribute die.now DW_AT_HIGH_PC }
    ensures ranges { result.ranges ≡ attribute die.now DW_AT_RANGES }
{
    ScopeEntry {
        entry: NamedEntry {
            offset: die.offset(),
            next: None,
            name: None,
            linkage_name: None,
        },
        kind: ScopeKind::Subprogram,
        low_pc: die.attribute(DW_AT_LOW_PC),
        high_pc: die.attribute(DW_AT_HIGH_PC),
        ranges: die.attribute(DW_AT_RANGES),
        call_file: None,
        call_line: None,
    }
}

/// Returns the ranges of an entry, and the number of range items that they are read from.
#[tactic(auto, unfolding(dwarf_ranges::specs::Ranges::covers_of))]
fn covers_of(
    alloc: Global,
    budget: u64,
    sections: &Sections<'_>,
    bases: &Bases,
    die: &Die,
) -> Result<(Vec<Range>, u64), Cause>
    ensures covers { Gives covering result
        (covers_of budget (sections_of sections.now) bases.now die.now) }
    ensures budget { IfOk result (λ found. found.1 ≤ budget) }
{
    let mut ranges = Vec::new(alloc);
    let items = covers(budget, sections, bases, &scope_entry(die), &mut ranges)?;
    Ok((ranges, items))
}

/// Returns the scope of a site, and the number of range items that it is read from. `number` is
/// the number of scopes before it, and `budget` is the rest of the budget of range items.
fn scope_at<'a>(
    alloc: Global,
    sections: &Sections<'_>,
    units: &'a [CompilationUnit<'a>],
    site: &Site<'a>,
    number: usize,
    budget: u64,
) -> Result<(PlainScope, u64), Cause>
    ensures parsed { (before : List ParsedScope) → number ≡ length before
        → budget ≡ items_limit - sum_by (λ s. s.items) before
        → Gives parsed result
        (parsed_scope (sections_of sections.now) units.now before site.now) }
    ensures budget { IfOk result (λ found. found.1 ≤ budget) }
{
    let member = site.member();
    let (die, unit) = (member.die(), member.unit());
    let names = names_of(alloc, sections, units, member)?;
    let (ranges, items) = covers_of(alloc, budget, sections, unit.bases(), die)?;
    let first_below = sum(number, 1)?;
    let scope = PlainScope {
        kind: site.kind(),
        offset: die.offset(),
        number,
        end: sum(first_below, site.inside())?,
        ranges,
        name: names.name,
        linkage_name: names.linkage_name,
        stmt_list: stmt_list_of(unit.dies()),
        call_file: die.number(DW_AT_CALL_FILE),
        call_line: die.number(DW_AT_CALL_LINE),
    };
    Ok((scope, items))
}

/// Returns the scopes of all units.
pub(crate) fn all_scopes<'a>(
    alloc: Global,
    sections: &Sections<'_>,
    units: &'a [CompilationUnit<'a>],
) -> Result<Vec<PlainScope>, LoadFault>
    ensures { PassGives (λ scopes parsed. scopes.items ≡ map (λ j. j.scope) parsed) result
        (all_scopes (sections_of sections.now) units.now) }
{
    let sites = all_sites(alloc, units)?;
    let mut scopes = Vec::new(alloc);
    let mut left = ITEMS_LIMIT;
    for site in &sites {
        match scope_at(alloc, sections, units, site, scopes.len(), left) {
            Err(cause) => {
                let at = site.offset() as u64;
                return Err(LoadFault::at_item(Section::DebugInfo, cause, at));
            }
            Ok((scope, items)) => {
                left -= items;
                scopes.push(scope)?;
            }
        }
    }
    Ok(scopes)
}
