//! Cross-checks between `.debug_info` and `.debug_line`.

ghost use Rattle.std.specs.Prelude.{◌≡◌, ◌≤◌, ◌<◌, slice_range, length};
ghost use Rattle.std.specs.List.{Contains};
ghost use Rattle.dwarf_bytes.specs.Items.{each};
ghost use Rattle.dwarf_lines.specs.Lines.{Lines};
ghost use Rattle.dwarf_entries.specs.declared.scope.Root.{Root as RootSeen};
ghost use Rattle.dwarf_entries.specs.Scopes.{Scope as ScopeSeen};
ghost use Rattle.dwarf_entries.specs.Order.{AreInOrder, HasDataOf};
ghost use Rattle.addr_table.specs.CrossChecks.{files_at, is_invalid_root, is_invalid_scope};
ghost use Rattle.addr_table.specs.CrossChecks.{check_scope, check_unit, cross_checks_of, RefusesAs};
ghost use Rattle.addr_table.specs.Private.CallFiles.{is_beyond, HaveFiles, HaveStmtListOf};

use crate::scopes::{count, scope_at};
use dwarf_bytes::{Cause, LoadFault, Section};
use dwarf_entries::{Root, Scope, ScopeKind, Scopes};
use dwarf_lines::LineTables;

/// Returns the number of files of the line program at `stmt_list`; 0 if there is no such program.
#[tactic(auto, unfolding(crate::specs::CrossChecks::files_at))]
fn files_at(lines: &LineTables, stmt_list: Option<u64>) -> u64
    ensures { result ≡ files_at lines.now stmt_list }
{
    match stmt_list {
        Some(start) => match lines.program_at(start) {
            Some(program) => lines.files(program),
            None => 0,
        },
        None => 0,
    }
}

/// Returns whether the `stmt_list` of a root is not the start of a line program.
#[tactic(auto, unfolding(crate::specs::CrossChecks::is_invalid_root))]
fn is_invalid_root(lines: &LineTables, root: &Root) -> bool
    ensures { result ≡ is_invalid_root lines.now root.now }
{
    match root.stmt_list {
        Some(start) => lines.program_at(start).is_none(),
        None => false,
    }
}

/// Returns whether a call file is not below the number of files.
fn is_beyond(files: u64, call_file: Option<u64>) -> bool
    ensures { result ≡ is_beyond files call_file }
{
    match call_file {
        Some(file) => file >= files,
        None => false,
    }
}

/// Returns whether a scope is an inlined subroutine with an invalid call file, given the number of
/// files of the line program of its unit.
fn is_invalid_scope(files: u64, scopes: &Scopes, scope: &Scope) -> bool
    ensures { (lines : Lines) (s : ScopeSeen) → HasDataOf scopes.now.scopes scope.now s
        → files_at lines s.stmt_list ≡ files → result ≡ is_invalid_scope lines s }
{
    match scope.kind() {
        ScopeKind::Subprogram => false,
        ScopeKind::Inlined => is_beyond(files, scope.call_file(scopes)),
    }
}

/// Checks the scopes with indexes `first..past`, whose line program has this number of files.
fn check_scopes(scopes: &Scopes, files: u64, first: usize, past: usize) -> Result<(), LoadFault>
    requires { AreInOrder scopes.now.scopes }
    ensures { (lines : Lines) → HaveFiles lines scopes.now.scopes files first past
        → RefusesAs result
        (each (λ _ s. check_scope lines s) (slice_range scopes.now.scopes first past)) }
{
    for number in first..past.min(count(scopes)) {
        let scope = scope_at(scopes, number);
        if is_invalid_scope(files, scopes, scope) {
            let at = scope.offset() as u64;
            return Err(LoadFault::at_item(Section::DebugInfo, Cause::CallFile, at));
        }
    }
    Ok(())
}

/// Checks one unit: first its root, then its scopes.
fn check_unit(lines: &LineTables, scopes: &Scopes, root: &Root) -> Result<(), LoadFault>
    requires order { AreInOrder scopes.now.scopes }
    requires unit { HaveStmtListOf root.now scopes.now.scopes }
    ensures { RefusesAs result (check_unit lines.now scopes.now.scopes root.now) }
{
    if is_invalid_root(lines, root) {
        let at = root.offset as u64;
        return Err(LoadFault::at_item(Section::DebugInfo, Cause::StmtList, at));
    }
    let files = files_at(lines, root.stmt_list);
    check_scopes(scopes, files, root.first, root.past)
}

/// Checks the references from entries to line programs, unit by unit: first the root, then its
/// scopes.
pub(crate) fn cross_check(lines: &LineTables, scopes: &Scopes) -> Result<(), LoadFault>
    requires order { AreInOrder scopes.now.scopes }
    requires units { (root : RootSeen) → Contains scopes.now.roots root
        → HaveStmtListOf root scopes.now.scopes }
    ensures { RefusesAs result (cross_checks_of lines.now scopes.now) }
{
    for root in scopes.roots() {
        check_unit(lines, scopes, root)?;
    }
    Ok(())
}
