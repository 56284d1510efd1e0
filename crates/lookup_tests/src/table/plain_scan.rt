//! A reference implementation for tests: finds the place of an address by a linear scan.

use dwarf_bytes::{LoadFault, Object};
use dwarf_entries::{Range, Scope, ScopeKind, Scopes, Sections};
use dwarf_lines::{LineTables, Row};
use std::alloc::Global;

/// The rows and scopes of an object.
#[derive(Drop)]
pub struct PlainObject {
    lines: LineTables,
    scopes: Scopes,
}

impl PlainObject {
    pub fn read(alloc: Global, bytes: &[u8]) -> Result<PlainObject, LoadFault> {
        let layout = Object::find(bytes)?;
        let lines = LineTables::read(
            alloc,
            layout.debug_line.of(bytes),
            layout.debug_line_str.of(bytes),
            layout.debug_str.of(bytes),
        )?;
        let scopes = Scopes::read(alloc, &Sections::of(bytes, &layout))?;
        Ok(PlainObject { lines, scopes })
    }

    /// Returns the row and the innermost scope of an address, if it has at least one of them.
    pub fn numbers(&self, link: u64) -> Option<(Option<usize>, Option<usize>)> {
        let row = covering_row(self.lines.rows(), link);
        let scope = innermost(&self.scopes, link);
        if row.is_none() && scope.is_none() {
            return None;
        }
        Some((row, scope))
    }
}

/// Returns the index of the first row, in file order, that covers an address.
fn covering_row(rows: &[Row], link: u64) -> Option<usize> {
    let mut pairs = rows.iter().zip(rows.iter().skip(1));
    pairs.position(|(row, next)| !row.end && row.address <= link && link < next.address)
}

fn holds(ranges: &[Range], link: u64) -> bool {
    ranges
        .iter()
        .any(|range| range.from <= link && link < range.to)
}

/// Returns the last scope of the chain of an address. The chain starts with the first subprogram
/// that contains the address. Each next scope is the first inlined subroutine below the previous
/// one that contains it.
fn innermost(scopes: &Scopes, link: u64) -> Option<usize> {
    let mut last: Option<&Scope> = None;
    for scope in scopes.scopes() {
        let is_next = match last {
            None => scope.kind() == ScopeKind::Subprogram,
            Some(last) => scope.kind() == ScopeKind::Inlined && scope.number() < last.end(),
        };
        if is_next && holds(scope.ranges(scopes), link) {
            last = Some(scope);
        }
    }
    Some(last?.number())
}
