//! Reads data ahead of its use, so that the processor fetches data of several addresses at once.
//!
//! Each function returns a value that depends on the data, because the compiler omits reads whose
//! result is not used. The values have no other use, so no clause is about them.

ghost use Rattle.std.specs.Prelude.{◌≤◌, length};
ghost use Rattle.addr_table.specs.Private.Walks.{HaveParents, parent_code, parent_codes};

use crate::module::Module;
use crate::object_tables::ObjectTables;
use crate::optional_index::OptionalIndex;
use crate::parent_walk::search_start;
use crate::parents::parent;
use crate::place::Place;
use crate::scopes::count;
use dwarf_entries::Scopes;
use dwarf_lines::Row;

impl Module {
    /// Reads what the search for a link address starts with.
    pub fn touch_search(&self, link: u64) -> bool {
        self.tables.segments.touch(link)
    }

    /// Reads the row and the innermost scope of a place.
    pub fn touch_place(&self, place: Place) -> bool {
        let has_no_line = has_no_line(self.tables.lines.rows(), place.row);
        has_no_line | has_no_name(&self.tables.scopes, place.scope)
    }

    /// Reads ranges and names of the scopes at a place.
    pub fn touch_scopes(&self, place: Place) -> bool {
        let tables = ObjectTables {
            bytes: self.bytes.as_slice(),
            sections: &self.tables.sections,
            lines: &self.tables.lines,
            scopes: &self.tables.scopes,
        };
        let scope = search_start(count(tables.scopes), place.scope);
        touch_scopes(tables, self.tables.parents.as_slice(), scope)
    }
}

/// Returns whether the row with an index has line 0.
fn has_no_line(rows: &[Row], number: Option<usize>) -> bool {
    let Some(number) = number else {
        return false;
    };
    rows.get(number).is_some_and(|row| row.line == 0)
}

/// Returns whether the scope with an index has no name.
fn has_no_name(scopes: &Scopes, number: Option<usize>) -> bool {
    let Some(number) = number else {
        return false;
    };
    scopes
        .scopes()
        .get(number)
        .is_some_and(|scope| scope.name().is_none())
}

/// Reads ranges and names of a scope and of the scopes that enclose it.
fn touch_scopes(tables: ObjectTables<'_>, parents: &[OptionalIndex], scope: Option<usize>) -> bool
    requires have { HaveParents tables.scopes.now.scopes (parent_codes parents.now) }
    requires within { parent_code scope ≤ length tables.scopes.now.scopes }
{
    let mut touched = false;
    let mut scope = scope;
    while let Some(number) = scope {
        touched ^= tables.touch_range(number) ^ tables.touch_long_name(number);
        scope = parent(parents, number);
    }
    touched
}
