//! The start of an attribute list (DWARF 5, 7.5.3).

ghost use Rattle.std.specs.Prelude.{◌≡◌, ◌<◌, ◌≤◌, [], length, IfOk, IsOk, Ok};
ghost use Rattle.dwarf_forms.specs.Tables.{attribute_at};
ghost use Rattle.abbreviation_memo.specs.Lists.{IsListAt, first_of};

use dwarf_bytes::{Cause, Cursor};
use dwarf_forms::AttributeSpecification;
use dwarf_forms::steps::first_attribute;
use std::alloc::Global;

/// The first attribute of a list, and the offset of the others. If the list is empty, the
/// attribute is `None`, and the offset is the one after the two zeros.
#[derive(Clone, Copy)]
pub struct ListStart {
    pub attribute: Option<AttributeSpecification>,
    pub rest: usize,
}

impl ListStart {
    /// Reads the start of the list at an offset of `.debug_abbrev`.
    pub fn read(alloc: Global, section: &[u8], place: usize) -> Result<ListStart, Cause>
        ensures start { IfOk result (λ start. attribute_at section.now [] place
            ≡ Ok (first_of start.attribute start.rest)) }
        ensures later { IfOk result (λ start. (place < start.rest)
            × (start.rest ≤ length section.now)) }
        ensures valid { IsListAt section.now place → IsOk result }
    {
        let mut cursor = Cursor::new(section);
        cursor.seek(place)?;
        let attribute = first_attribute(alloc, &mut cursor)?;
        let rest = cursor.place();
        Ok(ListStart { attribute, rest })
    }
}
