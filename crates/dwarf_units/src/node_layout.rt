//! Nodes of a fixed size: null entries, and entries with only such attributes (DWARF 5, 7.5).

ghost use Rattle.std.specs.Prelude.{◌≡◌, ℕ, List, IfOk};
ghost use Rattle.dwarf_units.specs.Private.Declarations.{IsStored, full_declaration};
ghost use Rattle.dwarf_units.specs.Private.NodeLayouts.{AreLayouts, IsLayoutOf, IsLayoutOfCode};
ghost use Rattle.dwarf_units.specs.NodeShapes.{code_count};

use crate::abbreviation_table::{AbbreviationDeclaration, AbbreviationTable};
use crate::value_slot::{ValueSlots, slots_of};
use dwarf_bytes::Format;
use std::alloc::{AllocError, Global};

/// The greatest abbreviation code with a layout, which bounds the memory of a table. Compilers
/// seldom use greater codes.
const CODE_LIMIT: u64 = 511;

/// What the nodes with a code have in common, if their size is fixed.
#[derive(Clone, Copy)]
pub struct NodeShape {
    /// The tag of the entries. It is 0 if the node is a null entry.
    pub tag: u32,
    /// The size of the attributes in bytes.
    pub(crate) len: u32,
    pub is_null: bool,
    /// Whether the entries are followed by their children.
    pub children: bool,
}

/// The shape of the nodes with a code, and where the entries have the values of their used
/// attributes, if these fit into slots.
#[derive(Clone, Copy)]
pub(crate) struct NodeLayout {
    pub(crate) shape: NodeShape,
    pub(crate) slots: Option<ValueSlots>,
}

impl NodeLayout {
    /// Returns the layout of the entries of a declaration, if their size is fixed.
    fn of(format: Format, declaration: &AbbreviationDeclaration) -> Option<NodeLayout>
        ensures { (section : List ℕ) → IsStored section format declaration.now
            → IsLayoutOf format (full_declaration section declaration.now) result }
    {
        if declaration.rest.is_some() {
            return None;
        }
        let len = declaration.runs.fixed_size()?;
        let shape = NodeShape {
            is_null: false,
            tag: u32::try_from(declaration.head.tag).ok()?,
            children: declaration.head.children,
            len: u32::from(len),
        };
        let slots = slots_of(declaration.runs.last_positions());
        Some(NodeLayout { shape, slots })
    }
}

/// Computes the layouts of the nodes with the codes from 0 up to the number of declarations, at
/// most `CODE_LIMIT`.
pub(crate) fn layouts(
    alloc: Global,
    table: &AbbreviationTable<'_>,
) -> Result<Vec<Option<NodeLayout>>, AllocError>
    ensures { IfOk result (λ layouts. AreLayouts table.now.format table.now.declarations
        (code_count table.now.declarations) layouts.items) }
{
    let count = table.len().min(CODE_LIMIT) + 1;
    let mut layouts = Vec::with_capacity(alloc, count as usize)?;
    for code in 0..count {
        layouts.push(layout_of_code(table, code))?;
    }
    Ok(layouts)
}

/// Returns the layout of the nodes with a code, if their size is fixed.
fn layout_of_code(table: &AbbreviationTable<'_>, code: u64) -> Option<NodeLayout>
    ensures { IsLayoutOfCode table.now.format table.now.declarations code result }
{
    if code == 0 {
        let shape = NodeShape {
            is_null: true,
            tag: 0,
            children: false,
            len: 0,
        };
        return Some(NodeLayout { shape, slots: None });
    }
    NodeLayout::of(table.format, table.find(code)?)
}
