//! Attribute values, read by their layout.

ghost use Rattle.std.specs.Prelude.{◌≡◌, ◌≤◌, length, IfOk, IfErr, Ok, Err};
ghost use Rattle.dwarf_bytes.specs.Position.{Reads};
ghost use Rattle.dwarf_bytes.specs.Numbers.{block_at, fixed_at};
ghost use Rattle.dwarf_bytes.specs.Forms.{byte_len};
ghost use Rattle.dwarf_bytes.specs.Contents.{Bytes, block_in, content_of, content_at};

use crate::cursor::Cursor;
use crate::fault::ReadFault;
use crate::form::{ValueLayout, Width};
use crate::format::Format;

/// A decoded value, before it is interpreted by the attribute that has it.
#[derive(Clone, Copy, Debug)]
pub enum Content<'a> {
    Number(u64),
    Signed(i64),
    /// The bytes of a block, or of a string without its NUL.
    Bytes(&'a [u8]),
}

impl<'a> Content<'a> {
    /// Reads a value in the given layout at the cursor. On a fault the cursor does not move.
    #[tactic(auto, unfolding(crate::specs::Contents::content_at))]
    pub fn read(
        layout: ValueLayout,
        format: Format,
        cursor: &mut Cursor<'a>,
    ) -> Result<Content<'a>, ReadFault>
        ensures { Reads (λ c. content_of c) result (content_at layout format)
            cursor.old cursor.new }
    {
        let start = cursor.place();
        match layout {
            ValueLayout::Fixed(width) => Ok(Content::Number(number(width, cursor)?)),
            ValueLayout::Offset => Ok(Content::Number(cursor.offset(format)?)),
            ValueLayout::Present => Ok(Content::Number(1)),
            ValueLayout::Signed => Ok(Content::Signed(cursor.sleb()?)),
            ValueLayout::Unsigned => Ok(Content::Number(cursor.uleb()?)),
            ValueLayout::Text => Ok(Content::Bytes(cursor.cstr()?)),
            ValueLayout::Sixteen => Ok(Content::Bytes(cursor.block(16)?)),
            ValueLayout::Block(width) => {
                let len = number(width, cursor)?;
                block(len, start, cursor)
            }
            ValueLayout::LongBlock => {
                let len = cursor.uleb()?;
                block(len, start, cursor)
            }
        }
    }
}

/// Reads a number of the given width.
pub(crate) fn number(width: Width, cursor: &mut Cursor) -> Result<u64, ReadFault>
    ensures { Reads (λ x. x) result (fixed_at (byte_len width)) cursor.old cursor.new }
{
    Ok(match width {
        Width::One => u64::from(cursor.u8()?),
        Width::Two => u64::from(cursor.u16()?),
        Width::Three => u64::from(cursor.u24()?),
        Width::Four => u64::from(cursor.u32()?),
        Width::Eight => cursor.u64()?,
    })
}

/// Reads `len` bytes. If fewer remain, moves the cursor back to `start`.
fn block<'a>(len: u64, start: usize, cursor: &mut Cursor<'a>) -> Result<Content<'a>, ReadFault>
    requires { start ≤ length cursor.old.bytes }
    ensures block { IfOk result (λ c.
        (block_at len cursor.old.bytes cursor.old.place
        ≡ Ok (block_in (content_of c), cursor.new.place))
        × (content_of c ≡ Bytes (block_in (content_of c)))
        × (cursor.new.bytes ≡ cursor.old.bytes)) }
    ensures fault { IfErr result (λ e. (block_at len cursor.old.bytes cursor.old.place ≡ Err e)
        × (cursor.new ≡ record cursor.old { place = start })) }
{
    match cursor.block(len) {
        Ok(block) => Ok(Content::Bytes(block)),
        Err(fault) => {
            let _ = cursor.seek(start);
            Err(fault)
        }
    }
}
