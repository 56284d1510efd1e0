//! A cursor over bytes, which reads encoded numbers and strings.

ghost use Rattle.std.specs.Prelude.{◌≡◌, ◌≤◌, ◌<◌, ◌+◌, ◌↔◌, length, take, OnOk, OnErr, IsOk, IfOk};
ghost use Rattle.dwarf_bytes.specs.Position.{Position, Reads};
ghost use Rattle.dwarf_bytes.specs.Numbers.{block_at, u8_at, u16_at, u24_at, u32_at, u64_at};
ghost use Rattle.dwarf_bytes.specs.Numbers.{uleb_at, sleb_at, cstr_at, initial_length_at};
ghost use Rattle.dwarf_bytes.specs.{Forms.number_at, Numbers.offset_at};

use crate::fault::ReadFault;
use crate::form::Width;
use crate::format::Format;
use crate::leb::{sleb_front, uleb_front};
use crate::text::text_front;
use crate::widths::number_at;
use byteorder::{ByteOrder, LittleEndian};
use std::marker::Model;

/// The first reserved initial length: 32-bit DWARF lengths are below it.
const RESERVED_LENGTHS: u32 = 0xffff_fff0;

/// The escape that precedes a length of the 64-bit format.
const LONG_LENGTH: u32 = 0xffff_ffff;

/// A byte slice and an offset into it.
#[derive(Debug, Drop)]
pub struct Cursor<'a> {
    bytes: &'a [u8],
    place: usize,
}

impl<'a> Model for Cursor<'a> {
    ghost use Rattle.std.specs.Prelude.{◌≤◌, length};
    ghost use Rattle.dwarf_bytes.specs.Position.{Position};

    ghost Value = { Position };

    ghost view = { λ c. record { bytes = c.bytes.now; place = c.place } };

    ghost invariant = { λ c. c.place ≤ length c.bytes.now };
}

impl<'a> Cursor<'a> {
    /// Creates a cursor at offset 0.
    pub fn new(bytes: &'a [u8]) -> Cursor<'a>
        ensures { result ≡ record { bytes = bytes.now; place = 0 } }
    {
        Cursor { bytes, place: 0 }
    }

    /// Returns a copy of the cursor, at the same offset of the same bytes.
    // Inlined into other crates: called for each number.
    #[inline(always)]
    pub fn fork(&self) -> Cursor<'a>
        ensures { result ≡ self.now }
    {
        Cursor {
            bytes: self.bytes,
            place: self.place,
        }
    }

    /// Returns the cursor's offset from the start of its bytes.
    pub fn place(&self) -> usize
        ensures place { result ≡ self.now.place }
        ensures within { result ≤ length self.now.bytes }
    {
        self.place // of the next byte
    }

    /// Moves to an offset from the start of the bytes. The end of the bytes is allowed; beyond it,
    /// returns `Short` and does not move.
    pub fn seek(&mut self, place: usize) -> Result<(), ReadFault>
        ensures ok { OnOk result (self.new ≡ record self.old { place = place }) }
        ensures within { IsOk result ↔ (place ≤ length self.old.bytes) }
        ensures short { OnErr result (result ≡ Err ReadFault.Short) }
        ensures err { OnErr result (self.new ≡ self.old) }
    {
        if place > self.bytes.len() {
            return Err(ReadFault::Short);
        }
        self.place = place;
        Ok(())
    }

    /// Returns a cursor at the same offset whose bytes end `len` bytes after it.
    pub fn part(&self, len: u64) -> Result<Cursor<'a>, ReadFault>
        ensures part { IfOk result (λ part. part ≡
            record { bytes = take (self.now.place + len) self.now.bytes; place = self.now.place }) }
        ensures within { IsOk result ↔ (self.now.place + len ≤ length self.now.bytes) }
        ensures short { OnErr result (result ≡ Err ReadFault.Short) }
    {
        if ((self.bytes.len() - self.place) as u64) < len {
            return Err(ReadFault::Short);
        }
        let end = self.place + len as usize;
        Ok(Cursor {
            bytes: &self.bytes[..end],
            place: self.place,
        })
    }

    /// Reads the next `len` bytes.
    #[tactic(auto, unfolding(crate::specs::Numbers::block_at))]
    pub fn block(&mut self, len: u64) -> Result<&'a [u8], ReadFault>
        ensures block { Reads (λ block. block.now) result (block_at len) self.old self.new }
        ensures len { IfOk result (λ block. length block.now ≡ len) }
        ensures moves { IfOk result (λ _. self.new.place ≡ self.old.place + len) }
    {
        let rest = &self.bytes[self.place..];
        if (rest.len() as u64) < len {
            return Err(ReadFault::Short);
        }
        self.place += len as usize;
        Ok(&rest[..len as usize])
    }

    /// Returns the number of a width that starts `skipped` bytes after the cursor, if its bytes are
    /// present.
    // Inlined into other crates: called for each attribute of each scope.
    #[inline(always)]
    pub fn number_after(&self, skipped: u16, width: Width) -> Option<u64>
        ensures { result ≡ number_at width self.now.bytes (self.now.place + skipped) }
    {
        number_at(self.bytes, self.place + usize::from(skipped), width)
    }

    #[tactic(auto, unfolding(crate::specs::Numbers::fixed_at))]
    pub fn u8(&mut self) -> Result<u8, ReadFault>
        ensures reads { Reads (λ x. x) result u8_at self.old self.new }
        ensures moves { IfOk result (λ _. self.new.place ≡ self.old.place + 1) }
    {
        Ok(self.block(1)?[0])
    }

    #[tactic(auto, unfolding(crate::specs::Numbers::fixed_at), using(crate::proofs::Fixed::of_all))]
    pub fn u16(&mut self) -> Result<u16, ReadFault>
        ensures reads { Reads (λ x. x) result u16_at self.old self.new }
        ensures moves { IfOk result (λ _. self.new.place ≡ self.old.place + 2) }
    {
        Ok(LittleEndian::read_u16(self.block(2)?))
    }

    #[tactic(auto, unfolding(crate::specs::Numbers::fixed_at), using(crate::proofs::Fixed::of_all))]
    pub fn u24(&mut self) -> Result<u32, ReadFault>
        ensures reads { Reads (λ x. x) result u24_at self.old self.new }
        ensures moves { IfOk result (λ _. self.new.place ≡ self.old.place + 3) }
    {
        Ok(LittleEndian::read_u24(self.block(3)?))
    }

    #[tactic(auto, unfolding(crate::specs::Numbers::fixed_at), using(crate::proofs::Fixed::of_all))]
    pub fn u32(&mut self) -> Result<u32, ReadFault>
        ensures reads { Reads (λ x. x) result u32_at self.old self.new }
        ensures moves { IfOk result (λ _. self.new.place ≡ self.old.place + 4) }
    {
        Ok(LittleEndian::read_u32(self.block(4)?))
    }

    #[tactic(auto, unfolding(crate::specs::Numbers::fixed_at), using(crate::proofs::Fixed::of_all))]
    pub fn u64(&mut self) -> Result<u64, ReadFault>
        ensures reads { Reads (λ x. x) result u64_at self.old self.new }
        ensures moves { IfOk result (λ _. self.new.place ≡ self.old.place + 8) }
    {
        Ok(LittleEndian::read_u64(self.block(8)?))
    }

    /// Reads a string and its NUL, and returns the string without the NUL.
    #[tactic(auto, unfolding(crate::specs::Numbers::cstr_at))]
    pub fn cstr(&mut self) -> Result<&'a [u8], ReadFault>
        ensures reads { Reads (λ text. text.now) result cstr_at self.old self.new }
        ensures moves { IfOk result (λ _. self.old.place < self.new.place) }
    {
        let text = text_front(&self.bytes[self.place..]).ok_or(ReadFault::Unterminated)?;
        self.place += text.len() + 1;
        Ok(text)
    }

    /// Reads an unsigned LEB128 number.
    // Inlined into other crates: called for each number.
    #[inline]
    pub fn uleb(&mut self) -> Result<u64, ReadFault>
        ensures reads { Reads (λ x. x) result uleb_at self.old self.new }
        ensures moves { IfOk result (λ _. self.old.place < self.new.place) }
    {
        let (value, len) = uleb_front(&self.bytes[self.place..])?;
        self.place += len;
        Ok(value)
    }

    /// Reads a signed LEB128 number.
    // Inlined into other crates: called for each number.
    #[inline]
    pub fn sleb(&mut self) -> Result<i64, ReadFault>
        ensures reads { Reads (λ x. x) result sleb_at self.old self.new }
        ensures moves { IfOk result (λ _. self.old.place < self.new.place) }
    {
        let (value, len) = sleb_front(&self.bytes[self.place..])?;
        self.place += len;
        Ok(value)
    }

    /// Reads the initial length of a unit (DWARF 5, 7.4). The length also determines the format.
    #[tactic(auto, unfolding(crate::specs::Numbers::initial_length_at))]
    pub fn initial_length(&mut self) -> Result<(Format, u64), ReadFault>
        ensures reads { Reads (λ x. x) result initial_length_at self.old self.new }
        ensures moves { IfOk result (λ _. self.old.place < self.new.place) }
    {
        let start = self.place;
        let length = self.u32()?;
        if length < RESERVED_LENGTHS {
            return Ok((Format::Dwarf32, u64::from(length)));
        }
        let fault = if length == LONG_LENGTH {
            match self.u64() {
                Ok(length) => return Ok((Format::Dwarf64, length)),
                Err(fault) => fault,
            }
        } else {
            ReadFault::Length
        };
        self.place = start;
        Err(fault)
    }

    /// Reads an offset into a section: 4 or 8 bytes, depending on the format.
    pub fn offset(&mut self, format: Format) -> Result<u64, ReadFault>
        ensures reads { Reads (λ x. x) result (offset_at format) self.old self.new }
        ensures moves { IfOk result (λ _. self.old.place < self.new.place) }
    {
        match format {
            Format::Dwarf32 => Ok(u64::from(self.u32()?)),
            Format::Dwarf64 => Ok(self.u64()?),
        }
    }
}
