//! An index of NULs (DWARF 5, 7.5.5). A malicious object may have a string as long as its section,
//! in which every name starts. With the index, at most one block is scanned for the end of a
//! string.

ghost use Rattle.std.specs.Prelude.{◌≡◌, ◌+◌, ◌==◌, IfOk, MatchResult, Ok, Err, take, drop};
ghost use Rattle.std.specs.Prelude.{option_map, position, slice_get, unwrap_or, None};
ghost use Rattle.dwarf_bytes.specs.Numbers.{text_at};
ghost use Rattle.dwarf_bytes.specs.Private.Nuls.{nul_from, AreNuls};

use crate::fault::ReadFault;
use crate::layout::Span;
use crate::text::first_nul;
use std::alloc::{AllocError, Global};
use std::marker::Model;

/// The size of a block in bytes.
const BLOCK_LEN: usize = 4096;

/// The strings of a section, with an index: for the start of each block, the first NUL at or after
/// it.
#[derive(Debug, Drop)]
pub struct TextIndex<'a> {
    section: &'a [u8],
    nuls: Vec<Option<usize>>,
}

impl<'a> Model for TextIndex<'a> {
    ghost use Rattle.std.specs.Prelude.{ℕ, List};
    ghost use Rattle.dwarf_bytes.specs.Private.Nuls.{AreNuls};

    ghost Value = { List ℕ };

    ghost view = { λ index. index.section.now };

    ghost invariant = { λ index. AreNuls index.section.now index.nuls.items };
}

impl<'a> TextIndex<'a> {
    /// Builds the index of a section.
    pub fn of(alloc: Global, section: &'a [u8]) -> Result<TextIndex<'a>, AllocError>
        ensures { IfOk result (λ index. index ≡ section.now) }
    {
        let nuls = first_nuls(alloc, section)?;
        Ok(TextIndex { section, nuls })
    }

    /// Returns the string at an offset of the section, without its NUL.
    pub fn text_at(&self, offset: u64) -> Result<&'a [u8], ReadFault>
        ensures { MatchResult result (λ text. text_at self.now offset ≡ Ok text.now)
            (λ fault. text_at self.now offset ≡ Err fault) }
    {
        let start = offset as usize;
        let nul = nul_from(self.section, &self.nuls, start).ok_or(ReadFault::Unterminated)?;
        Ok(&self.section[start..nul])
    }
}

/// Returns, for the start of each block, the first NUL at or after it.
fn first_nuls(alloc: Global, section: &[u8]) -> Result<Vec<Option<usize>>, AllocError>
    ensures { IfOk result (λ nuls. AreNuls section.now nuls.items) }
{
    let mut nuls = Vec::new(alloc);
    let mut block = section.len().div_ceil(BLOCK_LEN);
    let mut later = None;
    while block > 0 {
        block -= 1;
        later = nul_in_block(section, block * BLOCK_LEN).or(later);
        nuls.push(later)?;
    }
    nuls.reverse();
    Ok(nuls)
}

/// Returns the first NUL among the `BLOCK_LEN` bytes from `at` on.
fn nul_in_block(section: &[u8], at: usize) -> Option<usize>
    ensures { result ≡ option_map (λ n. at + n)
        (position (λ byte. byte == 0) (take BLOCK_LEN (drop at section.now))) }
{
    let block = Span {
        place: at,
        len: BLOCK_LEN,
    };
    match first_nul(block.of(section)) {
        Some(n) => Some(at + n),
        None => None,
    }
}

/// Returns the first NUL at or after `at`. Scans one block at most.
fn nul_from(section: &[u8], nuls: &[Option<usize>], at: usize) -> Option<usize>
    requires { AreNuls section.now nuls.now }
    ensures { result ≡ nul_from section.now at }
{
    match nul_in_block(section, at) {
        Some(nul) => Some(nul),
        None => nul_of(nuls, at / BLOCK_LEN + 1),
    }
}

/// Returns the index entry of a block, or `None` if there is no such block.
fn nul_of(nuls: &[Option<usize>], block: usize) -> Option<usize>
    ensures { result ≡ unwrap_or (slice_get nuls.now block) None }
{
    match nuls.get(block) {
        Some(nul) => *nul,
        None => None,
    }
}
