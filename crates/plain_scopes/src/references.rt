//! References between entries (DWARF 5, 2.13 and 7.5.5).

ghost use Rattle.std.specs.Prelude.{◌≡◌, ◌==◌, find, option_map};
ghost use Rattle.dwarf_bytes.specs.Refusals.{Gives};
ghost use Rattle.dwarf_entries.specs.Names.{member_at, members_of, target_of, chain_within};
ghost use Rattle.dwarf_entries.specs.Names.{references_limit};

use crate::entries::Die;
use crate::units::CompilationUnit;
use dwarf_bytes::Cause;
use dwarf_bytes::constants::DW_FORM_REF_ADDR;
use dwarf_units::AttributeValue;
use std::alloc::Global;
use std::marker::Model;
use std::slice::from_ref;

/// The maximum number of references followed in an origin chain.
const REFERENCES_LIMIT: u32 = 16;

/// An entry with its unit.
#[derive(Drop)]
pub(crate) struct Member<'a> {
    unit: &'a CompilationUnit<'a>,
    die: &'a Die,
}

impl<'a> Model for Member<'a> {
    ghost use Rattle.dwarf_entries.specs.Names.{Member as EntryOf};

    ghost Value = { EntryOf };

    ghost view = { λ m. record { unit = m.unit.now; die = m.die.now } };
}

impl<'a> Member<'a> {
    pub(crate) fn of(unit: &'a CompilationUnit<'a>, die: &'a Die) -> Member<'a>
        ensures { result ≡ record { unit = unit.now; die = die.now } }
    {
        Member { unit, die }
    }

    /// Returns a copy.
    pub(crate) fn fork(&self) -> Member<'a>
        ensures { result ≡ self.now }
    {
        Member {
            unit: self.unit,
            die: self.die,
        }
    }

    pub(crate) fn unit(&self) -> &'a CompilationUnit<'a>
        ensures { result.now ≡ self.now.unit }
    {
        self.unit
    }

    pub(crate) fn die(&self) -> &'a Die
        ensures { result.now ≡ self.now.die }
    {
        self.die
    }
}

/// Returns the entry of a unit at an offset.
fn member_in<'a>(unit: &'a CompilationUnit<'a>, offset: u128) -> Option<Member<'a>>
    ensures { result ≡ option_map (λ die. record { unit = unit.now; die = die })
        (find (λ die. die.offset == offset) unit.now.dies) }
{
    let die = unit
        .dies()
        .iter()
        .find(|die| die.offset() as u128 == offset)?;
    Some(Member { unit, die })
}

/// Returns the entry at an offset of `.debug_info`.
fn member_at<'a>(units: &'a [CompilationUnit<'a>], offset: u128) -> Result<Member<'a>, Cause>
    ensures { result ≡ member_at (members_of units.now) offset }
{
    for unit in units {
        if let Some(member) = member_in(unit, offset) {
            return Ok(member);
        }
    }
    Err(Cause::Reference)
}

/// Returns the target of a reference in a unit. A DW_FORM_ref_addr is relative to the start of
/// `.debug_info`, and all other forms are relative to the first byte of the unit.
fn target<'a>(
    units: &'a [CompilationUnit<'a>],
    unit: &'a CompilationUnit<'a>,
    reference: AttributeValue,
) -> Result<Member<'a>, Cause>
    ensures { result ≡ target_of units.now unit.now reference }
{
    let number = u128::from(reference.number);
    if reference.form == DW_FORM_REF_ADDR {
        return member_at(units, number);
    }
    member_at(from_ref(unit), unit.start() as u128 + number)
}

/// Returns the origin chain of an entry: the entry, its next entry, and so on, up to an entry
/// without a reference.
pub(crate) fn chain<'a>(
    alloc: Global,
    units: &'a [CompilationUnit<'a>],
    start: Member<'a>,
) -> Result<Vec<Member<'a>>, Cause>
    ensures { Gives (λ path. path.items) result
        (chain_within references_limit units.now start.entry) }
{
    let mut path = Vec::new(alloc);
    let mut member = start;
    let mut left = REFERENCES_LIMIT;
    while let Some(reference) = member.die().next() {
        if left == 0 {
            return Err(Cause::OriginDepth);
        }
        left -= 1;
        let next = target(units, member.unit(), reference)?;
        path.push(member)?;
        member = next;
    }
    path.push(member)?;
    Ok(path)
}
