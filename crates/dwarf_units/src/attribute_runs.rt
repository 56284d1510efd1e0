//! The attributes of a declaration in runs (DWARF 5, 7.5.3).

ghost use Rattle.std.specs.Prelude.{◌≡◌, IfOk};
ghost use Rattle.dwarf_units.specs.Private.Runs.{all_at, fixed_size, runs_of};
ghost use Rattle.dwarf_units.specs.{Private.Used.used_after, StoredAttributes.Fills};

use crate::attribute_run::{AttributeRun, Stretch, push_position};
use crate::attributes::is_used;
use crate::fixed_sizes::end_of;
use crate::used_attributes::UsedAttributes;
use crate::used_position::UsedPosition;
use dwarf_bytes::{Cause, Cursor, Format};
use dwarf_forms::AttributeSpecification;
use std::alloc::{AllocError, Global};
use std::marker::Model;

/// The first attributes of the entries of a declaration.
#[derive(Drop)]
pub(crate) struct AttributeRuns {
    runs: Vec<AttributeRun>,
    /// The attributes after the runs.
    rest: Stretch,
}

impl Model for AttributeRuns {
    ghost use Rattle.dwarf_units.specs.{Private.Runs.Runs};

    ghost Value = { Runs };

    ghost view = { λ r. record { runs = r.runs.items; rest = r.rest } };
}

impl AttributeRuns {
    /// Computes the runs of a list of attributes.
    #[tactic(auto, unfolding(crate::specs::Private::Runs::runs_from))]
    pub(crate) fn of(
        alloc: Global,
        format: Format,
        declared: &[AttributeSpecification],
    ) -> Result<AttributeRuns, AllocError>
        ensures { IfOk result (λ runs. runs ≡ runs_of format declared.now) }
    {
        let mut runs = Vec::new(alloc);
        let mut len = 0u16;
        let mut used = Vec::with_capacity(alloc, used_count(declared))?;
        for specification in declared {
            if let Some(end) = end_of(format, len, specification) {
                if let Some(position) = UsedPosition::of(format, len, specification) {
                    push_position(&mut used, position)?;
                }
                len = end;
                continue;
            }
            runs.reserve_exact(1)?;
            runs.push(AttributeRun::of(len, used, specification))?;
            len = 0;
            used = Vec::new(alloc);
        }
        let rest = Stretch { len, used };
        Ok(AttributeRuns { runs, rest })
    }

    /// Returns the size of all attributes in bytes, if it is fixed.
    pub(crate) fn fixed_size(&self) -> Option<u16>
        ensures { result ≡ fixed_size self.now }
    {
        self.runs.is_empty().then_some(self.rest.len)
    }

    /// Returns the positions of the used attributes after the runs.
    pub(crate) fn last_positions(&self) -> &[UsedPosition]
        ensures { result.now ≡ self.now.rest.used }
    {
        self.rest.used.as_slice()
    }

    /// Reads the attributes from the cursor on. Adds the used ones to `found` if `keep` is set.
    // Inlined: called for each entry.
    #[inline(always)]
    #[tactic(auto, using(crate::proofs::StoredReads::read_steps))]
    pub(crate) fn read(
        &self,
        keep: bool,
        format: Format,
        cursor: &mut Cursor,
        found: &mut UsedAttributes,
    ) -> Result<(), Cause>
        ensures { Fills result found.new (λ bytes at. used_after found.old
            (all_at keep format self.now bytes at)) cursor.old cursor.new }
    {
        for run in &self.runs {
            run.read(keep, format, cursor, found)?;
        }
        self.rest.read(keep, cursor, found)
    }
}

/// Returns the number of used attributes, for which memory is allocated at once.
fn used_count(declared: &[AttributeSpecification]) -> usize {
    declared.iter().filter(|s| is_used(s.name)).count()
}
