//! A table that narrows the search for an address to a few segments.

ghost use Rattle.std.specs.Prelude.{◌≡◌, ◌^◌, ◌<◌, ◌≤◌, List, length, slice_index_or, IfOk, OnOk};
ghost use Rattle.addr_table.specs.Segments.{Segment as SegmentSeen, AreDisjoint};
ghost use Rattle.addr_table.specs.Private.Buckets.{AreBounds, AreBuckets, Fills};

use crate::packed::narrow;
use crate::segment::Segment;
use std::alloc::{AllocError, Global};

/// For each bucket, the number of segments that start in lower buckets. A bucket has one or two
/// segments on average, so a binary search between two counts takes a few steps.
#[derive(Drop)]
pub(crate) struct Buckets {
    /// The lowest address of a segment, or 0 without segments.
    pub(crate) low: u64,
    /// The binary logarithm of the number of addresses of a bucket.
    pub(crate) shift: u32,
    /// One count for each bucket, up to the bucket of the last segment.
    pub(crate) counts: Vec<u32>,
    ghost small: { shift < 64 },
}

impl Buckets {
    /// Creates the table of segments.
    pub(crate) fn of(alloc: Global, list: &[Segment]) -> Result<Buckets, AllocError>
        requires disjoint { AreDisjoint list.now }
        requires few { length list.now < 2 ^ 32 }
        ensures { IfOk result (λ b. AreBuckets list.now b.low b.shift (length list.now)
            b.counts.items) }
    {
        let low = match list.first() {
            Some(segment) => segment.from,
            None => 0,
        };
        let span = match list.last() {
            Some(segment) => segment.from.saturating_sub(low),
            None => 0,
        };
        let shift = shift_of(span, list.len());
        let counts = counts_of(alloc, list, low, shift)?;
        Ok(Buckets { low, shift, counts })
    }

    /// Returns the number of segments that start in buckets below `bucket`, of `total` segments.
    fn below(&self, bucket: usize, total: usize) -> usize
        ensures { result ≡ slice_index_or self.now.counts.items bucket total }
    {
        match self.counts.get(bucket) {
            Some(count) => *count as usize,
            None => total,
        }
    }

    /// Returns bounds for the number of segments that start at or before an address.
    pub(crate) fn bounds(&self, link: u64, total: usize) -> (usize, usize)
        ensures { (segments : List SegmentSeen) → total ≡ length segments →
            AreBuckets segments self.now.low self.now.shift total self.now.counts.items →
            AreBounds segments link result.0 result.1 }
    {
        let bucket = (link.saturating_sub(self.low) >> self.shift) as usize;
        let low = self.below(bucket, total).saturating_sub(1);
        (low, self.below(bucket.saturating_add(1), total))
    }
}

/// Returns the binary logarithm of the size of a bucket, so that there are at most as many buckets
/// as segments.
fn shift_of(span: u64, count: usize) -> u32
    ensures { result < 64 }
{
    let bits = (count as u64).leading_zeros() + 1;
    bits.saturating_sub(span.leading_zeros()).min(63)
}

/// Counts the segments in lower buckets, for each bucket up to the bucket of the last segment.
fn counts_of(alloc: Global, list: &[Segment], low: u64, shift: u32) -> Result<Vec<u32>, AllocError>
    requires disjoint { AreDisjoint list.now }
    requires few { length list.now < 2 ^ 32 }
    requires shift { shift < 64 }
    ensures { IfOk result (λ counts. AreBuckets list.now low shift (length list.now)
        counts.items) }
{
    let mut counts = Vec::with_capacity(alloc, list.len())?;
    for index in 0..list.len() {
        let segment = &list[index];
        fill(
            &mut counts,
            segment.from.saturating_sub(low) >> shift,
            index,
        )?;
    }
    counts.shrink_to_fit();
    Ok(counts)
}

/// Appends `index` for each bucket up to `bucket` that has no count.
fn fill(counts: &mut Vec<u32>, bucket: u64, index: usize) -> Result<(), AllocError>
    requires { index < 2 ^ 32 }
    ensures { OnOk result (Fills counts.old.items counts.new.items bucket index
        × (bucket < length counts.new.items)) }
{
    while counts.len() as u64 <= bucket {
        counts.push(narrow(index))?;
    }
    Ok(())
}
