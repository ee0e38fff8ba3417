//! Faults of numbers and ranges.

ghost use Rattle.std.specs.Prelude.{◌≡◌, ◌↔◌, IsTrue};
ghost use Rattle.problem_data.specs.Limits.{IsSmall, IsSize};
ghost use Rattle.problem_data.specs.Least.{fault, IsLeast};
ghost use Rattle.geo_tokens.specs.declared.fault.FaultWord.TheVariants.{Limit};
ghost use Rattle.problem_data.specs.Faults.{first_place, int_place, range_place, OffsetFault, SizeFault, OffsetsFault, SizesFault, UpsideDown, RangeFault, RangesFault};

use crate::each::{FindFault, each_fault};
use geo_tokens::fault::FaultWord;
use problem_data::fault::{Fault, earlier, fault_if};
use problem_data::tree::{Int, RangeText};

/// A list of this length has not exactly k members; its first token is at the place.
pub fn miscount(k: usize, len: usize, place: u64) -> Option<Fault>
    ensures { IsLeast (λ f. (len ≡ k → ⊥) × (f ≡ fault place Limit)) result }
{
    fault_if(len != k, place, FaultWord::Limit)
}

fn is_small(value: i64) -> bool
    ensures { IsTrue result ↔ IsSmall value }
{
    -1_000_000 <= value && value <= 1_000_000
}

fn is_size(value: i64) -> bool
    ensures { IsTrue result ↔ IsSize value }
{
    1 <= value && value <= 1_000_000
}

fn offset_fault(number: Int) -> Option<Fault>
    ensures { IsLeast (OffsetFault number) result }
{
    let small = is_small(number.value);
    fault_if(!small, number.place, FaultWord::Limit)
}

fn size_fault(number: Int) -> Option<Fault>
    ensures { IsLeast (SizeFault number) result }
{
    let size = is_size(number.value);
    fault_if(!size, number.place, FaultWord::Size)
}

// Finds a number that is no offset.
#[derive(Clone, Copy)]
struct Offsets;

impl FindFault<Int> for Offsets {
    ghost IsFaultOf = { λ _. OffsetFault };

    fn fault_of(&self, item: &Int) -> Option<Fault> {
        offset_fault(*item)
    }
}

// Finds a number that is no size.
#[derive(Clone, Copy)]
struct Sizes;

impl FindFault<Int> for Sizes {
    ghost IsFaultOf = { λ _. SizeFault };

    fn fault_of(&self, item: &Int) -> Option<Fault> {
        size_fault(*item)
    }
}

/// The place of the first number, and 0 where there is none.
pub fn first_int(numbers: &[Int]) -> u64
    ensures { result ≡ first_place int_place numbers.now }
{
    match numbers {
        [first, ..] => first.place,
        [] => 0,
    }
}

/// The first fault of the offsets of a box.
pub fn offsets_fault(k: usize, numbers: &[Int]) -> Option<Fault>
    ensures { IsLeast (OffsetsFault k numbers.now) result }
{
    let count = miscount(k, numbers.len(), first_int(numbers));
    let each = each_fault(&Offsets, numbers);
    earlier(count, each)
}

/// The first fault of the sizes of a box.
pub fn sizes_fault(k: usize, numbers: &[Int]) -> Option<Fault>
    ensures { IsLeast (SizesFault k numbers.now) result }
{
    let count = miscount(k, numbers.len(), first_int(numbers));
    let each = each_fault(&Sizes, numbers);
    earlier(count, each)
}

fn upside_down(range: &RangeText) -> Option<Fault>
    ensures { IsLeast (UpsideDown range.now) result }
{
    fault_if(
        range.high.value < range.low.value,
        range.low.place,
        FaultWord::Range,
    )
}

pub fn range_fault(range: &RangeText) -> Option<Fault>
    ensures { IsLeast (RangeFault range.now) result }
{
    let low = offset_fault(range.low);
    let high = offset_fault(range.high);
    let turned = upside_down(range);
    let others = earlier(high, turned);
    earlier(low, others)
}

// Finds the first fault of a range.
#[derive(Clone, Copy)]
struct Ranges;

impl FindFault<RangeText> for Ranges {
    ghost IsFaultOf = { λ _. RangeFault };

    fn fault_of(&self, item: &RangeText) -> Option<Fault> {
        range_fault(item)
    }
}

/// The place of the first range, and 0 where there is none.
pub fn first_range(ranges: &[RangeText]) -> u64
    ensures { result ≡ first_place range_place ranges.now }
{
    match ranges {
        [first, ..] => first.low.place,
        [] => 0,
    }
}

/// The first fault of the ranges of `within`.
pub fn ranges_fault(k: usize, ranges: &[RangeText]) -> Option<Fault>
    ensures { IsLeast (RangesFault k ranges.now) result }
{
    let count = miscount(k, ranges.len(), first_range(ranges));
    let each = each_fault(&Ranges, ranges);
    earlier(count, each)
}
