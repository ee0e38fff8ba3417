//! The blocks of a listing.

ghost use Rattle.std.specs.Prelude.{◌≡◌, ◌≤◌, ◌<◌, ◌^◌, IfSome, IsErrOf, None, length, true};
ghost use Rattle.std.specs.Option.{option_copied};
ghost use Rattle.geo_chan.specs.Written.{Prints};
ghost use Rattle.layout_text.specs.Block.{block_of};
ghost use Rattle.problem_data.specs.Cells.{IsShaped, IsTuple};
ghost use Rattle.layout_search.specs.FirstLayout.{AreConditionsOf, walk_after};
ghost use Rattle.layout_search.specs.Page.{IsWalkOf, WritesPage};

use crate::in_dimensions;
use crate::start::{room_for_layout, start_search, take_layout};
use derivation::NoRecord;
use fixpoint::Fixpoint;
use geo_base::MAX_DIMS;
use geo_chan::{Page, PutFault, Sink, write_all_bytes};
use geo_conditions::{Cond, Layout};
use layout_text::print_layout;
use problem_data::problem::Problem;
use std::alloc::Global;
use trail_search::{Search, Step};

/// How a listing ends.
#[derive(Clone, Copy, Debug, PartialEq, Eq)]
pub enum Ending {
    /// As many layouts as were wanted were found.
    More,
    /// The walk is used up.
    End,
    /// The walk goes on past the budget.
    OutOfBudget,
}

/// Writes the blocks of the first `most` layouts of the problem, where these are its conditions,
/// among the first `budget` members of its walk, behind the tuple `after` where one is given; each
/// block as soon as it is found. Says how the listing ends. After a fault a front part of the
/// listing was written. All memory is taken before the first block: where the sink wants none,
/// memory is wanted only where the sink is as it was.
pub fn write_listing<W: Sink>(
    alloc: Global,
    problem: &Problem,
    conditions: Vec<Cond>,
    after: Option<&Layout>,
    most: u64,
    budget: u64,
    sink: &mut W,
) -> Result<Ending, PutFault>
    requires conditions { AreConditionsOf problem.now conditions.items }
    requires few { length conditions.items ≤ 10 ^ 9 }
    requires after { IfSome (option_copied after) (IsTuple problem.now) }
    ensures page { WritesPage problem.now
        (walk_after problem.now conditions.items (option_copied after.entry)) most budget
        (W.written sink.old) (W.written sink.new) (W.faults sink.old) (W.faults sink.new)
        (W.quiet sink.old) (W.quiet sink.new) result }
    ensures unwritten { W.quiet sink.old ≡ true → IsErrOf result PutFault.Memory
        → sink.new ≡ sink.old }
{
    problem.is_said();
    in_dimensions!(
        problem.dims(),
        write_in::<W>(alloc, problem, conditions, after, most, budget, sink)
    )
}

// The same, where K is the number of dimensions.
fn write_in<const K: usize, W: Sink>(
    alloc: Global,
    problem: &Problem,
    conditions: Vec<Cond>,
    after: Option<&Layout>,
    most: u64,
    budget: u64,
    sink: &mut W,
) -> Result<Ending, PutFault>
    requires k { (0 < K) × (K ≤ MAX_DIMS) }
    requires dims { problem.now.dims ≡ K }
    requires conditions { AreConditionsOf problem.now conditions.items }
    requires few { length conditions.items ≤ 10 ^ 9 }
    requires after { IfSome (option_copied after) (IsTuple problem.now) }
    ensures page { WritesPage problem.now
        (walk_after problem.now conditions.items (option_copied after.entry)) most budget
        (W.written sink.old) (W.written sink.new) (W.faults sink.old) (W.faults sink.new)
        (W.quiet sink.old) (W.quiet sink.new) result }
    ensures unwritten { W.quiet sink.old ≡ true → IsErrOf result PutFault.Memory
        → sink.new ≡ sink.old }
{
    problem.is_said();
    let none = NoRecord::new();
    let mut search = start_search::<K, NoRecord>(alloc, problem, conditions, after, budget, none)?;
    let mut layout = room_for_layout(alloc, problem)?;
    write_layouts(problem, &mut search, &mut layout, most, sink)
}

// Writes the blocks of the next `most` layouts of a search that has not set off. It takes no
// memory: each layout is put into the one that is handed in.
fn write_layouts<const K: usize, W: Sink>(
    problem: &Problem,
    search: &mut Search<K, Fixpoint<K>, NoRecord>,
    layout: &mut Layout,
    most: u64,
    sink: &mut W,
) -> Result<Ending, PutFault>
    requires k { K ≤ MAX_DIMS }
    requires dims { problem.now.dims ≡ K }
    requires walk { IsWalkOf problem.now search.old.walk }
    requires walked { search.old.walked ≡ 0 }
    requires over { search.old.over ≡ None }
    requires room { IsShaped problem.now layout.old }
    ensures page { WritesPage problem.now search.old.walk most search.old.budget
        (W.written sink.old) (W.written sink.new) (W.faults sink.old) (W.faults sink.new)
        (W.quiet sink.old) (W.quiet sink.new) result }
    ensures quiet { W.quiet sink.old ≡ true → IsErrOf result PutFault.Memory → ⊥ }
{
    problem.is_said();
    let mut page = Page::new();
    'listing: for listed in 0..most {
        match search.next() {
            Step::Found => {
                take_layout(problem, search, layout);
                write_over(problem, layout, &mut page, sink)?;
            }
            Step::Ended => return Ok(Ending::End),
            Step::Budget => return Ok(Ending::OutOfBudget),
            Step::Memory => unreachable!(),
        }
    }
    Ok(Ending::More)
}

/// Writes the block of a layout: in one piece, where a page has room for it.
pub fn write_block<W: Sink>(
    problem: &Problem,
    layout: &Layout,
    sink: &mut W,
) -> Result<(), PutFault>
    requires { IsShaped problem.now layout.now }
    ensures { Prints W.written W.faults W.quiet sink.old sink.new result
        (block_of problem.now layout.now) }
{
    write_over(problem, layout, &mut Page::new(), sink)
}

// The same by a page, whatever that held: it is as large as many blocks, and is made once for all.
fn write_over<W: Sink>(
    problem: &Problem,
    layout: &Layout,
    page: &mut Page,
    sink: &mut W,
) -> Result<(), PutFault>
    requires { IsShaped problem.now layout.now }
    ensures { Prints W.written W.faults W.quiet sink.old sink.new result
        (block_of problem.now layout.now) }
{
    page.clear();
    match print_layout(problem, layout, &mut *page) {
        Ok(()) => write_all_bytes(sink, page.bytes()),
        Err(_) => print_layout(problem, layout, sink),
    }
}
