//! Making the runs of groups in rows.

ghost use Rattle.std.specs.Prelude.{◌≡◌, ◌≢◌, ℕ, ◌+◌, ◌<◌, true, length, IfOk, IsTrue, OnOk};
ghost use Rattle.object_pruning.specs.Runs.{AreRuns, AreRunsTo, row};

use crate::near::Near;
use crate::rows::{Group, Rows, Run};
use geo_conditions::ObjId;
use std::alloc::{AllocError, Global};

/// Whether both are the same object, or neither is one.
pub fn is_same_object(a: Option<ObjId>, b: Option<ObjId>) -> bool
    ensures { IsTrue result → a ≡ b }
{
    match (a, b) {
        (Some(u), Some(v)) => u.0 == v.0,
        (None, None) => true,
        _ => false,
    }
}

// Whether the group can stand in the run.
fn is_alike(run: &Run, group: &Group) -> bool
    ensures other { IsTrue result → group.now.other ≡ run.now.other }
    ensures asks { IsTrue result → run.now.asks ≡ true → group.now.other_place ≢ 0 }
{
    run.asks == (group.other_place != 0) && is_same_object(group.other, run.other)
}

// Puts the k-th group behind the others: into the last run, where it can stand there, or else into
// a run of its own.
fn put_group(groups: &[Group], k: usize, runs: &mut Vec<Run>) -> Result<(), AllocError>
    requires group { k < length groups.now }
    requires below { AreRunsTo groups.now k runs.old.items }
    ensures { OnOk result (AreRunsTo groups.now (k + 1) runs.new.items) }
{
    let group = groups[k];
    let n = runs.len();
    if n > 0 {
        let run = runs[n - 1];
        if is_alike(&run, &group) {
            runs[n - 1] = Run { end: k + 1, ..run };
            return Ok(());
        }
    }
    runs.push(Run {
        other: group.other,
        asks: group.other_place != 0,
        first: k,
        end: k + 1,
    })?;
    Ok(())
}

// The runs of a row.
fn runs_of(alloc: Global, groups: &[Group]) -> Result<Vec<Run>, AllocError>
    ensures { IfOk result (λ v. AreRuns groups.now v.items) }
{
    let mut runs = Vec::new(alloc);
    for k in 0..groups.len() {
        put_group(groups, k, &mut runs)?;
    }
    Ok(runs)
}

// The runs of each row.
fn all_runs(alloc: Global, rows: &[Vec<Group>]) -> Result<Vec<Vec<Run>>, AllocError>
    ensures { IfOk result (λ v. (r : ℕ) → AreRuns (row rows.now r) (row v.items r)) }
{
    let mut runs = Vec::new(alloc);
    for r in 0..rows.len() {
        runs.push(runs_of(alloc, &rows[r])?)?;
    }
    Ok(runs)
}

/// The rows beside their runs. The answer is an error where memory runs out.
pub fn with_runs(
    alloc: Global,
    rows: Vec<Vec<Group>>,
    near: Vec<Option<Near>>,
) -> Result<Rows, AllocError>
    ensures rows { IfOk result (λ r. r.rows.items ≡ rows.items) }
    ensures near { IfOk result (λ r. r.near.items ≡ near.items) }
{
    let runs = all_runs(alloc, &rows)?;
    Ok(Rows { rows, runs, near })
}
