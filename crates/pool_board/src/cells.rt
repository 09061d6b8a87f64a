// The cells of the jobs, in which a worker finds the results of others.
ghost use Rattle.std.specs.Prelude.{◌≡◌, length, map, slice_get, Some, IfOk, IfSome};
ghost use Rattle.once_cell.specs.Once.{cell_name};
ghost use Rattle.pool_board.specs.Results.{items_at};

use once_cell::race::{Note, OnceBox};
use std::alloc::{AllocError, Global};

/// A cell for each job, none of them set.
pub fn empty_cells<T: Drop>(alloc: Global, jobs: usize) -> Result<Vec<OnceBox<T>>, AllocError>
    ensures { IfOk result (λ v. length v.items ≡ jobs) }
{
    let mut cells = Vec::with_capacity(alloc, jobs)?;
    for _ in 0..jobs {
        cells.push(OnceBox::new(alloc))?;
    }
    Ok(cells)
}

// What the cells of some jobs hold, and a note of each that knows it.
#[derive(Drop)]
pub(crate) struct Found<'c, T> {
    pub outs: Vec<&'c T>,
    pub notes: Vec<Note<T>>,
}

/// What the cells of the jobs hold, if all are set, with a note of each that knows it.
pub(crate) fn all_finished<'c, T: Drop>(
    alloc: Global,
    cells: &'c [OnceBox<T>],
    jobs: &[usize],
) -> Result<Option<Found<'c, T>>, AllocError>
    ensures count { IfOk result (λ r. IfSome r (λ f. length f.outs.items ≡ length jobs.now)) }
    ensures cells { IfOk result (λ r.
        IfSome r
        (λ f. map (λ n. n.cell) f.notes.items ≡ items_at (map cell_name cells.now) jobs.now)) }
    ensures known { IfOk result (λ r.
        IfSome r (λ f. map (λ n. n.known) f.notes.items ≡ map (λ x. Some x.now) f.outs.items)) }
{
    let mut outs = Vec::with_capacity(alloc, jobs.len())?;
    let mut notes = Vec::with_capacity(alloc, jobs.len())?;
    for job in jobs {
        let Some((out, note)) = finished_result(cells, *job) else {
            return Ok(None);
        };
        outs.push(out)?;
        notes.push(note)?;
    }
    Ok(Some(Found { outs, notes }))
}

// What the cell of a job holds, if it is set, with a note that knows it.
fn finished_result<'c, T: Drop>(cells: &'c [OnceBox<T>], job: usize) -> Option<(&'c T, Note<T>)>
    ensures cell { IfSome result (λ r. slice_get (map cell_name cells.now) job ≡ Some r.1.cell) }
    ensures known { IfSome result (λ r. r.1.known ≡ Some r.0.now) }
{
    if job >= cells.len() {
        return None;
    }
    let cell = &cells[job];
    let mut note = cell.note();
    let out = cell.get_as(&mut note)?;
    Some((out, note))
}
