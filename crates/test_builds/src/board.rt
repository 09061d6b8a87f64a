//! The board by itself: who gets a job, and which count ends a wait, in the order of the calls.

ghost use Rattle.std.specs.Prelude.{◌≡◌, [], ◌∷◌, map, IfOk};

use pool_board::{Board, JobGraph};
use std::alloc::{AllocError, Global};

// Job 0 comes first, then 1 and 2, then 3.
fn diamond(alloc: Global) -> Result<Vec<Vec<usize>>, AllocError>
    ensures { IfOk result (λ v.
        map (λ l. l.items) v.items ≡ [] ∷ (0 ∷ []) ∷ (0 ∷ []) ∷ (1 ∷ 2 ∷ []) ∷ []) }
{
    let mut jobs = Vec::new(alloc);
    jobs.push(Vec::new(alloc))?;
    jobs.push(Vec::from_slice(alloc, &[0])?)?;
    jobs.push(Vec::from_slice(alloc, &[0])?)?;
    jobs.push(Vec::from_slice(alloc, &[1, 2])?)?;
    Ok(jobs)
}

#[test]
fn each_job_is_had_once_and_each_wait_ends_once(rt: HostRuntime) {
    let rows = diamond(rt.alloc()).expect(&rt, "memory");
    let graph = JobGraph::of(rt.alloc(), rows.as_slice()).expect(&rt, "a graph");
    let (board, mut seats) = Board::open(rt.alloc(), &graph, 2).expect(&rt, "a board");
    let (Some(mut second), Some(mut first)) = (seats.pop(), seats.pop()) else {
        panic!(rt; "there are two seats")
    };
    assert!(rt; board.claim(&mut first, 0));
    assert!(rt; !board.claim(&mut second, 0));
    assert!(rt; board.count_down(&mut first, 0, 0));
    assert!(rt; board.count_down(&mut first, 0, 1));
    assert!(rt; board.claim(&mut first, 1));
    assert!(rt; board.claim(&mut second, 2));
    assert!(rt; !board.count_down(&mut first, 1, 0));
    assert!(rt; board.count_down(&mut second, 2, 0));
    seats.push(first).expect(&rt, "memory");
    seats.push(second).expect(&rt, "memory");
    let tally = board.close(seats);
    assert!(rt; tally.seats.len() == 2);
    assert!(rt; tally.seats[0].as_slice() == [0, 1].as_slice());
    assert!(rt; tally.seats[1].as_slice() == [2].as_slice());
    assert!(rt; tally.gatherer.as_slice() == [3].as_slice());
}
