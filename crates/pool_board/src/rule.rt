// What the table of a board is given, what each of its steps answers a seat, and the rule that ties its words to what the
// seats did. None of it costs anything when a program runs.
ghost use Rattle.std.specs.Prelude.{ℕ};

use crate::graph::JobGraph;
use atomic_table::{Join, Play, Split, TableRule};
use std::collections::LinkedList;
use std::marker::{Brand, PhantomData};
use std::snapshot::Snapshot;

/// An edge that a seat counted down, and the number that it left. No value of it is made.
pub struct Counted {
    pub from: usize,
    pub edge: usize,
    pub left: u64,
}

/// What a seat did: the jobs that it had, those that it met and found taken, and the edges that it counted. `share` is
/// its part of the right to close the board. No value of it is made.
pub struct Record {
    pub share: usize,
    pub had: LinkedList<usize>,
    pub met: LinkedList<usize>,
    pub counts: LinkedList<Counted>,
}

/// What the table is given when it is made: the graph and the number of seats.
#[derive(Drop)]
pub struct Terms {
    pub graph: Snapshot<JobGraph>,
    pub workers: usize,
}

/// The rule of the table.
pub struct Keeping;

impl TableRule<(), Record, Terms> for Keeping {
    ghost use Rattle.pool_board.specs.Rule.{IsKept, blank};

    ghost holds = { λ terms. IsKept terms.graph.value terms.workers };

    ghost first = { λ terms. blank terms.workers };
}

/// The step of a claim.
pub struct Claiming;

impl Play<(), Record> for Claiming {
    ghost use Rattle.pool_board.specs.Steps.{Claims};

    ghost then = { Claims };
}

/// The edge that a step counts down. The caller picks it.
pub trait Edge {
    ghost from: { ℕ };

    ghost edge: { ℕ };
}

impl Edge for Brand {
    ghost from = { 0 };

    ghost edge = { 0 };
}

/// The step of a count.
pub struct Counting<E> {
    of: PhantomData<E>,
}

impl<E: Edge> Play<(), Record> for Counting<E> {
    ghost use Rattle.pool_board.specs.Steps.{CountsDown};

    ghost then = { CountsDown E.from E.edge };
}

/// A seat is cut off the one that has every share.
pub struct Dealing;

impl Split<Record> for Dealing {
    ghost use Rattle.pool_board.specs.Rule.{blank};
    ghost use Rattle.pool_board.specs.Steps.{less_one};

    ghost left = { less_one };

    ghost right = { λ _. blank 1 };
}

/// A seat without a share comes.
pub struct Sitting;

impl Play<(), Record> for Sitting {
    ghost use Rattle.std.specs.Prelude.{◌≡◌};
    ghost use Rattle.pool_board.specs.Rule.{blank};

    ghost then = { λ _ _ _ me. me.0 ≡ blank 0 };
}

/// Two seats become one.
pub struct Joining;

impl Join<Record> for Joining {
    ghost use Rattle.pool_board.specs.Rule.{blank};
    ghost use Rattle.pool_board.specs.Steps.{join_records};

    ghost both = { join_records };

    ghost spent = { blank 0 };
}
