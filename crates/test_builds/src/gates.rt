//! Gates: who lets workers in to jobs.

use m2c::Gate;
use std::sync::atomic::AtomicUsize;
use std::sync::atomic::Ordering::SeqCst;

/// How many turns one who came first waits for another.
const TURNS: u64 = 200_000_000;

/// Says the same of each job.
#[derive(Drop)]
pub struct Always(pub bool);

impl Gate for Always {
    ghost use Rattle.std.specs.Prelude.{◌≡◌, true};

    ghost admits = { λ g _. g.0 ≡ true };

    fn enter(&self, _job: usize) -> bool {
        self.0
    }
}

/// Lets everybody in, and counts how often it was asked.
#[derive(Drop)]
pub struct Counting {
    asked: AtomicUsize,
}

impl Counting {
    /// It was not asked.
    pub fn new() -> Counting {
        Counting {
            asked: AtomicUsize::new(0),
        }
    }

    /// How often it was asked.
    pub fn asked(&self) -> usize {
        self.asked.load(SeqCst)
    }
}

impl Gate for Counting {
    ghost admits = { λ _ _. Unit {0} };

    fn enter(&self, _job: usize) -> bool {
        self.asked.fetch_add(1, SeqCst);
        true
    }
}

/// Lets the first ones in, and holds whoever comes next until another has come, for a number of turns.
#[derive(Drop)]
pub struct Meeting {
    first: usize,
    came: AtomicUsize,
    gave_up: AtomicUsize,
}

impl Meeting {
    /// Nobody has come, and this many are let in at once.
    pub fn after(first: usize) -> Meeting {
        Meeting {
            first,
            came: AtomicUsize::new(0),
            gave_up: AtomicUsize::new(0),
        }
    }

    /// Whether two came behind the first.
    fn two_came(&self) -> bool {
        self.came.load(SeqCst).saturating_sub(self.first) >= 2
    }

    /// Whether two came behind the first, and nobody waited to the end.
    pub fn met(&self) -> bool {
        self.two_came() && self.gave_up.load(SeqCst) == 0
    }
}

impl Gate for Meeting {
    ghost admits = { λ _ _. Unit {0} };

    fn enter(&self, _job: usize) -> bool {
        if self.came.fetch_add(1, SeqCst) < self.first {
            return true;
        }
        for _ in 0..TURNS {
            if self.two_came() {
                return true;
            }
            std::hint::spin_loop();
        }
        self.gave_up.fetch_add(1, SeqCst);
        true
    }
}
