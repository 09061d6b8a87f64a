//! Numbers, of which the least comes first.

ghost use Rattle.std.specs.Prelude.{◌≡◌, ◌≤◌, ◌+◌, ◌==◌, ℕ, [], cond, true, OnOk, IfSome, MatchOption};
ghost use Rattle.std.specs.BinaryHeap.{heap_items, IsHeap};
ghost use Rattle.std.specs.Ordering.{nat_cmp};
ghost use Rattle.std.proofs.Props.{props};

use std::alloc::{AllocError, Global};
use std::cmp::Reverse;
use std::collections::BinaryHeap;

/// Numbers, of which the least comes first.
#[derive(Drop)]
pub struct Least {
    heap: BinaryHeap<Reverse<usize>>,
    ghost ordered: { IsHeap (λ x y. nat_cmp y.0 x.0) (heap_items heap) } by { Prim.hlevel props },
}

impl Least {
    ghost use Rattle.graph_walk.specs.Links.{has, times};
    ghost use Rattle.graph_walk.specs.Waiting.{numbers_in};

    /// No numbers.
    pub fn new(alloc: Global) -> Least
        ensures { numbers_in result ≡ [] }
    {
        Least {
            heap: BinaryHeap::new(alloc),
        }
    }

    /// Adds a number.
    pub fn push(&mut self, number: usize) -> Result<(), AllocError>
        ensures { OnOk result ((k : ℕ)
            → times (numbers_in self.new) k
            ≡ times (numbers_in self.old) k + cond (number == k) 1 0) }
    {
        self.heap.push(Reverse(number))?;
        Ok(())
    }

    /// Takes the least.
    pub fn pop(&mut self) -> Option<usize>
        ensures taken { MatchOption result (numbers_in self.old ≡ []) (λ number.
            (k : ℕ)
            → times (numbers_in self.old) k
            ≡ times (numbers_in self.new) k + cond (number == k) 1 0) }
        ensures least { IfSome result (λ number.
            (k : ℕ) → has (numbers_in self.old) k ≡ true → number ≤ k) }
    {
        let Reverse(number) = self.heap.pop()?;
        Some(number)
    }
}
