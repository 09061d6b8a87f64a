//! A run is followed.

ghost use Rattle.std.specs.Prelude.{◌≡◌, ◌+◌, ◌<◌, ◌^◌};

use std::alloc::Global;
use wasm_core::{ValidModule, WFault};
use wasm_run::{End, Instances, Sink};
use watch_code::Reader;

/// How often a run is continued until the program has made its reductions. Each time what the signals took is made up for, which
/// is a part of what was made.
const MOST_TURNS: usize = 4096;

/// What hears the signals of a run.
#[derive(Drop)]
pub struct Ear {
    pub reader: Reader,
    pub failures: u64,
}

impl Ear {
    /// Nothing was heard.
    pub fn new(alloc: Global) -> Ear
        ensures { result.failures ≡ 0 }
    {
        Ear {
            reader: Reader::new(alloc),
            failures: 0,
        }
    }
}

impl Sink for Ear {
    ghost use Rattle.std.specs.Prelude.{None};

    ghost failed = { λ s. s.failures };

    ghost reported = { λ _. None };

    fn take(&mut self, byte: u8) -> bool {
        let is_taken = self.reader.take(byte).is_ok();
        if !is_taken {
            self.failures += 1;
        }
        is_taken
    }

    fn failures(&self) -> u64 {
        self.failures
    }
}

/// A run that was followed.
#[derive(Drop)]
pub struct Followed {
    /// Where it came to. Nothing if it was broken off.
    pub end: Option<End>,
    pub reader: Reader,
}

/// Makes so many reductions of the program, and the signals among them.
fn run_all(instances: &mut Instances<'_>, steps: u64, ear: &mut Ear) -> Option<End>
    requires { ear.old.failures ≡ 0 }
{
    let mut made: u64 = 0;
    for _ in 0..MOST_TURNS {
        let left = steps.saturating_sub(made.saturating_sub(ear.reader.reductions));
        if left == 0 || ear.failures > 0 {
            break;
        }
        match instances.run(left, ear) {
            Ok(End::StillRunning) => made = made.saturating_add(left),
            Ok(end) => return Some(end),
            Err(_) => return None,
        }
    }
    Some(End::StillRunning)
}

/// Runs modules with signals, link first, for at most so many reductions of the program.
///
/// `Unlinked` (83) and `SegmentOutside` (84) if they do not link, `NoMemory` (90) if memory ran out.
pub fn follow(alloc: Global, modules: &[ValidModule], steps: u64) -> Result<Followed, WFault> {
    let mut instances = Instances::link(alloc, modules)?;
    let mut ear = Ear::new(alloc);
    let end = run_all(&mut instances, steps, &mut ear);
    let Ear { reader, .. } = ear;
    Ok(Followed { end, reader })
}
