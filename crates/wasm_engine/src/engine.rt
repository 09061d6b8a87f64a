//! Linked modules and their run (Core 1.0, sections 4.5.4 and 4.5.5).

ghost use Rattle.std.specs.Prelude.{◌≡◌, ◌≢◌, ◌↔◌, ◌+◌, ◌<◌, ◌≤◌, ◌^◌, ◌++◌, ◌∷◌, [], ℕ, List, true, false, IfOk, IfErr, OnOk, OnErr, MatchResult, Err, Ok, Some, slice_get, IsTrue, map, All};
ghost use Rattle.wasm_tree.specs.Format.{Gives};
ghost use Rattle.wasm_tree.specs.Machine.{Config, Typed, own_function, callee_at, run, enter_function};
ghost use Rattle.wasm_tree.specs.Linking.{link, start, start_run};
ghost use Rattle.wasm_tree.specs.declared.store.Callee.{Callee};
ghost use Rattle.wasm_tree.specs.Validity.{IsValid};
ghost use Rattle.wasm_machine.specs.Going.{activation, going, progress, memory_from};
ghost use Rattle.wasm_engine.specs.Ends.{config_at};
ghost use Rattle.wasm_engine.specs.Quick.{Holds};
ghost use Rattle.wasm_engine.specs.Safe.{StaysSafe};
ghost use Rattle.wasm_engine.specs.Reported.{with_bytes};

use crate::quick::several;
use crate::sink::Sink;
use std::alloc::{AllocError, Global};
use thiserror::Error;
use tree_parts::{Items, at};
use wasm_known::{KnownFunction, known_functions};
use wasm_link::{linked_all, own_function, run_of};
use wasm_machine::{Machine, Pages, Reduced, first_frame};
use wasm_operands::Operands;
use wasm_tree::{Callee, Memory, Store, WFault};
use wasm_valid::ValidModule;

/// Where a run is.
#[derive(Clone, Copy, Debug, PartialEq, Eq)]
pub enum End {
    /// The run is over: 0 if it came to its end, else the number that stopped it.
    Done(u8),
    /// The run trapped.
    Trap,
    /// The run goes on.
    StillRunning,
}

/// Why a run was broken off.
#[derive(Clone, Copy, Debug, PartialEq, Eq, Error)]
pub enum RunFault {
    /// 90: a request for memory was refused.
    #[error("refusal 90")]
    NoMemory,
    /// 91: a printed byte was not taken.
    #[error("refusal 91")]
    Write,
    /// 92: the run was broken off in an earlier call.
    #[error("refusal 92")]
    Ended,
}

impl From<AllocError> for RunFault {
    ghost use Rattle.std.specs.Prelude.{◌≡◌};
    ghost use Rattle.wasm_engine.specs.declared.engine.RunFault.TheVariants.{NoMemory};

    ghost from_gives = { λ _ e. e ≡ NoMemory };

    fn from(_: AllocError) -> RunFault {
        RunFault::NoMemory
    }
}

/// Linked modules, of which the first one's `run` is executed.
#[derive(Drop)]
pub struct Instances<'a> {
    alloc: Global,
    modules: &'a [ValidModule],
    // Which functions are known by their code, found when the modules are linked.
    table: Items<Items<KnownFunction>>,
    machine: Machine<'a>,
    end: End,
    is_broken: bool,
    // What an instruction needs is there, and the table is right, as long as the run was not broken off.
    ghost sound: { ∥ (is_broken ≡ false → Holds modules.now table (config_at end (going machine)))
        ∥₁ },
}

/// The memories, as the run has them.
fn pages_of(alloc: Global, memories: &[Memory]) -> Result<Vec<Pages>, AllocError>
    ensures { IfOk result (λ v. map memory_from v.items ≡ memories.now) }
{
    let mut all = Vec::new(alloc);
    for memory in memories {
        all.push(Pages {
            bytes: Vec::from_slice(alloc, memory.bytes.as_slice())?,
            max: memory.max,
        })?;
    }
    Ok(all)
}

/// Takes the memories out of the store.
fn take_memories(alloc: Global, store: &mut Store) -> Result<Vec<Pages>, AllocError>
    ensures { IfOk result (λ v.
        (map memory_from v.items ≡ store.old.memories)
        × (store.new ≡ record store.old { memories = [] })) }
{
    let memories = pages_of(alloc, store.memories.as_slice())?;
    store.memories = Items::new(alloc);
    Ok(memories)
}

/// Takes the values of globals out of the store.
fn take_globals(alloc: Global, store: &mut Store) -> Result<Operands, AllocError>
    ensures { IfOk result (λ o.
        (o.known.values ≡ store.old.globals) × (store.new ≡ record store.old { globals = [] })) }
{
    let globals = Operands::from_values(alloc, store.globals.as_slice())?;
    store.globals = Items::new(alloc);
    Ok(globals)
}

/// The machine at the beginning of this function.
fn machine_at<'a>(
    alloc: Global,
    modules: &'a [ValidModule],
    store: Store,
    number: usize,
    function: usize,
) -> Result<Machine<'a>, WFault>
    ensures { Gives (λ m. going m) result
        (start_run store (own_function modules.now number function) number) }
{
    let Some(first) = own_function(modules, number, function) else {
        return Err(WFault::Unlinked);
    };
    let now = first_frame(alloc, number, first)?;
    let mut store = store;
    let memories = take_memories(alloc, &mut store)?;
    let globals = take_globals(alloc, &mut store)?;
    Ok(Machine {
        store,
        memories,
        globals,
        now,
        callers: Vec::new(alloc),
        spare: Vec::new(alloc),
    })
}

/// The function of an index, if it is there.
fn callee_found(store: &Store, instance: usize, index: u32) -> Option<Callee>
    ensures { result ≡ callee_at store.now instance index }
{
    let instance = at(store.instances.as_slice(), instance)?;
    let address = at(instance.functions.as_slice(), index as usize)?;
    Some(*at(store.functions.as_slice(), *address)?)
}

/// The machine at the beginning of what link's run names.
fn start<'a>(
    alloc: Global,
    modules: &'a [ValidModule],
    store: Store,
    function: u32,
) -> Result<Machine<'a>, WFault>
    ensures { Gives (λ m. going m) result (start modules.now store (callee_at store 0 function)) }
{
    match callee_found(&store, 0, function) {
        Some(Callee::Own { module, function }) => {
            machine_at(alloc, modules, store, module, function)
        }
        _ => Err(WFault::Unlinked),
    }
}

impl<'a> Instances<'a> {
    ghost use Rattle.wasm_engine.specs.Instances.{config_of, modules_of, has_failed, end_of, IsIdle, Made, Settles, Stops, Breaks, Runs, RunsPart};

    /// Links the modules, the first of which is `link`: it answers the others' imports from `link`, and the host
    /// answers `put` and `stop` from `host`. Its `run` is then about to be executed. `Unlinked` (83) if there is no
    /// module, no function without parameters and results exported as `run` by the first, or an import that is missing
    /// or of another type; `SegmentOutside` (84) if a segment reaches outside its table or memory. `run` is looked for
    /// first; then the first module at fault in order decides, its imports before its segments.
    pub fn link(alloc: Global, modules: &'a [ValidModule]) -> Result<Instances<'a>, WFault>
        ensures gives { Gives (λ i. config_of i) result (link modules.now) }
        ensures fresh { IfOk result (λ i. (modules_of i ≡ modules.now) × (has_failed i ≡ false)) }
    {
        let machine = link_machine(alloc, modules)?;
        let table = known_functions(alloc, modules, &machine.store)?;
        Ok(Instances {
            alloc,
            modules,
            table,
            machine,
            end: End::StillRunning,
            is_broken: false,
        })
    }

    /// Executes link's `run` for `steps` further reductions, or up to its end if that comes first, and hands each
    /// printed byte to `out`. After an end each later call answers the same, and asks for no memory. `Write` (91)
    /// exactly if `out` failed, `NoMemory` (90) if memory was refused; each later call then answers `Ended` (92) and
    /// does nothing.
    pub fn run<S: Sink>(&mut self, steps: u64, out: &mut S) -> Result<End, RunFault>
        requires { S.failed out.old + 1 < 2 ^ 64 }
        // Without a fault: exactly these reductions, the bytes that they print, and where the run is then.
        ensures ok { IfOk result (λ e.
            Runs S.reported S.failed steps e self.old self.new out.old out.new) }
        ensures unbroken { OnOk result (has_failed self.new ≡ false) }
        // With one: the bytes of the reductions before it.
        ensures err { OnErr result
            (RunsPart S.reported steps self.old out.old out.new × (has_failed self.new ≡ true)) }
        ensures write { (result ≡ Err RunFault.Write) ↔ (S.failed out.new ≡ S.failed out.old + 1) }
        ensures others { (result ≡ Err RunFault.Write → ⊥) → S.failed out.new ≡ S.failed out.old }
        ensures ended { (result ≡ Err RunFault.Ended) ↔ (has_failed self.old ≡ true) }
        ensures nothing { result ≡ Err RunFault.Ended
            → IsIdle S.reported self.old self.new out.old out.new }
        // After an end nothing is done, and the answer is the same.
        ensures over { has_failed self.old ≡ false
            → (e : End)
            → end_of (config_of self.old) ≡ Some e
            → (result ≡ Ok e) × IsIdle S.reported self.old self.new out.old out.new }
        ensures modules { modules_of self.new ≡ modules_of self.old }
        // Each reduction finds what it needs, and traps only by a rule of the standard.
        ensures safe { has_failed self.old ≡ false
            → StaysSafe (modules_of self.old) (config_of self.old) }
    {
        if self.is_broken {
            return Err(RunFault::Ended);
        }
        if self.end != End::StillRunning {
            return Ok(self.end);
        }
        self.is_broken = true;
        let answer = self.go_on(steps, out);
        self.is_broken = answer.is_err();
        answer
    }

    /// The same, of a run that was not broken off; it counts as one until this is done.
    fn go_on<S: Sink>(&mut self, steps: u64, out: &mut S) -> Result<End, RunFault>
        requires room { S.failed out.old + 1 < 2 ^ 64 }
        requires broken { has_failed self.old ≡ true }
        requires sound { ∥ Holds (modules_of self.old) self.old.table (config_of self.old) ∥₁ }
        ensures ok { IfOk result (λ e.
            Runs S.reported S.failed steps e self.old self.new out.old out.new) }
        ensures err { IfErr result (λ e.
            RunsPart S.reported steps self.old out.old out.new
            × Breaks S.failed e out.old out.new) }
        ensures keeps { (modules_of self.new ≡ modules_of self.old)
            × (has_failed self.new ≡ has_failed self.old) × (self.new.table ≡ self.old.table) }
    {
        let mut left = steps;
        while left > 0 && self.end == End::StillRunning {
            left -= self.some(left, out)?;
        }
        Ok(self.end)
    }

    /// One or more reductions of a run that goes on, up to this many.
    fn some<S: Sink>(&mut self, most: u64, out: &mut S) -> Result<u64, RunFault>
        requires room { S.failed out.old + 1 < 2 ^ 64 }
        requires going { self.old.end ≡ End.StillRunning }
        requires most { 0 < most }
        requires broken { has_failed self.old ≡ true }
        requires sound { ∥ Holds (modules_of self.old) self.old.table (config_of self.old) ∥₁ }
        ensures ok { IfOk result (λ n.
            (0 < n) × (n ≤ most) × Made S.reported S.failed n self.old self.new out.old out.new) }
        ensures err { IfErr result (λ e. Stops S.reported S.failed e out.old out.new) }
        ensures keeps { (modules_of self.new ≡ modules_of self.old)
            × (has_failed self.new ≡ has_failed self.old) × (self.new.table ≡ self.old.table) }
    {
        let (made, reduced) = go(
            self.alloc,
            self.modules,
            self.table.as_slice(),
            &mut self.machine,
            most,
        )?;
        self.settle(reduced, out)?;
        Ok(made)
    }

    /// Hands on what was printed, and keeps how the run ended.
    fn settle<S: Sink>(&mut self, reduced: Reduced, out: &mut S) -> Result<(), RunFault>
        requires room { S.failed out.old + 1 < 2 ^ 64 }
        requires going { self.old.end ≡ End.StillRunning }
        requires broken { has_failed self.old ≡ true }
        ensures settles { MatchResult result
            (λ _. Settles S.reported S.failed reduced self.old self.new out.old out.new)
            (λ e. Stops S.reported S.failed e out.old out.new) }
        ensures keeps { (modules_of self.new ≡ modules_of self.old)
            × (has_failed self.new ≡ has_failed self.old) × (self.new.table ≡ self.old.table) }
    {
        match reduced {
            Reduced::On => Ok(()),
            Reduced::Printed(byte) => {
                if out.take(byte) {
                    Ok(())
                } else {
                    Err(RunFault::Write)
                }
            }
            Reduced::Over(number) => {
                self.end = End::Done(number);
                Ok(())
            }
            Reduced::Trapped => {
                self.end = End::Trap;
                Ok(())
            }
        }
    }
}

/// Makes reductions up to this many, or up to the first one that prints, ends the run or traps.
#[inline(always)]
fn go<'a>(
    alloc: Global,
    modules: &'a [ValidModule],
    table: &[Items<KnownFunction>],
    machine: &mut Machine<'a>,
    most: u64,
) -> Result<(u64, Reduced), AllocError>
    requires most { 0 < most }
    requires sound { ∥ Holds modules.now table.now (going machine.old) ∥₁ }
    ensures within { IfOk result (λ p. (0 < p.0) × (p.0 ≤ most)) }
    ensures made { IfOk result (λ p.
        progress p.1 machine.new ≡ run modules.now p.0 (going machine.old)) }
{
    let mut left = most;
    loop {
        let (count, reduced) = several(alloc, modules, table, machine, left)?;
        left -= count;
        match reduced {
            Reduced::On => {
                if left == 0 {
                    return Ok((most, Reduced::On));
                }
            }
            Reduced::Printed(_) | Reduced::Over(_) | Reduced::Trapped => {
                return Ok((most - left, reduced));
            }
        }
    }
}

/// Each module is valid.
fn see_valid(modules: &[ValidModule])
    ensures { All IsValid modules.now }
{
    for module in modules {
        module.module();
    }
}

#[tactic(auto, unfolding(wasm_tree::specs::Linking::link))]
fn link_machine<'a>(alloc: Global, modules: &'a [ValidModule]) -> Result<Machine<'a>, WFault>
    ensures gives { Gives (λ m. going m) result (link modules.now) }
    ensures valid { All IsValid modules.now }
{
    see_valid(modules);
    let function = run_of(alloc, modules)?;
    let store = linked_all(alloc, modules)?;
    start(alloc, modules, store, function)
}
