//! Built modules, read back from their bytes.

ghost use Rattle.std.specs.Prelude.{◌≡◌, ◌∷◌, [], ◌++◌, List, All, IfErr, IfOk, MatchResult, map};
ghost use Rattle.wasm_tree.specs.declared.module.WModule.{WModule};
ghost use Rattle.wasm_tree.specs.Validity.{IsValid};
ghost use Rattle.wasm_binary.specs.Binary.{Encodes};
ghost use Rattle.m2c.specs.Build.{AreEncoded};
ghost use Rattle.run_program.specs.Reading.{IsModule, Lacks, bytes_of};

use std::alloc::Global;
use wasm_binary::read_module;
use wasm_tree::WFault;
use wasm_valid::{ValidModule, validate};

/// The module that these bytes encode, if it is valid.
fn module_of(alloc: Global, bytes: &[u8]) -> Result<ValidModule, WFault>
    ensures { MatchResult result (λ m. Encodes bytes.now m)
        (λ e. Lacks e ((m : WModule) → ¬ (IsModule bytes.now m))) }
{
    let tree = read_module(alloc, bytes)?;
    validate(alloc, tree)
}

fn add_module(alloc: Global, bytes: &[u8], modules: &mut Vec<ValidModule>) -> Result<(), WFault>
    ensures ok { IfOk result (λ _.
        (m : WModule) × (modules.new.items ≡ modules.old.items ++ m ∷ []) × Encodes bytes.now m) }
    ensures err { IfErr result (λ e. Lacks e ((m : WModule) → ¬ (IsModule bytes.now m))) }
{
    let module = module_of(alloc, bytes)?;
    modules.push(module)?;
    Ok(())
}

/// The modules that the bytes of link and of these modules encode, link first.
pub fn read_modules(
    alloc: Global,
    link: &[u8],
    others: &[(String, Vec<u8>)],
) -> Result<Vec<ValidModule>, WFault>
    ensures ok { IfOk result (λ v. AreEncoded (link.now ∷ map bytes_of others.now) v.items) }
    ensures err { IfErr result (λ e. Lacks e
        ((trees : List WModule)
        → AreEncoded (link.now ∷ map bytes_of others.now) trees
        → ¬ (All IsValid trees))) }
{
    let mut modules = Vec::new(alloc);
    add_module(alloc, link, &mut modules)?;
    for other in others {
        add_module(alloc, &other.1, &mut modules)?;
    }
    Ok(modules)
}
