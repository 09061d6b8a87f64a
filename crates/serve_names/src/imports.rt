//! The names that a module imports.

use m2_tree::{Ident, Import, is_console};
use serve_scopes::{Kind, PUT, Role, Standing};
use serve_walks::Walk;
use std::alloc::AllocError;

/// The declaration of an imported module, which has a definition.
fn module_of(walk: &Walk, name: &Ident) -> Option<usize> {
    walk.program.modules.get(name.name.as_bytes()).map(|it| *it)
}

/// An imported module, and what its name stands for.
fn module_named(walk: &mut Walk, name: &Ident) -> Result<Option<Standing>, AllocError> {
    if is_console(name.name.as_bytes()) {
        return Ok(Some(Standing::BuiltIn));
    }
    match module_of(walk, name) {
        Some(number) => {
            walk.mention(name, number, Role::Import)?;
            Ok(Some(Standing::Declared(number)))
        }
        None => {
            walk.miss(name)?;
            Ok(None)
        }
    }
}

/// Modules that are imported as such.
fn import_modules(walk: &mut Walk, scope: usize, names: &[Ident]) -> Result<(), AllocError> {
    for name in names {
        if let Some(standing) = module_named(walk, name)? {
            walk.program.enter(scope, name.name.as_bytes(), standing)?;
        }
    }
    Ok(())
}

/// Enters the constants of an enumeration that is imported by its name.
fn enter_constants(walk: &mut Walk, scope: usize, number: usize) -> Result<(), AllocError> {
    let constants = match walk.program.declaration(number) {
        Some(it) => it.constants,
        None => return Ok(()),
    };
    for constant in constants.begin..constants.end {
        if walk.program.kind_of(constant) == Some(Kind::EnumerationConstant) {
            walk.program.enter_declared(scope, constant)?;
        }
    }
    Ok(())
}

/// A name that is imported from a module with this scope of exported names.
fn import_name(
    walk: &mut Walk,
    scope: usize,
    exports: usize,
    name: &Ident,
) -> Result<(), AllocError> {
    let bytes = name.name.as_bytes();
    match walk.program.found(exports, bytes) {
        Some(Standing::Declared(number)) => {
            walk.mention(name, number, Role::Import)?;
            let standing = Standing::Declared(number);
            walk.program.enter(scope, bytes, standing)?;
            if walk.program.found(scope, bytes) == Some(standing) {
                enter_constants(walk, scope, number)?;
            }
            Ok(())
        }
        Some(Standing::BuiltIn) | None => walk.miss(name),
    }
}

/// Names that are imported from the built in module.
fn import_built_in(walk: &mut Walk, scope: usize, names: &[Ident]) -> Result<(), AllocError> {
    for name in names {
        if name.name.as_bytes() == PUT {
            walk.program.enter(scope, PUT, Standing::BuiltIn)?;
        } else {
            walk.miss(name)?;
        }
    }
    Ok(())
}

/// Names that are imported from the module of this declaration.
fn import_from(
    walk: &mut Walk,
    scope: usize,
    module: usize,
    names: &[Ident],
) -> Result<(), AllocError> {
    let exports = walk.program.declaration(module).and_then(|it| it.scope);
    if let Some(exports) = exports {
        for name in names {
            import_name(walk, scope, exports, name)?;
        }
    }
    Ok(())
}

fn import(walk: &mut Walk, scope: usize, of: &Import) -> Result<(), AllocError> {
    let names = of.names.as_slice();
    match &of.from {
        None => import_modules(walk, scope, names),
        Some(module) => match module_named(walk, module)? {
            Some(Standing::Declared(number)) => import_from(walk, scope, number, names),
            Some(Standing::BuiltIn) => import_built_in(walk, scope, names),
            None => Ok(()),
        },
    }
}

/// The names that a module imports, in this scope.
pub fn imports(walk: &mut Walk, scope: usize, all: &[Import]) -> Result<(), AllocError> {
    for of in all {
        import(walk, scope, of)?;
    }
    Ok(())
}
