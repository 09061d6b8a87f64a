//! Modules that are executed in memory.

use crate::Screen;
use run_directory::{InDir, execute};
use std::alloc::Global;

/// Link and a module M.
#[derive(Drop)]
struct TwoModules<'a> {
    link: &'a [u8],
    body: &'a [u8],
}

impl InDir for TwoModules<'_> {
    ghost gives = { λ _ _ _. Unit {0} };

    fn read(&mut self, alloc: Global, name: &str) -> Option<Vec<u8>> {
        let bytes = match name {
            "link.wasm" => self.link,
            "M.wasm" => self.body,
            _ => return None,
        };
        Vec::from_slice(alloc, bytes).ok()
    }

    fn front(&self) -> &str {
        ""
    }

    fn reason(&self) -> &str {
        ""
    }
}

/// Executes link and a module M for at most `steps` reductions. The status.
pub fn execute_two(alloc: Global, link: &[u8], body: &[u8], steps: u64) -> u8 {
    let mut out = Screen::new(alloc);
    let mut err = Screen::new(alloc);
    let mut dir = TwoModules { link, body };
    execute(alloc, &mut dir, steps, &mut out, &mut err)
}
