//! The files of a class: paths in which a star stands for any letters of a name.

use anyhow::{Context, Result};
use std::alloc::{AllocError, Global};
use std::fs;
use std::rt::Files;

/// What stands for any letters of a name.
const STAR: char = '*';

/// Whether a name has the parts of a pattern in order, the last one at its end. The pattern stands behind a star.
fn has_parts(pattern: &str, name: &str) -> bool {
    let mut parts = pattern;
    let mut rest = name;
    for _ in 0..pattern.len() {
        let Some((part, more)) = parts.split_once(STAR) else {
            break;
        };
        let Some((_, behind)) = rest.split_once(part) else {
            return false;
        };
        parts = more;
        rest = behind;
    }
    rest.ends_with(parts)
}

/// Whether a name is of a pattern, in which each star stands for any letters.
fn is_of(pattern: &str, name: &str) -> bool {
    match pattern.split_once(STAR) {
        None => pattern == name,
        Some((front, more)) => match name.strip_prefix(front) {
            None => false,
            Some(rest) => has_parts(more, rest),
        },
    }
}

/// A path behind a front, which is empty or ends with a slash.
fn path_behind(alloc: Global, front: &str, name: &str, end: &str) -> Result<String, AllocError> {
    format!(in alloc; "{front}{name}{end}")
}

/// Adds the paths of a folder whose names are of a pattern, in order.
fn add_matching<R: Files + AllocGlobal + Clone + Drop>(
    rt: &R,
    front: &str,
    pattern: &str,
    end: &str,
    paths: &mut Vec<String>,
) -> Result<()> {
    let folder = if front.is_empty() { "." } else { front };
    let Ok(entries) = fs::read_dir(rt, folder) else {
        return Ok(());
    };
    for entry in entries {
        let entry = entry.context(format_args!("cannot read {folder}"))?;
        let name = entry.file_name();
        if is_of(pattern, name) {
            paths.push(path_behind(rt.alloc(), front, name, end)?)?;
        }
    }
    Ok(())
}

/// The paths behind these fronts, with one name more.
fn longer<R: Files + AllocGlobal + Clone + Drop>(
    rt: &R,
    fronts: &[String],
    pattern: &str,
    end: &str,
) -> Result<Vec<String>> {
    let mut paths = Vec::new(rt.alloc());
    for front in fronts {
        if pattern.contains(STAR) {
            add_matching(rt, front.as_str(), pattern, end, &mut paths)?;
        } else {
            paths.push(path_behind(rt.alloc(), front.as_str(), pattern, end)?)?;
        }
    }
    Ok(paths)
}

/// The paths that a pattern stands for, in order. A star does not stand for a slash.
pub fn paths_of<R: Files + AllocGlobal + Clone + Drop>(
    rt: &R,
    pattern: &str,
) -> Result<Vec<String>> {
    let mut paths = Vec::new(rt.alloc());
    paths.push(String::new(rt.alloc()))?;
    let mut rest = pattern;
    for _ in 0..pattern.len() {
        match rest.split_once('/') {
            None => break,
            Some((name, more)) => {
                paths = longer(rt, &paths, name, "/")?;
                rest = more;
            }
        }
    }
    let mut paths = longer(rt, &paths, rest, "")?;
    paths.sort_unstable();
    Ok(paths)
}
