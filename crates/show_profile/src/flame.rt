//! A flame graph: a picture of the calls of a run.

use crate::callgrind::sum_of;
use explain_runs::{Counted, Path};
use std::alloc::{AllocError, Global};
use std::fmt::Write;

/// The width of the picture.
const WIDTH: u64 = 1200;

/// The height of a row, and how far the words of a box stand below its top.
const ROW: usize = 18;

const BASE: usize = 13;

/// About how wide a letter is.
const LETTER: u64 = 7;

/// Boxes are placed by tenths.
const PARTS: u64 = 10;

/// The colours of the boxes, by the numbers of their functions.
const COLOURS: [&str; 6] = [
    "#f4a259", "#f7b267", "#f79d65", "#f4845f", "#f27059", "#f7c59f",
];

/// A box of the picture.
#[derive(Clone, Copy)]
struct Block {
    path: Path,
    /// How many boxes stand below it.
    depth: usize,
    /// All reductions of its function and of what it called, and those of the run that stand on its left.
    all: u64,
    left: u64,
    /// How much of it is taken by the boxes on it so far.
    taken: u64,
}

/// The boxes of the ways of a run, without their places. Callers stand in front of what they called.
fn blocks_of(alloc: Global, paths: &[Path]) -> Result<Vec<Block>, AllocError> {
    let mut blocks = Vec::new(alloc);
    for path in paths {
        blocks.push(Block {
            path: *path,
            depth: 0,
            all: path.tally.reductions,
            left: 0,
            taken: 0,
        })?;
    }
    Ok(blocks)
}

/// Adds to each box what the boxes on it have.
fn add_called(blocks: &mut [Block]) {
    for number in (0..blocks.len()).rev() {
        let Some(block) = blocks.get(number).map(|it| *it) else {
            return;
        };
        if let Some(caller) = block.path.caller.and_then(|it| blocks.get_mut(it)) {
            caller.all = caller.all.saturating_add(block.all);
        }
    }
}

/// Puts each box on that of its caller, behind those that stand there, and the others side by side.
fn place_blocks(blocks: &mut [Block]) {
    let mut taken: u64 = 0;
    for number in 0..blocks.len() {
        let Some(block) = blocks.get(number).map(|it| *it) else {
            return;
        };
        let (left, depth) = match block.path.caller.and_then(|it| blocks.get_mut(it)) {
            Some(caller) => {
                let left = caller.left.saturating_add(caller.taken);
                caller.taken = caller.taken.saturating_add(block.all);
                (left, caller.depth.saturating_add(1))
            }
            None => {
                let left = taken;
                taken = taken.saturating_add(block.all);
                (left, 0)
            }
        };
        if let Some(block) = blocks.get_mut(number) {
            block.left = left;
            block.depth = depth;
        }
    }
}

/// A part of a sum as a part of the picture's width, in tenths.
fn scaled(part: u64, sum: u64) -> u64 {
    part.saturating_mul(WIDTH.saturating_mul(PARTS))
        .checked_div(sum)
        .unwrap_or(0)
}

/// As many bytes of a name as have room.
fn shown_name(name: &str, width: u64) -> &str {
    let most = (width / PARTS / LETTER) as usize;
    if name.len() <= most { name } else { "" }
}

/// Writes a box, if it is wide enough to be seen.
fn push_block(
    page: &mut String,
    name: &str,
    block: &Block,
    sum: u64,
    height: usize,
) -> Result<(), AllocError> {
    let width = scaled(block.all, sum);
    if width == 0 {
        return Ok(());
    }
    let left = scaled(block.left, sum);
    let rows = block.depth.saturating_add(1);
    let top = height.saturating_sub(rows.saturating_mul(ROW));
    let colour = COLOURS
        .get(block.path.function as usize % COLOURS.len())
        .map_or("", |it| *it);
    let (all, times, own) = (
        block.all,
        block.path.tally.times,
        block.path.tally.reductions,
    );
    let (x, part) = (left / PARTS, left % PARTS);
    let (wide, rest) = (width / PARTS, width % PARTS);
    write!(
        page,
        "<g><title>{name}: {all} reductions, {own} of its own, {times} calls</title>"
    )?;
    write!(
        page,
        "<rect x=\"{x}.{part}\" y=\"{top}\" width=\"{wide}.{rest}\" height=\"17\" fill=\"{colour}\"/>"
    )?;
    let (text, base) = (shown_name(name, width), top.saturating_add(BASE));
    write!(
        page,
        "<text x=\"{x}.{part}\" dx=\"3\" y=\"{base}\">{text}</text></g>\n"
    )
}

/// How many rows the boxes have.
fn rows_of(blocks: &[Block]) -> usize {
    let mut rows: usize = 0;
    for block in blocks {
        rows = rows.max(block.depth.saturating_add(1));
    }
    rows
}

/// A picture (SVG) of the calls of a run: each function stands on its caller, and is as wide as the reductions that it took with all
/// that it called. A name is shown if it has room, and with its numbers where the pointer rests.
pub fn flame_graph(alloc: Global, counted: &Counted) -> Result<String, AllocError> {
    let mut blocks = blocks_of(alloc, &counted.paths)?;
    add_called(&mut blocks);
    place_blocks(&mut blocks);
    let sum = sum_of(counted);
    let height = rows_of(&blocks).saturating_mul(ROW);
    let mut page = String::new(alloc);
    write!(
        page,
        "<svg xmlns=\"http://www.w3.org/2000/svg\" width=\"{WIDTH}\" height=\"{height}\" viewBox=\"0 0 {WIDTH} {height}\" "
    )?;
    page.push_str("font-family=\"monospace\" font-size=\"11\">\n")?;
    write!(page, "<title>{sum} reductions</title>\n")?;
    for block in &blocks {
        let function = counted.functions.get(block.path.function as usize);
        let name = function.map_or("", |it| it.name.as_str());
        push_block(&mut page, name, block, sum, height)?;
    }
    page.push_str("</svg>\n")?;
    Ok(page)
}
