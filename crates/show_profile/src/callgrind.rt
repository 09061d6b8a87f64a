//! What ran, in the format of callgrind.

use build_jobs::SourceFile;
use explain_runs::{Activation, CallCount, Counted, FunctionCount, Spot, Tally};
use std::alloc::{AllocError, Global};
use std::fmt::Write;

/// What stands in front of the functions.
const HEAD: &str =
    "# callgrind format\nversion: 1\ncreator: m2\npositions: line\nevents: Reductions\n";

/// What is written of a function: its places, and its calls.
#[derive(Drop)]
struct Part<'a> {
    spots: Vec<&'a Spot>,
    calls: Vec<&'a CallCount>,
}

/// What is written, and of what.
#[derive(Drop)]
struct Writing<'a> {
    files: &'a [SourceFile],
    functions: &'a [FunctionCount],
    page: String,
}

fn name_of<'a>(files: &'a [SourceFile], number: usize) -> &'a str {
    files.get(number).map_or("", |file| file.name.as_str())
}

/// The line at which a function calls: that of the last place that it came to, or of its name.
fn line_of(of: &FunctionCount, spots: &[&Spot], place: Activation) -> u32 {
    match place.mark.and_then(|mark| spots.get(mark)) {
        Some(spot) => spot.line,
        None => of.line,
    }
}

impl Writing<'_> {
    /// Writes a function's own reductions, line by line.
    fn push_spots(&mut self, of: &FunctionCount, spots: &[&Spot]) -> Result<(), AllocError> {
        let (line, reductions) = (of.line, of.begin.reductions);
        write!(self.page, "{line} {reductions}\n")?;
        for spot in spots {
            let (line, reductions) = (spot.line, spot.tally.reductions);
            write!(self.page, "{line} {reductions}\n")?;
        }
        Ok(())
    }

    /// Writes the calls of a function at one place of this line.
    fn push_call(&mut self, line: u32, call: &CallCount) -> Result<(), AllocError> {
        let Some(of) = self.functions.get(call.function as usize) else {
            return Ok(());
        };
        let Tally { times, reductions } = call.tally;
        let (file, name, to) = (name_of(self.files, of.file), &of.name, of.line);
        write!(self.page, "cfi={file}\ncfn={name}\ncalls={times} {to}\n")?;
        write!(self.page, "{line} {reductions}\n")
    }

    /// Writes a function, if it ran.
    fn push_function(&mut self, of: &FunctionCount, part: &Part<'_>) -> Result<(), AllocError> {
        if of.begin.times == 0 {
            return Ok(());
        }
        let (file, name) = (name_of(self.files, of.file), &of.name);
        write!(self.page, "\nfl={file}\nfn={name}\n")?;
        self.push_spots(of, &part.spots)?;
        for call in &part.calls {
            self.push_call(line_of(of, &part.spots, call.place), call)?;
        }
        Ok(())
    }
}

/// The places and the calls of each function.
fn parts_of<'a>(alloc: Global, counted: &'a Counted) -> Result<Vec<Part<'a>>, AllocError> {
    let mut all: Vec<Part<'a>> = Vec::new(alloc);
    for _ in &counted.functions {
        all.push(Part {
            spots: Vec::new(alloc),
            calls: Vec::new(alloc),
        })?;
    }
    for spot in &counted.spots {
        if let Some(part) = all.get_mut(spot.function) {
            part.spots.push(spot)?;
        }
    }
    for call in &counted.calls {
        if let Some(part) = all.get_mut(call.place.function as usize) {
            part.calls.push(call)?;
        }
    }
    Ok(all)
}

/// All reductions of the run.
pub fn sum_of(counted: &Counted) -> u64 {
    let mut sum: u64 = 0;
    for path in &counted.paths {
        sum = sum.saturating_add(path.tally.reductions);
    }
    sum
}

/// The functions that ran, with their own reductions by lines, and their calls.
pub fn callgrind_profile(
    alloc: Global,
    files: &[SourceFile],
    counted: &Counted,
) -> Result<String, AllocError> {
    let parts = parts_of(alloc, counted)?;
    let mut page = String::from_str(alloc, HEAD)?;
    let sum = sum_of(counted);
    write!(page, "summary: {sum}\n")?;
    let mut writing = Writing {
        files,
        functions: &counted.functions,
        page,
    };
    for (of, part) in counted.functions.iter().zip(&parts) {
        writing.push_function(of, part)?;
    }
    let Writing { page, .. } = writing;
    Ok(page)
}
