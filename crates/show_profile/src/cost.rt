//! What runs cost, against the sizes of their inputs: a table with the power of the size that fits, and a plot.

use std::alloc::{AllocError, Global};
use std::fmt::Write;

/// A run: the bytes of its input, and the reductions that it took.
#[derive(Clone, Copy)]
pub struct Cost {
    pub size: u64,
    pub reductions: u64,
}

/// How many bits of a logarithm stand behind the point, and what 1 is.
const BITS: u32 = 16;

const ONE: i64 = 65536;

/// The place of the highest bit of a mantissa.
const TOP: u32 = 31;

/// The least and the greatest plotted place from left to right and from the top down.
const LEFT: i64 = 80;

const RIGHT: i64 = 620;

const UPPER: i64 = 20;

const LOWER: i64 = 380;

/// The logarithm of a number to the base 2, in parts of 65536. That of 0 is 0.
fn logarithm(number: u64) -> i64 {
    if number == 0 {
        return 0;
    }
    let whole = number.ilog2();
    let mut mantissa = if whole > TOP {
        number.wrapping_shr(whole.saturating_sub(TOP))
    } else {
        number.wrapping_shl(TOP.saturating_sub(whole))
    };
    let mut sum = i64::from(whole);
    for _ in 0..BITS {
        mantissa = mantissa.saturating_mul(mantissa).wrapping_shr(TOP);
        sum = sum.saturating_mul(2);
        if mantissa.wrapping_shr(TOP) > 1 {
            mantissa = mantissa.wrapping_shr(1);
            sum = sum.saturating_add(1);
        }
    }
    sum
}

/// A run by its logarithms.
#[derive(Clone, Copy)]
struct Point {
    x: i64,
    y: i64,
}

/// The runs whose inputs have bytes.
fn points_of(alloc: Global, costs: &[Cost]) -> Result<Vec<Point>, AllocError> {
    let mut points = Vec::new(alloc);
    for cost in costs {
        if cost.size > 0 {
            points.push(Point {
                x: logarithm(cost.size),
                y: logarithm(cost.reductions),
            })?;
        }
    }
    Ok(points)
}

/// The mean of the points.
fn mean(points: &[Point]) -> Point {
    let mut sum = Point { x: 0, y: 0 };
    for point in points {
        sum.x = sum.x.saturating_add(point.x);
        sum.y = sum.y.saturating_add(point.y);
    }
    let count = i64::try_from(points.len()).unwrap_or(i64::MAX).max(1);
    Point {
        x: sum.x / count,
        y: sum.y / count,
    }
}

/// The power of the size that fits best, in hundredths, by the least squares of the logarithms. Nothing if all sizes are the same.
fn exponent(points: &[Point]) -> Option<i64> {
    let middle = mean(points);
    let (mut products, mut squares): (i64, i64) = (0, 0);
    for point in points {
        let x = point.x.saturating_sub(middle.x);
        let y = point.y.saturating_sub(middle.y);
        products = products.saturating_add(x.saturating_mul(y));
        squares = squares.saturating_add(x.saturating_mul(x));
    }
    let hundredth = squares / 100;
    let half = hundredth / 2;
    products.saturating_add(half).checked_div(hundredth)
}

/// Writes the row of a run.
fn push_row(text: &mut String, cost: Cost) -> Result<(), AllocError> {
    let Cost { size, reductions } = cost;
    let tenths = reductions.saturating_mul(10).checked_div(size);
    match tenths {
        None => write!(text, "{size:>12} {reductions:>16}\n"),
        Some(tenths) => {
            let (whole, part) = (tenths / 10, tenths % 10);
            write!(text, "{size:>12} {reductions:>16} {whole:>12}.{part}\n")
        }
    }
}

/// The sizes of inputs and the reductions of their runs, and the power of the size with which they grow. The only error is that
/// memory ran out.
pub fn cost_table(alloc: Global, costs: &[Cost]) -> Result<String, AllocError> {
    let mut text = String::from_str(alloc, "       bytes       reductions       per byte\n")?;
    for cost in costs {
        push_row(&mut text, *cost)?;
    }
    match exponent(&points_of(alloc, costs)?) {
        None => text.push_str("a power of the size fits inputs of two sizes at least\n")?,
        Some(power) => {
            let sign = if power < 0 { "-" } else { "" };
            let power = power.unsigned_abs();
            let (whole, part) = (power / 100, power % 100);
            write!(
                text,
                "the reductions grow with the power {sign}{whole}.{part:02} of the size\n"
            )?;
        }
    }
    Ok(text)
}

/// The least and the greatest logarithms, whole, between which the points are plotted.
fn corners(points: &[Point]) -> (Point, Point) {
    let mut least = Point {
        x: i64::MAX,
        y: i64::MAX,
    };
    let mut most = Point { x: 0, y: 0 };
    for point in points {
        least.x = least.x.min(point.x);
        least.y = least.y.min(point.y);
        most.x = most.x.max(point.x);
        most.y = most.y.max(point.y);
    }
    let down = |number: i64| (number / ONE).saturating_mul(ONE);
    let up = |number: i64| (number / ONE).saturating_add(1).saturating_mul(ONE);
    (
        Point {
            x: down(least.x),
            y: down(least.y),
        },
        Point {
            x: up(most.x),
            y: up(most.y),
        },
    )
}

/// Where a logarithm between two others stands between two places.
fn placed(number: i64, least: i64, most: i64, from: i64, to: i64) -> i64 {
    let part = number
        .saturating_sub(least)
        .saturating_mul(to.saturating_sub(from));
    let whole = most.saturating_sub(least);
    from.saturating_add(part.checked_div(whole).unwrap_or(0))
}

/// Writes the point of a run, with its numbers where the pointer rests.
fn push_point(page: &mut String, cost: Cost, least: Point, most: Point) -> Result<(), AllocError> {
    let Cost { size, reductions } = cost;
    let x = placed(logarithm(size), least.x, most.x, LEFT, RIGHT);
    let y = placed(logarithm(reductions), least.y, most.y, LOWER, UPPER);
    write!(
        page,
        "<circle cx=\"{x}\" cy=\"{y}\" r=\"4\" fill=\"#f27059\"><title>{size} bytes: {reductions} reductions</title></circle>\n"
    )
}

/// The power of 2 with a logarithm.
fn power_of_two(number: i64) -> u64 {
    let whole = u32::try_from(number / ONE).unwrap_or(0);
    1_u64.checked_shl(whole).unwrap_or(u64::MAX)
}

/// Writes the words at the ends of the axes.
fn push_axes(page: &mut String, least: Point, most: Point) -> Result<(), AllocError> {
    write!(
        page,
        "<path d=\"M{LEFT} {UPPER}V{LOWER}H{RIGHT}\" fill=\"none\" stroke=\"#333\"/>\n"
    )?;
    let (size, more) = (power_of_two(least.x), power_of_two(most.x));
    write!(page, "<text x=\"{LEFT}\" y=\"396\">{size}</text>\n")?;
    write!(
        page,
        "<text x=\"{RIGHT}\" y=\"396\" text-anchor=\"end\">{more} bytes</text>\n"
    )?;
    let (few, many) = (power_of_two(least.y), power_of_two(most.y));
    write!(
        page,
        "<text x=\"76\" y=\"{LOWER}\" text-anchor=\"end\">{few}</text>\n"
    )?;
    write!(
        page,
        "<text x=\"76\" y=\"30\" text-anchor=\"end\">{many}</text>\n"
    )
}

/// A plot (SVG) of the reductions against the sizes of inputs, both by their logarithms. The only error is that memory ran out.
pub fn cost_plot(alloc: Global, costs: &[Cost]) -> Result<String, AllocError> {
    let (least, most) = corners(&points_of(alloc, costs)?);
    let mut page = String::from_str(
        alloc,
        "<svg xmlns=\"http://www.w3.org/2000/svg\" width=\"640\" height=\"400\" viewBox=\"0 0 640 400\" font-family=\"monospace\" font-size=\"11\">\n<title>reductions against the bytes of the input, both by their logarithms</title>\n",
    )?;
    push_axes(&mut page, least, most)?;
    for cost in costs.iter().filter(|it| it.size > 0) {
        push_point(&mut page, *cost, least, most)?;
    }
    page.push_str("</svg>\n")?;
    Ok(page)
}
