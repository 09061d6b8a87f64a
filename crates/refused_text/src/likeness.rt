//! How alike two words are.

use std::alloc::Global;

/// The most letters in which words differ that are taken for each other.
pub const MOST_UNLIKE: usize = 3;

/// In so many letters one may be wrong.
const LETTERS_A_SLIP: usize = 3;

/// How many bytes two texts have in common in front.
fn common_front(one: &[u8], other: &[u8]) -> usize {
    one.iter()
        .zip(other.iter())
        .take_while(|it| it.0 == it.1)
        .count()
}

/// How many bytes two texts have in common at the back.
fn common_back(one: &[u8], other: &[u8]) -> usize {
    one.iter()
        .rev()
        .zip(other.iter().rev())
        .take_while(|it| it.0 == it.1)
        .count()
}

/// How many letters of a text stand between those that it has in common with another.
fn inner(text: &[u8], front: usize, back: usize) -> &[u8] {
    let behind = text.len().saturating_sub(back).max(front);
    text_tokens::part(text, front, behind)
}

/// In how many letters two words differ: 0 if they are the same but for capital letters, 1 also if two letters beside each other
/// are the wrong way round.
pub fn unlikeness(one: &[u8], other: &[u8]) -> usize {
    if one.eq_ignore_ascii_case(other) {
        return 0;
    }
    let front = common_front(one, other);
    let left = one.len().min(other.len()).saturating_sub(front);
    let back = common_back(one, other).min(left);
    match (inner(one, front, back), inner(other, front, back)) {
        ([a, b], [c, d]) if a == d && b == c => 1,
        (here, there) => here.len().max(there.len()),
    }
}

/// Whether two words are alike enough to be taken for each other.
pub fn are_alike(one: &[u8], other: &[u8]) -> bool {
    let unlike = unlikeness(one, other);
    let (shorter, longer) = (one.len().min(other.len()), one.len().max(other.len()));
    unlike <= MOST_UNLIKE && (unlike <= longer / LETTERS_A_SLIP || unlike == 1 && shorter > 1)
        || unlike == 0 && shorter > 0
}

/// A word in capital letters.
pub fn capitals(alloc: Global, word: &[u8]) -> Result<Vec<u8>, std::alloc::AllocError> {
    let mut all = Vec::new(alloc);
    for byte in word {
        all.push(byte.to_ascii_uppercase())?;
    }
    Ok(all)
}
