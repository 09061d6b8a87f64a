//! Where the bytes of a text stand in another one that was made of it.

ghost use Rattle.std.specs.Prelude.{◌≤◌, length};

/// What two texts have in common: the bytes in front, and those at the end.
#[derive(Clone, Copy, Debug, PartialEq, Eq)]
pub struct Shift {
    /// How many bytes in front are the same.
    pub front: usize,
    /// Where the bytes begin that are the same up to the end, in either text.
    pub old_end: usize,
    pub new_end: usize,
}

/// How many bytes in front are the same in both.
fn common_front(one: &[u8], other: &[u8]) -> usize
    ensures one { result ≤ length one.now }
    ensures other { result ≤ length other.now }
{
    one.iter()
        .zip(other.iter())
        .take_while(|pair| *pair.0 == *pair.1)
        .count()
}

/// How many bytes at the end are the same in both.
fn common_end(one: &[u8], other: &[u8]) -> usize {
    one.iter()
        .rev()
        .zip(other.iter().rev())
        .take_while(|pair| *pair.0 == *pair.1)
        .count()
}

impl Shift {
    /// What two texts have in common.
    pub fn between(old: &[u8], new: &[u8]) -> Shift
        ensures old_order { result.front ≤ result.old_end }
        ensures old_inside { result.old_end ≤ length old.now }
        ensures new_order { result.front ≤ result.new_end }
        ensures new_inside { result.new_end ≤ length new.now }
    {
        let front = common_front(old, new);
        let most = old.len().min(new.len()).saturating_sub(front);
        let behind = common_end(old, new).min(most);
        Shift {
            front,
            old_end: old.len().saturating_sub(behind),
            new_end: new.len().saturating_sub(behind),
        }
    }

    /// The place in the old text of a place in the new one. Of one between what both have, the nearest.
    pub fn to_old(&self, place: usize) -> usize {
        if place <= self.front {
            return place;
        }
        match place.checked_sub(self.new_end) {
            Some(behind) => self.old_end.saturating_add(behind),
            None => place.min(self.old_end),
        }
    }

    /// Where so many bytes of the old text begin in the new one, or nothing if one of them changed. If it is asked of no bytes, a
    /// place in front of what changed stays there.
    pub fn to_new(&self, begin: usize, length: usize) -> Option<usize> {
        if begin.saturating_add(length) <= self.front {
            return Some(begin);
        }
        let behind = begin.checked_sub(self.old_end)?;
        Some(self.new_end.saturating_add(behind))
    }
}
