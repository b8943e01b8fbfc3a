// Sets of badges as words: a set has badge v where bit v is set. A type of their own would be no plainer: the words of a day are such sets.
use crate::limits::MAX_BADGES;

// Whether a set has badge v.
pub(crate) fn has(set: u64, v: usize) -> bool {
    v < MAX_BADGES && (set >> v) & 1 == 1
}

// A set with badge v.
pub(crate) fn with(set: u64, v: usize) -> u64 {
    if v < MAX_BADGES { set | (1 << v) } else { set }
}

// A set without badge v.
pub(crate) fn without(set: u64, v: usize) -> u64 {
    set & !with(0, v)
}

// How many badges a set has.
pub(crate) fn size(set: u64) -> usize {
    set.count_ones() as usize
}

// The set of all n badges.
pub(crate) fn all(n: usize) -> u64 {
    (0..n).fold(0, with)
}
