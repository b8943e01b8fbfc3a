// The limits of a day and of a log, each named once. This implementation knows wards of up to 64 badges.
pub(crate) const MAX_BADGES: usize = 64;

pub(crate) const MAX_TICKS: usize = 96;

pub(crate) const MAX_CONTACTS: usize = 8000;

// How many words the largest day has: two for each badge and tick.
pub const MAX_WORDS: usize = 2 * MAX_BADGES * MAX_TICKS;
