// Why a call refuses, in the papers' terms: its number, and the byte offset that goes with it.
pub trait Reason {
    ghost number: { Self → ℕ };

    ghost offset: { Self → ℕ };

    fn number(self) -> u8
        ensures { result ≡ number self };

    fn offset(self) -> usize
        ensures { result ≡ offset self };
}

// Why a call of the log part refuses: one case for each number of document 01 that it can give.
ghost use Rattle.std.specs.Prelude.{◌≡◌, ℕ};
ghost use Rattle.records.specs.Outcomes.{number_of, offset_of};

#[derive(Clone, Copy, Debug, PartialEq, Eq)]
pub enum Refusal {
    // 1: the bytes end inside a record, or where one must start.
    CutShort { at: usize },
    // 2: the mark is not BH for the first record, or not CT or ED later.
    WrongMark { at: usize },
    // 3: n or T of the header outside its limits.
    HeaderOutOfLimits { at: usize },
    // 4: equal badges, a badge of n or more, first after last, or last of T or more.
    InvalidContact { at: usize },
    // 5: CT number 8,001.
    TooManyContacts { at: usize },
    // 6: the ED count differs.
    WrongCount { at: usize },
    // 7: bytes follow ED.
    TrailingBytes { at: usize },
    // 8: fewer than 2×n×T words lent.
    TooFewWords,
    // 9: the result buffer is shorter than the exact answer.
    BufferTooShort,
    // 10: n or T, handed to a call on words, outside its limits.
    SizeOutOfLimits,
    // 11: the words are not a day.
    NotADay,
    // 15: write would need more than 8,000 CT.
    TooManyToWrite,
}

impl Reason for Refusal {
    ghost number = { number_of };

    ghost offset = { offset_of };

    fn number(self) -> u8 {
        match self {
            Refusal::CutShort { .. } => 1,
            Refusal::WrongMark { .. } => 2,
            Refusal::HeaderOutOfLimits { .. } => 3,
            Refusal::InvalidContact { .. } => 4,
            Refusal::TooManyContacts { .. } => 5,
            Refusal::WrongCount { .. } => 6,
            Refusal::TrailingBytes { .. } => 7,
            Refusal::TooFewWords => 8,
            Refusal::BufferTooShort => 9,
            Refusal::SizeOutOfLimits => 10,
            Refusal::NotADay => 11,
            Refusal::TooManyToWrite => 15,
        }
    }

    fn offset(self) -> usize {
        match self {
            Refusal::CutShort { at } => at,
            Refusal::WrongMark { at } => at,
            Refusal::HeaderOutOfLimits { at } => at,
            Refusal::InvalidContact { at } => at,
            Refusal::TooManyContacts { at } => at,
            Refusal::WrongCount { at } => at,
            Refusal::TrailingBytes { at } => at,
            Refusal::TooFewWords => 0,
            Refusal::BufferTooShort => 0,
            Refusal::SizeOutOfLimits => 0,
            Refusal::NotADay => 0,
            Refusal::TooManyToWrite => 0,
        }
    }
}
