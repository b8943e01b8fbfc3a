// What a report may ask of its groups at least. No function has a precondition: the ranges are tested where a call judges.

#![tactic(auto)]

ghost use Rattle.std.specs.Prelude.{◌≡◌};
ghost use Rattle.sets.specs.Sets.{size};
ghost use Rattle.sets.specs.Members.{members};
ghost use Rattle.thresholds.specs.Ranges.{in_range, are_enough};

use records::{MAX_BADGES, MAX_TICKS};
use sets::BadgeSet;

// The least length of a group's span in ticks, its least order and its least number of members.
#[derive(Clone, Copy)]
pub struct Thresholds {
    pub ticks: usize,
    pub order: usize,
    pub members: usize,
}

impl Thresholds {
    // Those of the plain report, which keeps every group.
    pub const PLAIN: Thresholds = Thresholds {
        ticks: 1,
        order: 1,
        members: 2,
    };

    // Whether each of the three is within its range.
    pub fn in_range(self) -> bool
        ensures { result ≡ in_range self }
    {
        (1..=MAX_TICKS).contains(&self.ticks)
            && (1..MAX_BADGES).contains(&self.order)
            && (2..=MAX_BADGES).contains(&self.members)
    }

    // Whether so many ticks, an order and these members are enough.
    pub fn met_by(self, ticks: usize, order: usize, set: BadgeSet) -> bool
        ensures { result ≡ are_enough self ticks order (size (members set)) }
    {
        self.ticks <= ticks && self.order <= order && self.members <= set.size()
    }
}
