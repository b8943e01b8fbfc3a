// The maximal cores that are kept while a report is made.
ghost use Rattle.std.specs.Prelude.{◌*◌, ◌≤◌};
ghost use Rattle.spans.specs.Encoding.{max_cores};

use records::MAX_TICKS;
use sets::BadgeSet;

// A day has no more maximal cores than spans.
pub(crate) const MAX_CORES: usize = MAX_TICKS * (MAX_TICKS + 1) / 2;

// A core: its order, its span and its members, and how many circles it has.
#[derive(Clone, Copy)]
pub(crate) struct Kept {
    pub(crate) order: u8,
    pub(crate) first: u8,
    pub(crate) last: u8,
    pub(crate) circles: u8,
    pub(crate) members: BadgeSet,
}

// What is kept of a core: its members are the bytes of two words, since words would stand at a multiple of eight bytes, and four bytes more at each of all
// these places would be lost; they are cleared in each report, and lie on the stack of whoever calls.
#[derive(Clone, Copy)]
pub(crate) struct Stored {
    order: u8,
    first: u8,
    last: u8,
    circles: u8,
    lower: [u8; 8],
    upper: [u8; 8],
}

impl Stored {
    ghost use Rattle.std.specs.Prelude.{◌≡◌};
    ghost use Rattle.groups.specs.Keeping.{kept_core, said};

    fn of(core: Kept) -> Stored
        ensures { said result ≡ (kept_core core, core.circles) }
    {
        Stored {
            order: core.order,
            first: core.first,
            last: core.last,
            circles: core.circles,
            lower: core.members.low.to_le_bytes(),
            upper: core.members.high.to_le_bytes(),
        }
    }

    // The core that is said.
    pub(crate) fn core(self) -> Kept
        ensures { said self ≡ (kept_core result, result.circles) }
    {
        let low = u64::from_le_bytes(self.lower);
        let high = u64::from_le_bytes(self.upper);
        Kept {
            order: self.order,
            first: self.first,
            last: self.last,
            circles: self.circles,
            members: BadgeSet::from_words(low, high),
        }
    }
}

// The cores that are kept: so many, which make so many records.
#[derive(Drop)]
pub(crate) struct Cores {
    kept: [Stored; MAX_CORES],
    count: usize,
    records: usize,
    ghost few: { count ≤ max_cores },
    ghost records_few: { records ≤ 255 * count },
}

impl Cores {
    ghost use Rattle.std.specs.Prelude.{◌≡◌, ◌∷◌, [], ◌<◌, take};
    ghost use Rattle.groups.specs.Keeping.{kept_core, KeepsCores};

    // No core is kept at first. What stands at the places does not matter: the compiler clears an array before it is filled, so zeros cost nothing more.
    pub(crate) fn new() -> Self
        ensures { result.count ≡ 0 }
    {
        let none = Stored {
            order: 0,
            first: 0,
            last: 0,
            circles: 0,
            lower: [0; 8],
            upper: [0; 8],
        };
        Cores {
            kept: [none; MAX_CORES],
            count: 0,
            records: 0,
        }
    }

    // The cores, in the order in which they were kept.
    pub(crate) fn all(&self) -> &[Stored]
        ensures { result.now ≡ take self.now.count self.now.kept }
    {
        &self.kept[..self.count]
    }

    // How many records they make.
    pub(crate) fn records(&self) -> usize
        ensures { result ≡ self.now.records }
    {
        self.records
    }

    // Keeps one more core, which makes so many records.
    pub(crate) fn keep(&mut self, core: Kept, large: u8)
        requires { self.old.count < max_cores }
        ensures { KeepsCores (λ c. core.circles) (λ c. large) (kept_core core ∷ []) self.old self.new }
    {
        self.kept[self.count] = Stored::of(core);
        self.count += 1;
        self.records += usize::from(large);
    }
}
