// The test program: document 01's cases that are not proved, document 02's limit of the listing, and random logs and days, against a slow second
// implementation.
// Each family of cases prints one line: how many cases were run, and how many of them came out wrong.

#![tactic(auto)]

mod answers;
mod cases;
mod limits;
mod listings;
mod long_logs;
mod random_cases;

use random_cases::{cases_of, on_day};
use reference::{Random, Size, Tally};
use std::io;

// Small random days, and small random logs, of which some are damaged.
const SMALL_DAYS: Size = Size {
    badges: 8,
    ticks: 6,
    contacts: 60,
    damage: false,
};

const SMALL_LOGS: Size = Size {
    damage: true,
    ..SMALL_DAYS
};

// Days of up to full size with few contacts.
const LARGE: Size = Size {
    badges: 64,
    ticks: 96,
    contacts: 600,
    damage: false,
};

// Days of numbers with two digits.
const MIDDLE: Size = Size {
    badges: 24,
    ticks: 16,
    contacts: 100,
    damage: false,
};

// As many badges, and ticks of which every cutting is tried.
const SHORT: Size = Size {
    badges: 24,
    ticks: 7,
    contacts: 200,
    damage: false,
};

// Where lines go, and the cases of all families so far.
#[derive(Drop)]
struct Lines<'a, P: Print> {
    rt: &'a P,
    all: Tally,
}

impl<'a, P: Print> Lines<'a, P> {
    // Prints the line of a family.
    fn print(&mut self, name: &str, family: Tally) -> io::Result<()> {
        self.all.print(self.rt, name.as_bytes(), family)
    }

    // Runs small random cases of a family, and some larger ones, and prints its line.
    fn run<F: Fn(&[u8], Random) -> bool>(
        &mut self,
        name: &str,
        case: F,
        small: Size,
        larger: Size,
    ) -> io::Result<()>
        requires { F.IsAlwaysCallable case }
    {
        let mut family = cases_of(&case, 500, small);
        family.add(cases_of(&case, 25, larger));
        self.print(name, family)
    }

    fn named(&mut self) -> io::Result<()> {
        self.print("64 badges all in contact: order 63", limits::order_63())?;
        self.print("128 badges all in contact: order 127", limits::order_127())?;
        self.print("T 96 with 128 badges", limits::largest_day())?;
        self.print("n 129 or T 97: 3", limits::header())?;
        self.print("8000 contacts pass", limits::contacts())?;
        self.print("65536 bytes are listed", listings::edge())
    }

    fn random_logs(&mut self) -> io::Result<()> {
        self.run(
            "read: random logs",
            |log, _| cases::reads(log),
            SMALL_LOGS,
            LARGE,
        )?;
        self.run(
            "tidy: random logs",
            |log, _| cases::tidies(log),
            SMALL_LOGS,
            LARGE,
        )?;
        self.run(
            "listing: random logs",
            |log, _| cases::lists(log),
            SMALL_LOGS,
            MIDDLE,
        )
    }

    fn random_days(&mut self) -> io::Result<()> {
        self.run(
            "write: random days",
            |log, random| on_day(log, random, |day, _| cases::writes(day)),
            SMALL_DAYS,
            LARGE,
        )?;
        self.run(
            "core numbers: random days",
            |log, random| on_day(log, random, random_cases::numbers),
            SMALL_DAYS,
            LARGE,
        )?;
        self.run(
            "report: random days",
            |log, random| on_day(log, random, |day, _| cases::reports(day)),
            SMALL_DAYS,
            MIDDLE,
        )?;
        self.run(
            "plan: random days",
            |log, random| on_day(log, random, random_cases::plans),
            SMALL_DAYS,
            SHORT,
        )
    }
}

fn main(rt: HostRuntime) -> io::Result<()> {
    let mut lines = Lines {
        rt: &rt,
        all: Tally::default(),
    };
    lines.named()?;
    lines.random_logs()?;
    lines.random_days()?;
    let all = lines.all;
    lines.print("all", all)
}
