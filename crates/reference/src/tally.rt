// Counting cases, and printing the counts of a family.
ghost use Rattle.std.specs.Prelude.{◌≡◌, OnOk, OnErr};
ghost use Rattle.reference.specs.Tallies.{sum, misses};

use std::{fmt, io};

// How many cases were run, and how many of them came out wrong.
#[derive(Clone, Copy, Default)]
pub struct Tally {
    pub run: u64,
    pub wrong: u64,
}

impl Tally {
    // Counts one case more.
    pub fn add_case(&mut self, right: bool)
        ensures run { self.new.run ≡ sum self.old.run 1 }
        ensures wrong { self.new.wrong ≡ sum self.old.wrong (misses right) }
    {
        self.add(Tally {
            run: 1,
            wrong: u64::from(!right),
        });
    }

    // Adds the cases of another. No count comes near 2^64, where the sums would wrap.
    pub fn add(&mut self, other: Tally)
        ensures run { self.new.run ≡ sum self.old.run other.run }
        ensures wrong { self.new.wrong ≡ sum self.old.wrong other.wrong }
    {
        self.run = self.run.wrapping_add(other.run);
        self.wrong = self.wrong.wrapping_add(other.wrong);
    }

    // Prints the line of a family, and adds its counts to those of the families before it.
    pub fn print(&mut self, rt: &impl Print, name: &[u8], family: Tally) -> io::Result<()>
        ensures run { OnOk result (self.new.run ≡ sum self.old.run family.run) }
        ensures wrong { OnOk result (self.new.wrong ≡ sum self.old.wrong family.wrong) }
        ensures err { OnErr result (self.new ≡ self.old) }
    {
        rt.write_all(name)?;
        println!(rt; ": {family}")?;
        self.add(family);
        Ok(())
    }
}

impl fmt::Display for Tally {
    fn fmt<W: fmt::Write>(&self, f: &mut fmt::Formatter<W>) -> fmt::Result {
        write!(f, "{} cases, {} wrong", self.run, self.wrong)
    }
}
