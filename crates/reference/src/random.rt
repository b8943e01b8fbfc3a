// A fixed sequence of random numbers: Marsaglia's xorshift of 64 bits, with the shifts 13, 7 and 17.
ghost use Rattle.std.specs.Prelude.{◌≡◌, ◌+◌, ◌-◌, ◌≤◌};
ghost use Rattle.reference.specs.Random.{xorshift, below};

use crate::day::Span;

// Where each family that draws begins.
pub const SEED: u64 = 0x2545_f491_4f6c_dd1d;

// The next number of the sequence.
#[tactic(auto, unfolding(crate::specs::Random::xorshift, crate::specs::Random::mix_up, crate::specs::Random::mix_down))]
fn next(x: u64) -> u64
    ensures { result ≡ xorshift x }
{
    let a = x ^ (x << 13);
    let b = a ^ (a >> 7);
    b ^ (b << 17)
}

// A place in the sequence: the number that was drawn last. A copy draws the same numbers again.
#[derive(Clone, Copy)]
pub struct Random {
    pub state: u64,
}

impl Random {
    // Draws the next number of the sequence, below a bound; 0 where the bound is 0.
    #[tactic(auto, using(crate::proofs::Bounded::below_zero, crate::proofs::Bounded::below_bound))]
    pub fn below(&mut self, bound: usize) -> usize
        ensures number { result ≡ below bound (xorshift self.old.state) }
        ensures within { result ≤ bound - 1 }
        ensures leaves { self.new.state ≡ xorshift self.old.state }
    {
        self.state = next(self.state);
        if bound == 0 {
            return 0;
        }
        (self.state >> 16) as usize % bound
    }

    // Draws a span of T ticks: the first, and then how many more.
    pub fn span(&mut self, ticks: usize) -> Span
        ensures first { result.first ≡ below ticks (xorshift self.old.state) }
        ensures within { result.first ≤ ticks - 1 }
        ensures last { result.last ≡ result.first + below (ticks - result.first) (xorshift (xorshift self.old.state)) }
        ensures leaves { self.new.state ≡ xorshift (xorshift self.old.state) }
    {
        let first = self.below(ticks);
        let last = first + self.below(ticks - first);
        Span { first, last }
    }
}
