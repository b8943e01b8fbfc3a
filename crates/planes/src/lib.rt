// Numbers in the lanes of words: bit v of each of eight words, the planes, gives the number of lane v in binary, the lowest bit first. One
// instruction on the planes works on all lanes of a word. No public function has a precondition; a sum that has no room in eight planes
// loses its highest digits, as a sum of words does.

#![tactic(auto)]

mod maximum;

ghost use Rattle.std.specs.Prelude.{ℕ, ◌+◌};
ghost use Rattle.sets.specs.Sets.{bit};
ghost use Rattle.planes.specs.Lanes.{FullAdder, planes_of, Plus, Constant, Complement};

pub use maximum::largest;

// The planes, the lowest bits first. There are eight: a lane has room for the number of badges that a set of two words holds, and as much again. An array is
// no plainer here: an adder takes the lowest planes one by one, and all laws of lanes would carry the array's length.
#[derive(Clone, Copy)]
pub struct Planes {
    pub p0: u64,
    pub p1: u64,
    pub p2: u64,
    pub p3: u64,
    pub p4: u64,
    pub p5: u64,
    pub p6: u64,
    pub p7: u64,
}

// A 1 in every lane.
pub const EVERY: u64 = u64::MAX;

// Half of the numbers that a lane has room for: the last plane has the lanes of this number or more.
pub const HALF: usize = 128;

// The sum of three bits in each lane.
#[derive(Clone, Copy)]
struct Sum {
    high: u64,
    low: u64,
}

// Adds three bits in each lane.
fn full_add(a: u64, b: u64, c: u64) -> Sum
    ensures { FullAdder a b c result.high result.low }
{
    let x = a ^ b;
    Sum {
        high: (a & b) | (x & c),
        low: x ^ c,
    }
}

// The same number in every lane.
pub fn constant(x: u64) -> Planes
    ensures { Constant x (planes_of result) }
{
    let x1 = x / 2;
    let x2 = x1 / 2;
    let x3 = x2 / 2;
    let x4 = x3 / 2;
    let x5 = x4 / 2;
    let x6 = x5 / 2;
    let x7 = x6 / 2;
    Planes {
        p0: x % 2 * EVERY,
        p1: x1 % 2 * EVERY,
        p2: x2 % 2 * EVERY,
        p3: x3 % 2 * EVERY,
        p4: x4 % 2 * EVERY,
        p5: x5 % 2 * EVERY,
        p6: x6 % 2 * EVERY,
        p7: x7 % 2 * EVERY,
    }
}

// Adds 1 in each lane of a word's bits.
pub fn add(p: Planes, row: u64) -> Planes
    ensures { Plus (bit row) (planes_of p) (planes_of result) }
{
    let c1 = p.p0 & row;
    let c2 = p.p1 & c1;
    let c3 = p.p2 & c2;
    let c4 = p.p3 & c3;
    let c5 = p.p4 & c4;
    let c6 = p.p5 & c5;
    let c7 = p.p6 & c6;
    Planes {
        p0: p.p0 ^ row,
        p1: p.p1 ^ c1,
        p2: p.p2 ^ c2,
        p3: p.p3 ^ c3,
        p4: p.p4 ^ c4,
        p5: p.p5 ^ c5,
        p6: p.p6 ^ c6,
        p7: p.p7 ^ c7,
    }
}

// Adds two words, 1 in each lane of each word's bits.
pub fn add_two(p: Planes, a: u64, b: u64) -> Planes
    ensures { Plus (λ (v : ℕ). bit a v + bit b v) (planes_of p) (planes_of result) }
{
    let ones = full_add(p.p0, a, b);
    let c2 = p.p1 & ones.high;
    let c3 = p.p2 & c2;
    let c4 = p.p3 & c3;
    let c5 = p.p4 & c4;
    let c6 = p.p5 & c5;
    let c7 = p.p6 & c6;
    Planes {
        p0: ones.low,
        p1: p.p1 ^ ones.high,
        p2: p.p2 ^ c2,
        p3: p.p3 ^ c3,
        p4: p.p4 ^ c4,
        p5: p.p5 ^ c5,
        p6: p.p6 ^ c6,
        p7: p.p7 ^ c7,
    }
}

// Adds eight words, 1 in each lane of each word's bits.
pub fn add_eight(
    p: Planes,
    a: u64,
    b: u64,
    c: u64,
    d: u64,
    e: u64,
    f: u64,
    g: u64,
    h: u64,
) -> Planes
    ensures { Plus (λ (v : ℕ). bit a v + bit b v + bit c v + bit d v + bit e v + bit f v + bit g v + bit h v) (planes_of p) (planes_of result) }
{
    let ones1 = full_add(p.p0, a, b);
    let ones2 = full_add(ones1.low, c, d);
    let ones3 = full_add(ones2.low, e, f);
    let ones4 = full_add(ones3.low, g, h);
    let twos1 = full_add(p.p1, ones1.high, ones2.high);
    let twos2 = full_add(twos1.low, ones3.high, ones4.high);
    let fours = full_add(p.p2, twos1.high, twos2.high);
    let c4 = p.p3 & fours.high;
    let c5 = p.p4 & c4;
    let c6 = p.p5 & c5;
    let c7 = p.p6 & c6;
    Planes {
        p0: ones4.low,
        p1: twos2.low,
        p2: fours.low,
        p3: p.p3 ^ fours.high,
        p4: p.p4 ^ c4,
        p5: p.p5 ^ c5,
        p6: p.p6 ^ c6,
        p7: p.p7 ^ c7,
    }
}

// In each lane, 255 less its number.
pub fn complement(p: Planes) -> Planes
    ensures { Complement (planes_of p) (planes_of result) }
{
    Planes {
        p0: !p.p0,
        p1: !p.p1,
        p2: !p.p2,
        p3: !p.p3,
        p4: !p.p4,
        p5: !p.p5,
        p6: !p.p6,
        p7: !p.p7,
    }
}
