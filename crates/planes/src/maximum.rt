// The largest number in some of the lanes, plane by plane from the last.
ghost use Rattle.std.specs.Prelude.{◌<◌};
ghost use Rattle.planes.specs.Lanes.{planes_of, half, LargestLane};
ghost use Rattle.planes.specs.Leading.{Narrowed};

use crate::Planes;

// The lanes that have the largest number in the planes seen so far, and that number.
#[derive(Clone, Copy)]
struct Leading {
    lanes: u64,
    number: usize,
}

// Goes on with the plane below: of the lanes of the largest number those stay that have a 1 in it, if there are any.
fn narrow(leading: Leading, plane: u64) -> Leading
    requires { leading.number < half }
    ensures { Narrowed plane leading.lanes leading.number result.lanes result.number }
{
    let ones = leading.lanes & plane;
    if ones == 0 {
        return Leading {
            lanes: leading.lanes,
            number: 2 * leading.number,
        };
    }
    Leading {
        lanes: ones,
        number: 2 * leading.number + 1,
    }
}

// The largest number in the lanes of a word's bits; 0 where it has none. (No Option, since that is what it promises.)
pub fn largest(p: Planes, lanes: u64) -> usize
    ensures { LargestLane lanes (planes_of p) result }
{
    let l7 = narrow(Leading { lanes, number: 0 }, p.p7);
    let l6 = narrow(l7, p.p6);
    let l5 = narrow(l6, p.p5);
    let l4 = narrow(l5, p.p4);
    let l3 = narrow(l4, p.p3);
    let l2 = narrow(l3, p.p2);
    let l1 = narrow(l2, p.p1);
    let l0 = narrow(l1, p.p0);
    l0.number
}
