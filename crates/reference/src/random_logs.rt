// Random logs: pairs in either order, overlaps and repeats, and some of them damaged.
use crate::bytes::{BH, Bytes};
use crate::random::Random;

// Of how many badges and ticks random logs are at most, how many contacts they have fewer than, and whether some are damaged.
#[derive(Clone, Copy)]
pub struct Size {
    pub badges: usize,
    pub ticks: usize,
    pub contacts: usize,
    pub damage: bool,
}

// Damage is done below this position, with a value below this one; and one time in so many it is a cut.
const DAMAGE_END: usize = 1000;

const DAMAGE_VALUES: usize = 8;

const CUT_ONE_IN: usize = 8;

// Another badge than a, where there are two: b, or one beside it.
fn other_badge(a: usize, b: usize) -> usize {
    if a != b {
        b
    } else if b == 0 {
        1
    } else {
        b - 1
    }
}

// Puts the contact of two random badges in a random span.
fn put_contact(log: &mut Bytes, random: &mut Random, n: usize, ticks: usize) {
    let a = random.below(n);
    let b = random.below(n);
    let span = random.span(ticks);
    log.put_contact(a, other_badge(a, b), span);
}

// A random log that is whole. One badge alone has no contacts.
fn whole_log(random: &mut Random, most: Size) -> Bytes {
    let badges = random.below(most.badges) + 1;
    let ticks = random.below(most.ticks) + 1;
    let contacts = random.below(if badges == 1 { 0 } else { most.contacts });
    let mut log = Bytes::new();
    log.put_record(BH, &[badges, ticks]);
    for _ in 0..contacts {
        put_contact(&mut log, random, badges, ticks);
    }
    log.put_end(contacts);
    log
}

// Damages a log now and then: a byte is changed, or its end is cut off, or bytes follow it.
fn damage(log: &mut Bytes, mut random: Random) {
    let at = random.below(DAMAGE_END);
    let value = random.below(DAMAGE_VALUES);
    if random.below(CUT_ONE_IN) == 0 {
        log.resize(at);
    } else {
        log.set(at, value as u8);
    }
}

// A random log. What is drawn for damage is drawn from a copy, so that logs of a size are the same with it and without.
pub fn random_log(random: &mut Random, most: Size) -> Bytes {
    let mut log = whole_log(random, most);
    if most.damage {
        damage(&mut log, *random);
    }
    log
}
