// Logs of thousands of contacts, each made by a rule.
use arrayvec::ArrayVec;

// The bytes of a log of 8,001 contacts, one more than a log may have.
const LONGEST: usize = 4 + 6 * 8001 + 6;

// A log in room for the longest. What finds no room is left out.
pub(crate) type LongLog = ArrayVec<u8, LONGEST>;

// The badges of a contact, and the first and last tick of its span.
pub(crate) type Contact = [usize; 4];

// Contact k of a chain: badges k % 3 and the next are in contact in tick 0 or ticks 0 to 1.
pub(crate) fn chain(k: usize) -> Contact {
    [k % 3, k % 3 + 1, 0, k % 2]
}

// Contact k of rounds: contacts 64s to 64s + 63 end with tick s, and begin so many ticks before it, or with tick 0: each of 64 badges is in contact with
// the one whose number differs from its own in binary digit s % 4 alone, so that each pair is named twice.
pub(crate) fn round(k: usize, ticks: usize) -> Contact {
    let s = k / 64;
    [
        k % 64,
        (k % 64) ^ (1 << (s % 4)),
        s.saturating_sub(ticks),
        s,
    ]
}

// As `reference` puts bytes, in more room: one function for both would have to be generic over that and public.
fn put(log: &mut LongLog, bytes: &[u8]) {
    let _ = log.try_extend_from_slice(bytes);
}

// A log of n badges and T ticks with so many contacts, each as the rule gives it.
pub(crate) fn long_log<F: Fn(usize) -> Contact>(
    n: u8,
    ticks: u8,
    contacts: usize,
    rule: F,
) -> LongLog
    requires { F.IsAlwaysCallable rule }
{
    let mut log = LongLog::new();
    put(&mut log, &[b'B', b'H', n, ticks]);
    for k in 0..contacts {
        put(&mut log, b"CT");
        put(&mut log, &rule(k).map(|field| (field % 256) as u8));
    }
    put(&mut log, b"ED");
    put(&mut log, &contacts.to_le_bytes()[..4]);
    log
}
