// What a call answered, as five numbers.
ghost use Rattle.std.specs.Prelude.{◌≡◌};
ghost use Rattle.records.specs.Outcomes.{outcome_of};
ghost use Rattle.records.specs.Verdicts.{verdict_outcome};
ghost use Rattle.receivers.specs.Refusals.{joined_outcome};
ghost use Rattle.ward.specs.Answers.{refused_answer, read_answer, join_answer, written_answer};

use logs::{Accepted, Reason};
use receivers::Size;

// A refusal's number and byte offset, of whichever call.
fn refused<R: Reason + Copy>(refusal: R) -> [u64; 5]
    ensures { result ≡ refused_answer (R.number refusal) (R.offset refusal) }
{
    [
        u64::from(refusal.number()),
        refusal.offset() as u64,
        0,
        0,
        0,
    ]
}

// What read answered.
pub(crate) fn read_answer(read: Result<Accepted, logs::Refusal>) -> [u64; 5]
    ensures { result ≡ read_answer (verdict_outcome read) }
{
    match read {
        Err(refusal) => refused(refusal),
        Ok(accepted) => [
            0,
            0,
            accepted.badges as u64,
            accepted.ticks as u64,
            accepted.contacts as u64,
        ],
    }
}

// What joining answered.
pub(crate) fn join_answer(joined: Result<Size, receivers::Refusal>) -> [u64; 5]
    ensures { result ≡ join_answer (joined_outcome joined) }
{
    match joined {
        Err(refusal) => refused(refusal),
        Ok(size) => [0, 0, size.badges as u64, size.ticks as u64, 0],
    }
}

// What a call that fills a result buffer answered, whichever part it is of.
pub(crate) fn written_answer<R: Reason + Copy>(written: Result<usize, R>) -> [u64; 5]
    ensures { result ≡ written_answer (outcome_of R.number R.offset written) }
{
    match written {
        Err(refusal) => refused(refusal),
        Ok(count) => [0, 0, 0, 0, count as u64],
    }
}
