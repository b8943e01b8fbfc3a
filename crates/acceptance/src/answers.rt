// Whether the product's answers are as wanted. The product has refusals of its own, and the second implementation too: what both have in common
// is a number and an offset.
use logs::Reason;
use reference::{Accepted, Bytes, Judgement};

// A refusal, as the papers have it.
#[derive(Clone, Copy, PartialEq)]
pub(crate) struct Refused {
    pub(crate) number: usize,
    pub(crate) offset: usize,
}

impl From<reference::Refusal> for Refused {
    fn from(refusal: reference::Refusal) -> Refused {
        Refused {
            number: refusal.number(),
            offset: refusal.offset,
        }
    }
}

// A refusal of the product, of whichever part.
fn refusal_of<R: Reason + Copy>(refusal: R) -> Refused {
    Refused {
        number: usize::from(refusal.number()),
        offset: refusal.offset(),
    }
}

// What is wanted of a call that writes: the bytes in front of its buffer, or a refusal.
pub(crate) type Wanted = Result<Bytes, Refused>;

// The wanted bytes; none where a refusal is wanted.
pub(crate) fn bytes_of(wanted: &Wanted) -> &[u8] {
    match wanted {
        Ok(bytes) => bytes.as_slice(),
        Err(_) => &[],
    }
}

// The wanted answer: how many bytes, or the refusal.
pub(crate) fn answer_of(wanted: &Wanted) -> Result<usize, Refused> {
    match wanted {
        Ok(bytes) => Ok(bytes.len()),
        Err(refused) => Err(*refused),
    }
}

// The answer of read.
pub(crate) fn reads_as(got: Result<logs::Accepted, logs::Refusal>, wanted: Judgement) -> bool {
    let got = match got {
        Ok(log) => Ok(Accepted {
            badges: log.badges,
            ticks: log.ticks,
            contacts: log.contacts,
        }),
        Err(refusal) => Err(refusal_of(refusal)),
    };
    got == wanted.map_err(Refused::from)
}

// The answer of a call that writes, whichever part it is of.
pub(crate) fn answers_as<R: Reason + Copy>(
    got: Result<usize, R>,
    wanted: Result<usize, Refused>,
) -> bool {
    let got = match got {
        Ok(bytes) => Ok(bytes),
        Err(refusal) => Err(refusal_of(refusal)),
    };
    got == wanted
}
