// What the probes of the listing answer, as five numbers.
ghost use Rattle.std.specs.Prelude.{◌≡◌};
ghost use Rattle.groups.specs.Refusals.{written_outcome};
ghost use Rattle.probes.specs.Listings.{listing_answer};

use text::{Piece, Reason, Refusal};

pub(crate) fn listing_answer(prepared: Result<usize, Refusal>, piece: Piece) -> [u64; 5]
    ensures { result ≡ listing_answer (written_outcome prepared) piece.next piece.bytes }
{
    let next = piece.next as u64;
    let bytes = piece.bytes as u64;
    match prepared {
        Ok(size) => [0, 0, size as u64, next, bytes],
        Err(refusal) => [
            u64::from(refusal.number()),
            refusal.offset() as u64,
            0,
            next,
            bytes,
        ],
    }
}
