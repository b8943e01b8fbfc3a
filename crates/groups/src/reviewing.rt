// What the calls on words judge first: the words, and then the set of badges under review.
ghost use Rattle.std.specs.Prelude.{◌≡◌, ◌≤◌};
ghost use Rattle.sets.specs.Bools.{isnt};
ghost use Rattle.sets.specs.Members.{capacity, members};
ghost use Rattle.records.specs.Outcomes.{success, refuse_if};
ghost use Rattle.spans.specs.Reviews.{is_review};
ghost use Rattle.spans.specs.Judging.{review_of};
ghost use Rattle.groups.specs.Refusals.{judged_outcome};

use crate::refusal::Refusal;
use logs::check_words;
use sets::BadgeSet;

// Judges a set of badges under review by 20: it has to be a non-empty set of the day's badges.
fn judge_set(badges: usize, review: BadgeSet) -> Result<(), Refusal>
    requires { badges ≤ capacity }
    ensures { judged_outcome result ≡ refuse_if (isnt (is_review badges (members review))) 20 0 (success tt) }
{
    if review.is_empty() {
        return Err(Refusal::InvalidReview);
    }
    if !review.is_subset(BadgeSet::full(badges)) {
        return Err(Refusal::InvalidReview);
    }
    Ok(())
}

// Judges day words, handed over with n and T, by 10, 8 and 11, and then the badges under review by 20.
pub(crate) fn judge_review(
    words: &[u64],
    badges: usize,
    ticks: usize,
    review: BadgeSet,
) -> Result<(), Refusal>
    ensures { judged_outcome result ≡ review_of badges ticks words.now (members review) }
{
    check_words(words, badges, ticks)?;
    judge_set(badges, review)
}
