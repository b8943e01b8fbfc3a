// Whether the logs of a series have the same n and T.
ghost use Rattle.std.specs.Prelude.{◌≡◌};
ghost use Rattle.days.specs.Series.{series_outcome};
ghost use Rattle.days.specs.SeriesSteps.{compared, common_of};

use crate::refusal::SeriesRefusal;
use series::Size;

// What is known of the sizes of some logs: there is no log, all have one size, or they differ.
#[derive(Clone, Copy)]
pub(crate) enum Sizes {
    None,
    Same(Size),
    Different,
}

// What is known after one more log.
pub(crate) fn compared(sizes: Sizes, size: Size) -> Sizes
    ensures { result ≡ compared sizes size }
{
    match sizes {
        Sizes::None => Sizes::Same(size),
        Sizes::Same(first) => {
            if size == first {
                Sizes::Same(first)
            } else {
                Sizes::Different
            }
        }
        Sizes::Different => Sizes::Different,
    }
}

// The size that all logs have; that of no log is 0.
pub(crate) fn common(sizes: Sizes) -> Result<Size, SeriesRefusal>
    ensures { series_outcome result ≡ common_of sizes }
{
    match sizes {
        Sizes::None => Ok(Size {
            badges: 0,
            ticks: 0,
        }),
        Sizes::Same(size) => Ok(size),
        Sizes::Different => Err(SeriesRefusal::DifferentSizes),
    }
}
