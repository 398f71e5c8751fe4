//! What a condition says of a range of values.
ghost use Rattle.std.specs.Prelude.{◌≡◌, ◌≤ℤ◌};
ghost use Rattle.binning.specs.Against.{against};

use crate::span_lists::{Spans, first_reaching};

/// An answer over a range of values of which one is not known.
#[derive(Clone, Copy, Debug, PartialEq, Eq)]
pub enum Three {
    /// Whichever value it is, the condition holds.
    Yes,
    /// Whichever value it is, the condition doesn't hold.
    No,
    Unknown,
}

/// Whether a value between `least` and `greatest` is in the spans: Yes where one span covers the range, No where none
/// meets it, else Unknown.
pub fn against(least: i128, greatest: i128, spans: &Spans) -> Three
    requires { least ≤ℤ greatest }
    ensures { result ≡ against least greatest spans.now }
{
    let list = spans.list();
    let place = first_reaching(list, least);
    if place >= list.len() {
        return Three::No;
    }
    let span = list[place];
    if span.least <= least && greatest <= span.greatest {
        Three::Yes
    } else if span.least <= greatest {
        Three::Unknown
    } else {
        Three::No
    }
}
