//! The first decimal digits of a number.
ghost use Rattle.std.specs.Prelude.{◌≡◌, ◌≤◌};
ghost use Rattle.binning.specs.Spans.{IsInRange};
ghost use Rattle.binning.specs.Keys.{first_digits, leading};

/// The number with all but its first `digits` decimal digits replaced by 0.
fn first_digits(digits: u32, n: u64) -> u64
    requires some { 1 ≤ digits }
    requires few { digits ≤ 18 }
    ensures { result ≡ first_digits digits n }
{
    let kept = 10u64.pow(digits);
    let mut unit: u64 = 1;
    while n / unit >= kept {
        unit *= 10;
    }
    n - n % unit
}

/// The same with a sign, which is kept.
pub(crate) fn leading(digits: u32, v: i128) -> i128
    requires some { 1 ≤ digits }
    requires few { digits ≤ 18 }
    requires within { IsInRange v }
    ensures { result ≡ leading digits v }
{
    if v < 0 {
        -i128::from(first_digits(digits, (-v) as u64))
    } else {
        i128::from(first_digits(digits, v as u64))
    }
}
