//! The one printed form of a specification.

ghost use Rattle.std.specs.Prelude.{◌≡◌, ◌++◌, ◌≤◌, length, IfOk, OnOk, Ok};
ghost use Rattle.std.specs.String.{string_bytes};
ghost use Rattle.index_spec.specs.Language.{spec_of, IsGiven, IsSpelledBy};
ghost use Rattle.index_spec.specs.Printed.{comma_each, joined, printed_binning, coarse_text, printed_encoding, printed};

use crate::spec::{Binning, Coarse, EncodingSpec, Spec};
use std::alloc::{AllocError, Global};
use std::fmt::Write;

/// The numbers, a comma before each.
fn push_more(out: &mut String, numbers: &[i128]) -> Result<(), AllocError>
    ensures { OnOk result (string_bytes out.new ≡ string_bytes out.old ++ comma_each numbers.now) }
{
    for number in numbers {
        write!(out, ",{number}")?;
    }
    Ok(())
}

/// The numbers with commas between.
fn push_numbers(out: &mut String, numbers: &[i128]) -> Result<(), AllocError>
    ensures { OnOk result (string_bytes out.new ≡ string_bytes out.old ++ joined numbers.now) }
{
    match numbers {
        [] => Ok(()),
        [first, rest @ ..] => {
            write!(out, "{first}")?;
            push_more(out, rest)
        }
    }
}

#[tactic(auto, unfolding(crate::specs::Printed::printed_binning))]
fn push_binning(out: &mut String, binning: &Binning) -> Result<(), AllocError>
    ensures { OnOk result (string_bytes out.new ≡ string_bytes out.old ++ printed_binning binning.now) }
{
    match binning {
        Binning::Each => out.push_str("none"),
        Binning::Bounds(bounds) => {
            out.push_str("bounds=(")?;
            push_numbers(out, bounds.as_slice())?;
            out.push_str(")")
        }
        Binning::Width { start, end, count } => write!(
            out,
            "start={start} end={end} nbins={count}"
        ),
        Binning::Weight { count } => write!(out, "nbins={count}"),
        Binning::Precision { digits } => write!(out, "precision={digits}"),
    }
}

#[tactic(auto, unfolding(crate::specs::Printed::coarse_text))]
fn coarse_text(coarse: Coarse) -> &'static str
    ensures { result.now ≡ coarse_text coarse }
{
    match coarse {
        Coarse::Equality => "equality",
        Coarse::Range => "range",
        Coarse::Interval => "interval",
    }
}

#[tactic(auto, unfolding(crate::specs::Printed::printed_encoding))]
fn push_encoding(out: &mut String, encoding: EncodingSpec) -> Result<(), AllocError>
    ensures { OnOk result (string_bytes out.new ≡ string_bytes out.old ++ printed_encoding encoding) }
{
    match encoding {
        EncodingSpec::Equality => out.push_str("equality"),
        EncodingSpec::Range => out.push_str("range"),
        EncodingSpec::Interval => out.push_str("interval"),
        EncodingSpec::TwoLevel { coarse, ncoarse } => {
            let level = coarse_text(coarse);
            write!(out, "two-level coarse={level} ncoarse={ncoarse}")
        }
    }
}

/// Both elements, their options in a fixed order with one blank between.
#[tactic(auto, unfolding(crate::specs::Printed::printed))]
fn print(alloc: Global, spec: &Spec) -> Result<Vec<u8>, AllocError>
    ensures { IfOk result (λ text. text.items ≡ printed spec.now) }
{
    let mut out = String::new(alloc);
    out.push_str("<binning ")?;
    push_binning(&mut out, &spec.binning)?;
    out.push_str("/><encoding ")?;
    push_encoding(&mut out, spec.encoding)?;
    out.push_str("/>")?;
    Ok(out.into_bytes())
}

/// The printed form of a specification, which index files carry. `parse_spec` of it gives the same specification.
pub fn print_spec(alloc: Global, spec: &Spec) -> Result<Vec<u8>, AllocError>
    ensures text { IfOk result (λ text. text.items ≡ printed spec.now) }

    // For each specification that the grammar gives.
    ensures read_again { IsGiven spec.now → spec_of (printed spec.now) ≡ Ok spec.now }
    ensures spelled { IsGiven spec.now → IsSpelledBy spec.now (printed spec.now) }
    ensures short { IsGiven spec.now → length (printed spec.now) ≤ 131072 }
{
    print(alloc, spec)
}
