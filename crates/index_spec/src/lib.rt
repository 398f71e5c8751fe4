//! Index specifications, the text by which a user says how a column is indexed: read exactly, refused with the
//! first cause, and printed in one form.
//!
//! The form `<binning OPTIONS/><encoding OPTIONS/>` and its option words follow the FastBit Users Guide.
#![tactic(auto)]

mod meaning;
mod needed;
mod options;
mod parsing;
mod printing;
mod spec;
mod token;
mod word;

pub use needed::needed_bitmaps;
pub use parsing::parse_spec;
pub use printing::print_spec;
pub use spec::{Binning, Coarse, EncodingSpec, Spec, SpecFault, SpecKind};

#[cfg(test)]
mod tests;
