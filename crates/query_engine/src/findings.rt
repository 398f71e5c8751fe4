//! What faults say of the files of a column.

ghost use Rattle.std.specs.Prelude.{◌≡◌};
ghost use Rattle.query_engine.specs.Damage.{column_finding, finding_of, index_finding, mask_finding, text_finding, with_numbers, without_numbers, words_finding};

use column_file::ColFault;
use dataset::DamageKind;
use index_file::IndexFault;
use part_meta::FileKind;
use text_column::{DicFault, TextFault};
use two_stage::EvalFault;

/// Which file of a column is damaged, what is wrong with it, and two numbers, 0 where the kind has none: what had to be there,
/// and what is.
#[derive(Clone, Copy, Debug, PartialEq, Eq)]
pub(crate) struct Finding {
    pub(crate) file: FileKind,
    pub(crate) kind: DamageKind,
    pub(crate) want: u64,
    pub(crate) have: u64,
}

fn without_numbers(file: FileKind, kind: DamageKind) -> Finding
    ensures { result ≡ without_numbers file kind }
{
    with_numbers(file, kind, 0, 0)
}

fn with_numbers(file: FileKind, kind: DamageKind, want: u64, have: u64) -> Finding
    ensures { result ≡ with_numbers file kind want have }
{
    Finding {
        file,
        kind,
        want,
        have,
    }
}

/// The place of the column that a fault is of, and what it says of that column's files; None where none is damaged.
pub(crate) fn finding_of(fault: &EvalFault) -> Option<(usize, Finding)>
    ensures { result ≡ finding_of fault.now }
{
    match fault {
        EvalFault::Col(col, fault) => Some((*col, column_finding(fault)?)),
        EvalFault::Index(col, fault) => Some((*col, index_finding(fault)?)),
        EvalFault::Words(col, fault) => Some((*col, words_finding(fault)?)),
        EvalFault::Text(col, fault) => Some((*col, text_finding(fault)?)),
        EvalFault::OutOfMemory => None,
    }
}

fn column_finding(fault: &ColFault) -> Option<Finding>
    ensures { result ≡ column_finding fault.now }
{
    Some(match fault {
        ColFault::Missing => without_numbers(FileKind::Values, DamageKind::Missing),
        ColFault::WrongLength { want, have } => {
            with_numbers(FileKind::Values, DamageKind::Length, *want, *have)
        }
        ColFault::MaskMissing => without_numbers(FileKind::Mask, DamageKind::Missing),
        ColFault::Mask(_) | ColFault::MaskTrailing => without_numbers(
            FileKind::Mask,
            DamageKind::Mask,
        ),
        ColFault::MaskLength { want, have } => with_numbers(
            FileKind::Mask,
            DamageKind::Mask,
            u64::from(*want),
            u64::from(*have),
        ),
        ColFault::Store | ColFault::OutOfMemory => return None,
    })
}

/// The same of a fault of the mask.
fn mask_finding(fault: &ColFault) -> Finding
    ensures { result ≡ mask_finding fault.now }
{
    match fault {
        ColFault::MaskMissing => without_numbers(FileKind::Mask, DamageKind::Missing),
        ColFault::MaskLength { want, have } => with_numbers(
            FileKind::Mask,
            DamageKind::Mask,
            u64::from(*want),
            u64::from(*have),
        ),
        _ => without_numbers(FileKind::Mask, DamageKind::Mask),
    }
}

fn index_finding(fault: &IndexFault) -> Option<Finding>
    ensures { result ≡ index_finding fault.now }
{
    Some(match fault {
        IndexFault::Rows { want, have } => with_numbers(
            FileKind::Index,
            DamageKind::Index,
            u64::from(*want),
            u64::from(*have),
        ),
        IndexFault::Count { want, have } => {
            with_numbers(FileKind::Index, DamageKind::Index, *want, *have)
        }
        IndexFault::Store | IndexFault::OutOfMemory => return None,
        _ => without_numbers(FileKind::Index, DamageKind::Index),
    })
}

fn words_finding(fault: &DicFault) -> Option<Finding>
    ensures { result ≡ words_finding fault.now }
{
    Some(match fault {
        DicFault::Missing => without_numbers(FileKind::Words, DamageKind::Missing),
        DicFault::Store | DicFault::OutOfMemory => return None,
        _ => without_numbers(FileKind::Words, DamageKind::Words),
    })
}

fn text_finding(fault: &TextFault) -> Option<Finding>
    ensures { result ≡ text_finding fault.now }
{
    Some(match fault {
        TextFault::Missing => without_numbers(FileKind::Values, DamageKind::Missing),
        TextFault::StartsMissing => without_numbers(FileKind::Starts, DamageKind::Missing),
        TextFault::StartsLength { want, have } => {
            with_numbers(FileKind::Starts, DamageKind::Starts, *want, *have)
        }
        TextFault::NotRising(_) => without_numbers(FileKind::Starts, DamageKind::Starts),
        TextFault::LastStart { want, have } => {
            with_numbers(FileKind::Values, DamageKind::Length, *want, *have)
        }
        TextFault::ShortRead => without_numbers(FileKind::Values, DamageKind::Length),
        TextFault::Mask(fault) => mask_finding(fault),
        TextFault::Store | TextFault::OutOfMemory => return None,
    })
}
