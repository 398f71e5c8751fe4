//! The dataset at a path, for a command, or why there is none.

ghost use Rattle.std.specs.Prelude.{◌≡◌, IfOk, IfSome, IsErrOf};
ghost use Rattle.fb_outside.specs.Causes.{HasCause};
ghost use Rattle.fb_outside.specs.Files.{SameFiles};
ghost use Rattle.fb_outside.specs.Names.{IsPath};
ghost use Rattle.fb_outside.specs.Reads.{AddsOnly};
ghost use Rattle.dataset.specs.Looks.{IsListedLook};
ghost use Rattle.dataset.specs.Opened.{IsDataset, IsTextLook};
ghost use Rattle.statuses.specs.Opening.{Finds, damaged_status};

use crate::{Status, Unanswered};
use dataset::{DamageKind, Dataset, OpenFault, open_dataset};
use fb_outside::{FileName, Store};
use part_meta::catalog_of;
use std::alloc::Global;

/// The dataset at the path; refused where there is none, or where its catalog or a part's text is damaged.
pub fn opened<S: Store>(alloc: Global, store: &mut S, dir: &FileName) -> Result<Dataset, Unanswered>
    requires path { IsPath dir.now }
    ensures cause { HasCause (S.faults store.old) (S.faults store.new) (IsErrOf result Unanswered.StoreFault) }
    ensures files { SameFiles (S.files store.old) (S.files store.new) }
    ensures valid { IfOk result IsDataset }
    ensures path { IfOk result (λ dataset. dataset.dir ≡ dir.now) }
    ensures reads { AddsOnly (IsTextLook dir.now) (S.reads store.old) (S.reads store.new) }
    ensures listed { IfSome (S.files store.old) (λ m. AddsOnly (IsListedLook m dir.now) (S.reads store.old) (S.reads store.new)) }
    ensures finds { Finds dir.now (S.files store.old) result }
{
    match open_dataset(alloc, store, dir) {
        Ok(dataset) => Ok(dataset),
        Err(OpenFault::NoDataset) => {
            let file = catalog_of(alloc, dir)?;
            Err(Unanswered::Refused(Status::NoDataset { file }))
        }
        Err(
            OpenFault::Damaged {
                file,
                kind,
                want,
                have,
            },
        ) => Err(damaged(file, kind, want, have)),
        Err(OpenFault::Store) => Err(Unanswered::StoreFault),
        Err(OpenFault::OutOfMemory) => Err(Unanswered::OutOfMemory),
    }
}

/// The answer to a damaged file.
pub fn damaged(file: FileName, kind: DamageKind, want: u64, have: u64) -> Unanswered
    ensures { result ≡ Unanswered.Refused (damaged_status (record { file = file; kind = kind; want = want; have = have })) }
{
    Unanswered::Refused(Status::Damaged {
        file,
        kind,
        want,
        have,
    })
}
