//! What stands behind the first 24 bytes of an index file's head.

ghost use Rattle.std.specs.Prelude.{◌≡◌, Some, Ok, IfErr, IfOk, OnOk, length};
ghost use Rattle.index_spec.specs.Counts.{HasGroups, bitmap_count};
ghost use Rattle.index_spec.specs.Language.{spec_of};
ghost use Rattle.index_spec.specs.Printed.{printed};
ghost use Rattle.index_file.specs.Front.{rest_size};
ghost use Rattle.index_file.specs.IndexFile.{parts_bytes};
ghost use Rattle.index_file.specs.Opening.{HasSizes, IsAnswer, StopsParts, opened_head, parts_in, spec_in, tested};

use crate::edge::bins_of;
use crate::fault::IndexFault;
use crate::front::Front;
use crate::head::IndexHead;
use crate::places::offsets_of;
use fb_outside::FileName;
use index_spec::{Spec, SpecFault, parse_spec, print_spec};
use std::alloc::Global;

/// The head of an index file of this size, whose first bytes say these sizes, and whose further ones are these.
#[tactic(auto, unfolding(crate::specs::Opening::parts_in))]
pub(crate) fn head_of(
    alloc: Global,
    name: &FileName,
    rows: u32,
    size: u64,
    front: Front,
    bytes: &[u8],
) -> Result<IndexHead, IndexFault>
    requires { length bytes.now ≡ rest_size front }
    ensures named { IfOk result (λ head. (head.name ≡ name.now) × (head.rows ≡ rows)) }
    ensures exact { IsAnswer (opened_head result) (parts_in size front bytes.now) }
    ensures spelled { IfOk result (λ head. bytes.now ≡ parts_bytes (printed head.spec) head.bins head.offsets) }
    ensures sizes { IfOk result (λ head. HasSizes front size (length (printed head.spec)) (length head.bins) head.offsets) }
    ensures stop { IfErr result StopsParts }
{
    let (text, rest) = bytes.split_at(front.text as usize);
    let spec = spec_of_text(alloc, text)?;
    let (edges, places) = rest.split_at(32 * front.bins as usize);
    let bins = bins_of(alloc, edges, front.bins)?;
    check_count(&spec, front)?;
    let offsets = offsets_of(alloc, places, front.bitmaps, front.size(), size)?;
    let Ok(name) = name.copy(alloc) else {
        return Err(IndexFault::OutOfMemory);
    };
    Ok(IndexHead {
        name,
        rows,
        spec,
        bins,
        offsets,
    })
}

/// Whether there are as many bitmaps as the encoding has of the bins.
fn check_count(spec: &Spec, front: Front) -> Result<(), IndexFault>
    requires { HasGroups spec.now.encoding }
    ensures exact { result ≡ tested (bitmap_count spec.now.encoding front.bins) front.bitmaps }
    ensures counted { OnOk result (bitmap_count spec.now.encoding front.bins ≡ Some front.bitmaps) }
    ensures stop { IfErr result StopsParts }
{
    let have = u64::from(front.bitmaps);
    match spec.encoding.bitmap_count(front.bins) {
        Some(want) if want == have => Ok(()),
        Some(want) => Err(IndexFault::Count { want, have }),
        None => Err(IndexFault::Count { want: 0, have }),
    }
}

/// The specification whose printed form this is.
#[tactic(auto, unfolding(crate::specs::Opening::spec_in))]
fn spec_of_text(alloc: Global, bytes: &[u8]) -> Result<Spec, IndexFault>
    ensures exact { IsAnswer result (spec_in bytes.now) }
    ensures found { IfOk result (λ spec. (bytes.now ≡ printed spec) × (spec_of (printed spec) ≡ Ok spec)) }
    ensures groups { IfOk result (λ spec. HasGroups spec.encoding) }
    ensures stop { IfErr result StopsParts }
{
    let Ok(text) = str::from_utf8(bytes) else {
        return Err(IndexFault::Spec);
    };
    let spec = match parse_spec(alloc, text) {
        Ok(spec) => spec,
        Err(SpecFault::Bad { .. }) => return Err(IndexFault::Spec),
        Err(SpecFault::OutOfMemory) => return Err(IndexFault::OutOfMemory),
    };
    match print_spec(alloc, &spec) {
        Ok(printed) if printed.as_slice() == bytes => Ok(spec),
        Ok(_) => Err(IndexFault::Spec),
        Err(_) => Err(IndexFault::OutOfMemory),
    }
}
