//! References that stay, and those that are left out with the tracks that they are to (ISO/IEC 14496-12, 8.3.3).

ghost use Rattle.std.specs.Prelude.{◌≡◌, IfOk};
ghost use Rattle.std.specs.List.{filter};
ghost use Rattle.std.specs.List.Sorted.{IsPermutation, IsSorted};
ghost use Rattle.std.specs.Ordering.{nat_cmp};
ghost use Rattle.mp4_remux.specs.References.{goes, contains_id, leaves_some, stays};

use crate::reference::Reference;
use std::alloc::{AllocError, Global};

/// These ids, the lowest first.
pub(crate) fn sorted_ids(alloc: Global, ids: &[u32]) -> Result<Vec<u32>, AllocError>
    ensures same { IfOk result (λ sorted. IsPermutation ids.now sorted.items) }
    ensures sorted { IfOk result (λ sorted. IsSorted nat_cmp sorted.items) }
{
    let mut sorted = Vec::with_capacity(alloc, ids.len())?;
    sorted.extend_from_slice(ids)?;
    sorted.sort_unstable();
    Ok(sorted)
}

/// Whether an id is one of these, the lowest of which is first.
pub(crate) fn contains_id(sorted: &[u32], id: u32) -> bool
    requires { IsSorted nat_cmp sorted.now }
    ensures { result ≡ contains_id sorted.now id }
{
    sorted.binary_search(&id).is_ok()
}

/// Whether a reference stays where these tracks are kept, the lowest id first, and others may be left out.
fn stays(leaves_some: bool, sorted: &[u32], one: Reference) -> bool
    requires { IsSorted nat_cmp sorted.now }
    ensures { result ≡ stays leaves_some sorted.now one }
{
    !leaves_some || contains_id(sorted, one.track_id) && contains_id(sorted, one.to)
}

/// Whether a kept track's reference is left out where these are kept, the lowest id first, and others may be left out.
fn goes(leaves_some: bool, sorted: &[u32], one: Reference) -> bool
    requires { IsSorted nat_cmp sorted.now }
    ensures { result ≡ goes leaves_some sorted.now one }
{
    leaves_some && contains_id(sorted, one.track_id) && !contains_id(sorted, one.to)
}

/// What becomes of references: those that stay, and those that are left out of the tracks that are kept, each in the
/// order of the file.
#[derive(Drop)]
pub(crate) struct Parted {
    pub staying: Vec<Reference>,
    pub left_out: Vec<Reference>,
}

/// Parts a movie's references where these tracks are kept, the lowest id first, and others may be left out.
pub(crate) fn part(
    alloc: Global,
    list: &[Reference],
    leaves_some: bool,
    sorted: &[u32],
) -> Result<Parted, AllocError>
    requires { IsSorted nat_cmp sorted.now }
    ensures staying { IfOk result (λ parted. parted.staying.items ≡ filter (stays leaves_some sorted.now) list.now) }
    ensures left_out { IfOk result (λ parted. parted.left_out.items ≡ filter (goes leaves_some sorted.now) list.now) }
{
    let mut parted = Parted {
        staying: Vec::new(alloc),
        left_out: Vec::new(alloc),
    };
    for i in 0..list.len() {
        let one = list[i];
        if stays(leaves_some, sorted, one) {
            parted.staying.push(one)?;
            continue;
        }
        if !goes(leaves_some, sorted, one) {
            continue;
        }
        parted.left_out.push(one)?;
    }
    Ok(parted)
}
