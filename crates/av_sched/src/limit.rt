//! The limit on candidates.

ghost use Rattle.std.specs.Prelude.{◌≤◌, All, IfOk, IfSome, IfNone};
ghost use Rattle.av_flat.specs.Trees.{view_system};
ghost use Rattle.av_sched.specs.Choices.{candidates};
ghost use Rattle.av_sched.specs.SchedFaults.{HasManyCandidates};
ghost use Rattle.av_sched.specs.inner.FirstChoices.{AreComponentsOf};

use crate::node::dimensions;
use crate::part::candidates_of;
use av_base::limits::MOST_CANDIDATES;
use av_base::{List, Memory};
use av_flat::{Flat, Reach};
use std::alloc::Global;

/// How many candidates the first component with too many of them has.
pub(crate) fn too_many(
    alloc: Global,
    flat: &Flat,
    reach: Reach,
    components: &[List<u32>],
) -> Result<Option<u128>, Memory>
    requires { AreComponentsOf (view_system flat.now) components.now }
    ensures some { IfOk result (λ o. IfSome o
        (HasManyCandidates (view_system flat.now) reach.size)) }
    ensures none { IfOk result (λ o. IfNone o
        (All (λ d. candidates (view_system flat.now) reach.size d ≤ 4194304) components.now)) }
{
    let dims = dimensions(alloc, flat)?;
    let base = 2 * reach.size as u128 + 1;
    for k in 0..components.len() {
        let number = candidates_of(components[k].as_slice(), &dims, base);
        if number > MOST_CANDIDATES {
            return Ok(Some(number));
        }
    }
    Ok(None)
}
