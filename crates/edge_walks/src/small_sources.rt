ghost use Rattle.std.specs.Prelude.{◌≡◌, ◌+◌, ◌^◌, ◌≤◌, ℕ, IfOk, length};
ghost use Rattle.edge_walks.specs.FewerEdges.{AreFewer, IsPast};

use order_model::Mask;
use std::alloc::{AllocError, Global};

/// The smallest mask from which an edge leads into `set`; 0 for the empty set.
fn smallest_source(set: Mask) -> Mask
    ensures { (S x : ℕ) → S + 2 ^ x ≡ set → result ≤ S }
{
    if set == 0 {
        return 0;
    }
    let highest = 15 - set.leading_zeros();
    set - (1 << highest)
}

/// A copy of `judged` without the edges into sets to which only masks above `last` lead.
pub(crate) fn edges_up_to(
    alloc: Global,
    judged: &[Mask],
    last: Mask,
) -> Result<Vec<Mask>, AllocError>
    requires { length judged.now ≤ 65536 }
    ensures { IfOk result (λ v. AreFewer (IsPast last) judged.entry.now v.items) }
{
    let mut early = judged.to_vec(alloc)?;
    for set in 0..early.len() {
        if smallest_source(set as Mask) > last {
            early[set] = 0;
        }
    }
    Ok(early)
}
