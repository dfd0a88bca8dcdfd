ghost use Rattle.std.specs.Prelude.{◌≡◌, ◌<◌};
ghost use Rattle.subfunction_classes.specs.Table.{free_below};

use definitions::{Mask, VarIx, contains};

/// The rank of variable x: how many variables below x are not in `set`.
pub fn rank_of(set: Mask, x: VarIx) -> u32
    requires { x < 16 }
    ensures { result ≡ free_below set x }
{
    let mut rank = 0;
    for y in 0..x {
        if !contains(set, y) {
            rank += 1;
        }
    }
    rank
}
