//! The widths of a set from the row of its image.

ghost use Rattle.std.specs.Prelude.{◌≡◌, ◌<◌, ◌≤◌, ◌%◌, ◌==◌, ℕ, if◌then◌else◌, IfSome, IsSome, slice_index};
ghost use Rattle.std.specs.Int.{bit_at};
ghost use Rattle.definitions.specs.Problems.{TruthTables};
ghost use Rattle.symmetries.specs.Orbits.{TakesWidths};
ghost use Rattle.compaction.specs.Requests.{AreMembersOf};
ghost use Rattle.compaction.specs.Rows.{HoldsRows, IsWidthRow};

use crate::high_walk::ByteRows;
use order_model::{Mask, VarIx, WidthRow, contains, next_member};
use symmetries::Image;

/// The row that has, at each variable x in `needed`, the entry of `row` at `variables[x]`, and 0
/// elsewhere. None if one of these `variables[x]` is not in `asked`, or is 16 or more.
fn members_moved(
    row: &WidthRow,
    asked: Mask,
    variables: &[VarIx; 16],
    needed: Mask,
) -> Option<WidthRow>
    ensures asked { IsSome result → (x : ℕ) → x < 16 → bit_at needed x ≡ 1 →
        bit_at asked (slice_index variables.now x) ≡ 1 }
    ensures row { IfSome result (λ moved. (x : ℕ) → x < 16 → slice_index moved x ≡
        (if bit_at needed x == 1 then slice_index row.now (slice_index variables.now x) else 0)) }
{
    let mut found = [0; 16];
    let mut from = 0;
    while let Some(x) = next_member(needed, from) {
        let variable = variables[x as usize];
        if variable >= 16 || !contains(asked, variable) {
            return None;
        }
        found[x as usize] = row[variable as usize];
        from = x + 1;
    }
    Some(found)
}

impl ByteRows {
    /// Whether these rows have the widths of all members of `set`.
    pub(crate) fn is_whole(&self, set: Mask) -> bool {
        self.request.needed.get(usize::from(set >> 8)) == Some(&set)
    }

    /// The row of a set whose image is `image`, from the row of `image.set`: at each x in `needed`
    /// the width of x over the other members, and 0 elsewhere. None if one of these widths isn't
    /// among these rows.
    pub(crate) fn row_by_image(&self, image: &Image, needed: Mask) -> Option<WidthRow>
        ensures { (p q : TruthTables) (set : ℕ) → p.inputs ≤ 16 → HoldsRows q self.now →
            TakesWidths p q set image.now.set image.now.variables →
            image.now.set % 256 ≡ self.now.low → AreMembersOf p.inputs set needed →
            IfSome result (IsWidthRow p set needed) }
    {
        let high = usize::from(image.set >> 8);
        let asked = *self.request.needed.get(high)?;
        let row = self.rows.get(high)?;
        members_moved(row, asked, &image.variables, needed)
    }
}
