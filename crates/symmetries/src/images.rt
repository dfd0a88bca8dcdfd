//! Lists of partners that are exchanges, and the images of sets under them.

ghost use Rattle.std.specs.Prelude.{◌≡◌, ℕ, ◌++◌, ◌<◌, ◌≤◌, ◌^◌, bit_or, map, length, slice_index, IfOk, OnOk, IsTrue};
ghost use Rattle.symmetries.specs.Exchanges.{IsExchange};
ghost use Rattle.symmetries.specs.Images.{AreImages};

use order_model::{Mask, VarIx};
use std::alloc::{AllocError, Global};

/// Whether `partners` lists an exchange of `inputs` variables.
pub(crate) fn is_exchange(inputs: u8, partners: &[VarIx]) -> bool
    ensures { IsTrue result → IsExchange inputs partners.now }
{
    if partners.len() != inputs as usize {
        return false;
    }
    for x in 0..inputs {
        let partner = partners[x as usize];
        if partner >= inputs || partners[partner as usize] != x {
            return false;
        }
    }
    true
}

/// Adds a variable x, whose partner is `partner`, to `images`, which has the image of each set of
/// variables below x at its mask.
fn add_variable(images: &mut Vec<Mask>, partner: VarIx) -> Result<(), AllocError>
    requires partner { partner < 16 }
    ensures { OnOk result
        (images.new.items ≡ images.old.items
        ++ map (λ image. bit_or image (2 ^ partner)) images.old.items) }
{
    for set in 0..images.len() {
        let image = images[set] | 1 << partner;
        images.push(image)?;
    }
    Ok(())
}

/// The images of all sets of `inputs` variables, each at the set's mask, under the exchange in
/// which `partners[x]` is the partner of x.
pub(crate) fn images_of(
    alloc: Global,
    inputs: u8,
    partners: &[VarIx],
) -> Result<Vec<Mask>, AllocError>
    requires few { inputs ≤ 16 }
    requires exchange { IsExchange inputs partners.now }
    ensures { IfOk result (λ v. AreImages inputs partners.now v.items) }
{
    let mut images = Vec::with_capacity(alloc, 1usize << inputs)?;
    images.push(0)?;
    for x in 0..inputs {
        add_variable(&mut images, partners[x as usize])?;
    }
    Ok(images)
}

/// Whether no function changes if each point p takes the place of its image `images[p]`.
/// `values[p]` has the values of all functions at p as one number.
pub(crate) fn are_alike(values: &[u16], images: &[Mask]) -> bool
    requires long { length images.now ≡ length values.now }
    requires inside { (p : ℕ) → p < length images.now →
        slice_index images.now p < length values.now }
    ensures { IsTrue result → (p : ℕ) → p < length values.now →
        slice_index values.now (slice_index images.now p) ≡ slice_index values.now p }
{
    for point in 0..values.len() {
        let image = images[point] as usize;
        if values[image] != values[point] {
            return false;
        }
    }
    true
}
