use crate::variables::Mask;

/// A set that a certificate lists, with the cost that the certificate states for it.
#[derive(Clone, Copy, Debug, PartialEq, Eq)]
pub struct ListedCell {
    pub mask: Mask,
    pub cost: u32,
}
