//! Which widths are needed of the sets of a whole layer, and of later ones.

ghost use Rattle.std.specs.Prelude.{◌≡◌, ◌<◌, ◌≤◌, ◌^◌, ◌%◌, IfSome};

use crate::request::{Wanted, WidthRequest};
use order_model::{Mask, contains};
use std::alloc::{AllocError, Global};
use symmetries::Image;

/// The widths that are needed of a problem's sets, of any sizes: a request for each low byte.
#[derive(Drop)]
pub struct Requests {
    /// `bytes[b]` is the request for the low byte b. With fewer than eight variables there are
    /// fewer low bytes.
    bytes: Vec<WidthRequest>,
}

/// The variables to which `image` takes those in `members`.
fn members_of_image(image: &Image, members: Mask) -> Mask {
    let mut found: Mask = 0;
    for x in 0..16u8 {
        let variable = image.variables[x as usize];
        if contains(members, x) && variable < 16 {
            found |= 1 << variable;
        }
    }
    found
}

impl Requests {
    /// Requests in which no width is needed yet.
    pub(crate) fn none(alloc: Global, inputs: u8) -> Result<Requests, AllocError>
        requires { inputs ≤ 16 }
    {
        let mut bytes = Vec::with_capacity(alloc, 256)?;
        for low in 0..(1u32 << inputs).min(256) {
            bytes.push(WidthRequest::none(alloc, inputs, low as u8)?)?;
        }
        Ok(Requests { bytes })
    }

    pub fn is_empty(&self) -> bool {
        self.bytes.iter().all(|request| request.is_empty())
    }

    /// Adds all members of the wanted sets.
    pub(crate) fn add_sets(&mut self, wanted: &Wanted<'_, '_>) {
        for request in &mut self.bytes {
            request.add_sets(wanted);
        }
    }

    /// Adds all members of those wanted sets whose low byte has a request already.
    pub(crate) fn add_sets_of_requested_bytes(&mut self, wanted: &Wanted<'_, '_>) {
        for request in &mut self.bytes {
            if !request.is_empty() {
                request.add_sets(wanted);
            }
        }
    }

    /// Requests widths of the set `image.set`: those of its members to which `image` takes
    /// variables in `members`.
    pub fn add_image(&mut self, image: &Image, members: Mask) {
        if let Some(request) = self.bytes.get_mut(usize::from(image.set % 256)) {
            request.add_members(image.set, members_of_image(image, members));
        }
    }

    /// The request for the sets with the low byte `low`; None if no width of them is needed.
    pub(crate) fn of_byte(&self, low: u8) -> Option<&WidthRequest> {
        match self.bytes.get(usize::from(low)) {
            Some(request) if !request.is_empty() => Some(request),
            _ => None,
        }
    }
}
