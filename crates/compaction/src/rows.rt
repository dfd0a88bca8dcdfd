//! The widths of a set: from rows that were found ahead, or else by a walk. A row that was found
//! ahead belongs to one set, and serves every set whose image that set is.

ghost use Rattle.std.specs.Prelude.{◌≡◌, ◌^◌, ◌<◌, ◌≤◌, IfOk, IfSome};
ghost use Rattle.compaction.specs.Preparations.{IsImageOf};
ghost use Rattle.compaction.specs.Requests.{AreMembersOf};
ghost use Rattle.compaction.specs.Rows.{IsWidthRow};

use crate::high_walk::rows_by_one_walk;
use crate::preparation::Preparation;
use crate::request::WidthRequest;
use crate::strips::members_only;
use order_model::{Mask, Problem, WidthRow};
use std::alloc::{AllocError, Global};
use symmetries::Image;

/// At each x in `needed` the width of x over the other members of `set`, and 0 elsewhere, found by
/// a walk of its own.
fn walked_row(
    alloc: Global,
    problem: &Problem,
    set: Mask,
    needed: Mask,
) -> Result<WidthRow, AllocError>
    requires set { set < 2 ^ problem.now.inputs }
    requires members { AreMembersOf problem.now.inputs set needed }
    ensures { IfOk result (IsWidthRow problem.now set needed) }
{
    prove!(problem.inputs() <= 16);
    let mut request = WidthRequest::none(alloc, problem.inputs(), (set % 256) as u8)?;
    request.add(set, needed);
    let (byte, _) = rows_by_one_walk(alloc, problem, request)?;
    let row = byte.rows[usize::from(set >> 8)];
    Ok(members_only(row, needed))
}

impl<'a> Preparation<'a> {
    /// Whether the widths of all members of `set`, a set of the renamed problem, were found ahead.
    pub fn is_found(&self, set: Mask) -> bool {
        match self.rows_at(set) {
            Some(byte) => byte.is_whole(set),
            None => false,
        }
    }

    /// The row of `set` for the members in `needed`, from the row of `image`, the set's image in
    /// the renamed problem. None if one of these widths was not found ahead.
    fn found_row(&self, set: Mask, needed: Mask, image: &Image) -> Option<WidthRow>
        requires members { AreMembersOf self.now.problem.inputs set needed }
        requires image { IsImageOf self.now set image.now }
        ensures { IfSome result (IsWidthRow self.now.problem set needed) }
    {
        prove!(self.problem().inputs() <= 16);
        let byte = self.rows_at(image.set)?;
        byte.row_by_image(image, needed)
    }

    /// At each x in `needed` the width of x over the other members of `set`, and 0 elsewhere. They
    /// are read from the rows that were found ahead or, if one is missing there, found by a walk.
    /// `image` is the set's image.
    pub fn row(
        &self,
        alloc: Global,
        set: Mask,
        needed: Mask,
        image: &Image,
    ) -> Result<WidthRow, AllocError>
        requires set { set < 2 ^ self.now.problem.inputs }
        requires members { AreMembersOf self.now.problem.inputs set needed }
        requires image { IsImageOf self.now set image.now }
        ensures { IfOk result (IsWidthRow self.now.problem set needed) }
    {
        match self.found_row(set, needed, image) {
            Some(row) => Ok(row),
            None => walked_row(alloc, self.problem(), set, needed),
        }
    }
}
