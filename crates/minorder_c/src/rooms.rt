//! Writing to buffers that a caller lends.

ghost use Rattle.std.specs.Prelude.{◌≡◌, ◌≤◌, ◌++◌, drop, length};

/// More is to be written than the caller has room for.
pub(crate) const SHORT_ROOM: u32 = 7;

/// Copies `items` to the front of `buffer`. The rest of it stays.
pub(crate) fn put_front<T: Copy>(buffer: &mut [T], items: &[T])
    requires { length items.now ≤ length buffer.old }
    ensures { buffer.new ≡ items.now ++ drop (length items.now) buffer.old }
{
    let (front, _) = buffer.split_at_mut(items.len());
    front.copy_from_slice(items);
}
