ghost use Rattle.std.specs.Prelude.{◌≡◌, ◌^◌, ◌<◌, ◌≤◌, ℕ, IfSome, IfOk, IfErr, OnOk, OnErr, IsErrOf, take, vec_len};
ghost use Rattle.std.specs.Io.KnownBytes.{Appends, IsAtEnd};
ghost use Rattle.counted_io.specs.Counts.{one_more};
ghost use Rattle.counted_io.specs.Reading.{Refuses};

use crate::counters::{CountedRead, CountedWrite};
use std::alloc::Global;

/// Why a device is not read to its end, or a text is not written whole.
#[derive(Clone, Copy, Debug, PartialEq, Eq)]
pub enum Refused {
    /// The device has more bytes than the limit.
    TooLong,
    /// A call of the device failed.
    Device,
    /// An allocation was refused.
    OutOfMemory,
}

/// 4 MiB, enough for most files. Pages that are never written cost nothing, and once the memory is
/// freed the C library keeps it for later allocations.
const FIRST_ROOM: usize = 1 << 22;

/// Reads a device to its end. After an error the bytes that were read are lost.
pub fn read_all<R: CountedRead>(
    alloc: Global,
    device: &mut R,
    limit: usize,
) -> Result<Vec<u8>, Refused>
    requires { limit < 2 ^ 32 }
    ensures bytes { IfOk result (λ v. IfSome (R.remaining device.old) (λ xs. v.items ≡ xs)) }
    ensures fits { IfOk result (λ v. vec_len v ≤ limit) }
    ensures end { OnOk result (IsAtEnd (R.remaining device.new)) }
    ensures ok { OnOk result (R.failures device.new ≡ R.failures device.old) }
    ensures err { IfErr result
        (Refuses limit (R.remaining device.old) (R.failures device.old) (R.failures device.new)) }
{
    let Ok(mut bytes) = Vec::with_capacity(alloc, FIRST_ROOM) else {
        return Err(Refused::OutOfMemory);
    };
    let mut piece = [0u8; 4096];
    loop {
        match device.read_some(&mut piece) {
            Err(_) => return Err(Refused::Device),
            Ok(0) => return Ok(bytes),
            Ok(n) => {
                if limit - bytes.len() < n {
                    return Err(Refused::TooLong);
                }
                if bytes.extend_from_slice(&piece[..n]).is_err() {
                    return Err(Refused::OutOfMemory);
                }
            }
        }
    }
}

/// Writes the whole of `text`. The only error is `Device`; the device may then have taken a
/// beginning of the text.
pub fn write_whole<W: CountedWrite>(device: &mut W, text: &[u8]) -> Result<(), Refused>
    ensures ok { OnOk result (Appends (W.contents device.old) (W.contents device.new) text.now) }
    ensures ok_calls { OnOk result (W.failures device.new ≡ W.failures device.old) }
    ensures err { OnErr result
        ((n : ℕ) × Appends (W.contents device.old) (W.contents device.new) (take n text.now)) }
    ensures err_calls { OnErr result (W.failures device.new ≡ one_more (W.failures device.old)) }
    ensures device { OnErr result (IsErrOf result Refused.Device) }
{
    let mut at = 0;
    while at < text.len() {
        match device.write_some(&text[at..]) {
            Err(_) | Ok(0) => return Err(Refused::Device),
            Ok(n) => at += n,
        }
    }
    Ok(())
}
