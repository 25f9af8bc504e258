//! What a command wrote, into a buffer.
ghost use Rattle.std.specs.Prelude.{◌≡◌, ◌≤◌, length};

use rt_outside::MemorySink;
use run_base::Status;
use std::alloc::AllocError;

/// Copies what was written to the front of `out`, as far as it has room, and answers the status: that of want of memory, with
/// nothing written, where there was none.
pub fn answered(
    ran: Result<(Status, MemorySink), AllocError>,
    out: &mut [u8],
    written: &mut usize,
) -> u8
    ensures within { written.new ≤ length out.new }
    ensures kept { length out.new ≡ length out.old }
{
    *written = 0;
    let Ok((status, sink)) = ran else {
        return Status::Memory.number();
    };
    let text = sink.written();
    let count = text.len().min(out.len());
    out[..count].copy_from_slice(&text[..count]);
    *written = count;
    status.number()
}
