// Bytes that are written into a buffer from a place on.
ghost use Rattle.std.specs.Prelude.{◌≡◌};
ghost use Rattle.raster.specs.Shown.{put_answer, put_buffer};

use crate::shortages::Shortage;

// Writes `bytes` into `buffer` from `at` on, and answers the place after them; refused, with nothing written, where
// they do not fit.
pub(crate) fn put(buffer: &mut [u8], at: usize, bytes: &[u8]) -> Result<usize, Shortage>
    ensures answer { result ≡ put_answer buffer.old at bytes.now }
    ensures buffer { buffer.new ≡ put_buffer buffer.old at bytes.now }
{
    if at > buffer.len() || bytes.len() > buffer.len() - at {
        return Err(Shortage::Buffer);
    }
    let end = at + bytes.len();
    buffer[at..end].copy_from_slice(bytes);
    Ok(end)
}
