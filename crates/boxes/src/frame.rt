// One box header: the length, the type, and whether the box lies within its container.
ghost use Rattle.std.specs.Prelude.{◌≡◌, ◌+◌, not, [], ◌∷◌, length, IfOk, nat_lt};
ghost use Rattle.boxes.specs.Field.{field};
ghost use Rattle.boxes.specs.Frame.{Within, framed, framed_by, frame_made, length_tests};
ghost use Rattle.boxes.specs.Tests.{judged};

use crate::field::read64;
use crate::reason::Reason;

// A box that lies within its container: its type code, the size of its header and its whole length, in bytes.
#[derive(Clone, Copy)]
pub struct Frame {
    pub code: u32,
    pub header: usize,
    pub size: usize,
}

// The box that stands at the front of what is left of a container, or why there is none.
// `top` says that the container is the file, where a length of 0 means up to the file's end.
pub fn read_frame(left: &[u8], top: bool) -> Result<Frame, Reason>
    ensures answer { result ≡ framed top left.now }
    ensures within { IfOk result (λ f. Within f (length left.now)) }
{
    let [l0, l1, l2, l3, t0, t1, t2, t3, rest @ ..] = left else {
        return Err(Reason::Truncated);
    };
    let short = u32::from_be_bytes([*l0, *l1, *l2, *l3]);
    let code = u32::from_be_bytes([*t0, *t1, *t2, *t3]);
    sized(code, short, rest, top)
}

// The box of a type and a length, with the rest of the container after the eight bytes that say them.
fn sized(code: u32, short: u32, rest: &[u8], top: bool) -> Result<Frame, Reason>
    ensures answer { result ≡ framed_by top code short (field 8 0 rest.now) (8 + length rest.now) }
{
    let left = 8 + rest.len();
    match short {
        0 => to_end(code, left, top),
        1 => long_frame(code, rest),
        size => fitting(code, 8, size as usize, left),
    }
}

// A box of length 0: it goes to the file's end, and stands nowhere but at the top level.
fn to_end(code: u32, left: usize, top: bool) -> Result<Frame, Reason>
    ensures answer { result ≡ judged ((not top, Reason.BadLength) ∷ []) (frame_made code 8 left) }
{
    if !top {
        return Err(Reason::BadLength);
    }
    Ok(Frame {
        code,
        header: 8,
        size: left,
    })
}

// A box whose length is the eight bytes after its type, with which the rest of the container begins.
fn long_frame(code: u32, rest: &[u8]) -> Result<Frame, Reason>
    ensures answer { result ≡ judged ((nat_lt (8 + length rest.now) 16, Reason.Truncated) ∷ length_tests 16 (field 8 0 rest.now) (8 + length rest.now)) (frame_made code 16 (field 8 0 rest.now)) }
{
    let left = 8 + rest.len();
    if left < 16 {
        return Err(Reason::Truncated);
    }
    fitting(code, 16, read64(rest, 0) as usize, left)
}

// A box of a length that its header says.
fn fitting(code: u32, header: usize, size: usize, left: usize) -> Result<Frame, Reason>
    ensures answer { result ≡ judged (length_tests header size left) (frame_made code header size) }
{
    if left < size {
        return Err(Reason::Truncated);
    }
    if size < header {
        return Err(Reason::BadLength);
    }
    Ok(Frame { code, header, size })
}
