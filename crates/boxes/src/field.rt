// Big-endian numbers at a place of a header's contents. Past the end every byte counts as 0, so that any place can be read.
ghost use Rattle.std.specs.Prelude.{◌≡◌, ◌^◌, ◌<◌, ◌≤◌, slice_index};
ghost use Rattle.boxes.specs.Field.{field, part};

// The byte at a place.
pub fn read8(bytes: &[u8], at: usize) -> u8
    ensures value { result ≡ slice_index bytes.now at }
{
    if at < bytes.len() { bytes[at] } else { 0 }
}

// So many bytes at a place, one by one.
#[cold]
#[inline(never)]
fn bytes_one_by_one<const N: usize>(bytes: &[u8], start: usize) -> [u8; N]
    requires { (N ≤ 8) × (start < 2 ^ 16) }
    ensures value { result ≡ part N start bytes.now }
{
    // A loop: of an array that a closure fills byte by byte it is not known what each call gave.
    let mut part = [0; N];
    for (place, byte) in part.iter_mut().enumerate() {
        *byte = read8(bytes, start + place);
    }
    part
}

// So many bytes at a place: all of them at once, where they are there. The other way is a function of its own, which is not
// compiled into this one, so that a number that is there is read without an array.
fn bytes_at<const N: usize>(bytes: &[u8], at: u16) -> [u8; N]
    requires { N ≤ 8 }
    ensures value { result ≡ part N at bytes.now }
{
    let start = usize::from(at);
    if let Some(rest) = bytes.get(start..start + N)
        && let Some(whole) = rest.first_chunk()
    {
        return *whole;
    }
    bytes_one_by_one(bytes, start)
}

// The 16-bit number at a place.
pub fn read16(bytes: &[u8], at: u16) -> u16
    ensures value { result ≡ field 2 at bytes.now }
{
    u16::from_be_bytes(bytes_at(bytes, at))
}

// The 32-bit number at a place.
pub fn read32(bytes: &[u8], at: u16) -> u32
    ensures value { result ≡ field 4 at bytes.now }
{
    u32::from_be_bytes(bytes_at(bytes, at))
}

// The 64-bit number at a place.
pub fn read64(bytes: &[u8], at: u16) -> u64
    ensures value { result ≡ field 8 at bytes.now }
{
    u64::from_be_bytes(bytes_at(bytes, at))
}
