// Parts of the file, each with the place where it lies.
ghost use Rattle.std.specs.Prelude.{◌≡◌, ◌+◌, ◌-◌, ◌^◌, ◌<◌, ◌≤◌, length, take, drop};

// Some bytes of the file, and the offset of the first of them.
#[derive(Clone, Copy)]
pub(crate) struct Part<'a> {
    pub(crate) bytes: &'a [u8],
    pub(crate) start: usize,
    ghost within: { start + length bytes.now < 2 ^ 64 },
}

impl<'a> Part<'a> {
    // All of the file.
    pub(crate) fn whole(file: &'a [u8]) -> Part<'a>
        ensures bytes { result.bytes.now ≡ file.now }
        ensures start { result.start ≡ 0 }
    {
        Part {
            bytes: file,
            start: 0,
        }
    }

    // The bytes after the first `size`.
    pub(crate) fn after(self, size: usize) -> Part<'a>
        requires { size ≤ length self.bytes.now }
        ensures bytes { result.bytes.now ≡ drop size self.entry.bytes.now }
        ensures start { result.start ≡ self.entry.start + size }
    {
        Part {
            bytes: &self.bytes[size..],
            start: self.start + size,
        }
    }

    // The bytes from one place to another.
    pub(crate) fn between(self, from: usize, to: usize) -> Part<'a>
        requires { (from ≤ to) × (to ≤ length self.bytes.now) }
        ensures bytes { result.bytes.now ≡ take (to - from) (drop from self.entry.bytes.now) }
        ensures start { result.start ≡ self.entry.start + from }
    {
        Part {
            bytes: &self.bytes[from..to],
            start: self.start + from,
        }
    }
}

// A box of the file: the offset of its header, and its contents.
#[derive(Clone, Copy)]
pub(crate) struct FoundBox<'a> {
    pub(crate) at: usize,
    pub(crate) contents: Part<'a>,
}
