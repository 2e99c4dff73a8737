// A buffer that is filled from its front.
ghost use Rattle.std.specs.Prelude.{◌≡◌};
ghost use Rattle.writer.specs.Puts.{HasRoom, Puts};

// A buffer, and the place in it where the next bytes go.
#[derive(Drop)]
pub(crate) struct Cursor<'a> {
    out: &'a mut [u8],
    at: usize,
}

impl<'a> Cursor<'a> {
    // At the front of a buffer.
    pub(crate) fn new(out: &'a mut [u8]) -> Cursor<'a>
        ensures lends { result.out.ghost_name ≡ out.entry.ghost_name }
        ensures buffer { result.out.now ≡ out.old }
        ensures front { result.at ≡ 0 }
    {
        Cursor { out, at: 0 }
    }

    // Writes bytes, and goes on to the place after them.
    #[tactic(auto, using(crate::proofs::Puts::copied))]
    pub(crate) fn put(&mut self, bytes: &[u8])
        requires { HasRoom self.old bytes.now }
        ensures { Puts self.old self.new bytes.now }
    {
        let end = self.at + bytes.len();
        self.out[self.at..end].copy_from_slice(bytes);
        self.at = end;
    }
}
