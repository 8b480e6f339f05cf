// A writer into a buffer that its caller lends.
ghost use Rattle.std.specs.Prelude.{◌≡◌, [], ◌∷◌};
ghost use Rattle.number.specs.Texts.{when, line_end};
ghost use Rattle.number.specs.Writer.{wrote};

/// Where the next byte goes in a buffer. What the buffer has no room for is left out.
#[derive(Drop)]
pub struct Writer<'a> {
    pub(crate) out: &'a mut [u8],
    pub(crate) at: usize,
}

impl<'a> Writer<'a> {
    /// A writer from an offset of the buffer on.
    pub fn at(out: &'a mut [u8], at: usize) -> Writer<'a>
        ensures same_buffer { result.out.ghost_name ≡ out.entry.ghost_name }
        ensures bytes { result.out.now ≡ out.old }
        ensures offset { result.at ≡ at }
    {
        Writer { out, at }
    }

    /// The offset behind what is written.
    pub fn offset(&self) -> usize
        ensures { result ≡ self.now.at }
    {
        let Writer { at, .. } = self;
        *at
    }

    /// Writes a byte.
    #[tactic(auto, using(crate::proofs::Wrote::wrote_byte, crate::proofs::Wrote::wrote_full))]
    pub fn byte(&mut self, byte: u8)
        ensures { self.new ≡ wrote self.old (byte ∷ []) }
    {
        if self.at < self.out.len() {
            self.out[self.at] = byte;
            self.at += 1;
        }
    }

    /// Writes a byte where it is wanted.
    #[tactic(auto, using(crate::proofs::Wrote::wrote_nothing))]
    pub(crate) fn when(&mut self, wanted: bool, byte: u8)
        ensures { self.new ≡ wrote self.old (when wanted byte) }
    {
        if wanted {
            self.byte(byte);
        }
    }

    /// Writes a text.
    pub fn text(&mut self, text: &[u8])
        ensures { self.new ≡ wrote self.old text.now }
    {
        for byte in text {
            self.byte(*byte);
        }
    }

    /// Writes CR and LF, which end a reply.
    pub fn line_end(&mut self)
        ensures { self.new ≡ wrote self.old line_end }
    {
        self.text(b"\r\n");
    }
}
