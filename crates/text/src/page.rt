// A lent buffer and the place in it where the next byte goes. How much room there is is asked for in clauses (`HasRoom`) and not in the type:
// a ghost field beside a `&mut` is not covered.
ghost use Rattle.std.specs.Prelude.{◌≡◌, ◌-◌, ◌≤◌, [], ◌∷◌, SomeIff, length};
ghost use Rattle.text.specs.Paged.{HasRoom, Wrote, PutWholeOn};

#[derive(Drop)]
pub struct Page<'a> {
    pub(crate) out: &'a mut [u8],
    at: usize,
}

impl<'a> Page<'a> {
    // The buffer from this place on, which may be past its end.
    pub fn new(out: &'a mut [u8], at: usize) -> Page<'a>
        ensures same { result.out.ghost_name ≡ out.entry.ghost_name }
        ensures bytes { result.out.now ≡ out.old }
        ensures place { result.at ≡ at }
    {
        Page { out, at }
    }

    pub fn place(&self) -> usize
        ensures { result ≡ self.now.at }
    {
        self.at
    }

    // How many bytes there is room for from the place on.
    pub(crate) fn room(&self) -> Option<usize>
        ensures { SomeIff result (self.now.at ≤ length self.now.out.now) (length self.now.out.now - self.now.at) }
    {
        self.out.len().checked_sub(self.at)
    }

    pub(crate) fn put_byte(&mut self, byte: u8)
        requires { HasRoom 1 self.old }
        ensures { Wrote self.old (byte ∷ []) self.new }
    {
        self.out[self.at] = byte;
        self.at += 1;
    }

    // The bytes, where there is room for them.
    pub fn put_bytes(&mut self, bytes: &[u8])
        ensures { PutWholeOn bytes.now self.old self.new }
    {
        let Some(room) = self.room() else {
            return;
        };
        if room < bytes.len() {
            return;
        }
        let end = self.at + bytes.len();
        self.out[self.at..end].copy_from_slice(bytes);
        self.at = end;
    }
}
