// Writes a number's digits, and the byte after them.
ghost use Rattle.std.specs.Prelude.{[], ◌∷◌, ◌++◌, length};
ghost use Rattle.text.specs.Decimal.{decimal};
ghost use Rattle.text.specs.Paged.{HasRoom, Wrote};

use crate::page::Page;

impl Page<'_> {
    // The digits of a number: those of a tenth of it first, where that is not 0, and then the last one.
    #[tactic(auto, using(crate::specs::Digits::decimal_few))]
    pub(crate) fn put_number(&mut self, n: u32)
        requires { HasRoom (length (decimal n)) self.old }
        ensures { Wrote self.old (decimal n) self.new }
    {
        if n < 10 {
            return self.put_byte(b'0' + n as u8);
        }
        self.put_number(n / 10);
        self.put_byte(b'0' + (n % 10) as u8);
    }

    // A number and the byte after it, a space or a newline.
    pub(crate) fn put_field(&mut self, n: u32, after: u8)
        requires { HasRoom (length (decimal n ++ after ∷ [])) self.old }
        ensures { Wrote self.old (decimal n ++ after ∷ []) self.new }
    {
        self.put_number(n);
        self.put_byte(after);
    }
}
