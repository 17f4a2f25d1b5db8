// Puts words with numbers filled in.
ghost use Rattle.std.specs.Prelude.{◌+◌, ◌*◌, ◌≤◌, length};
ghost use Rattle.text.specs.Paged.{HasRoom, Wrote, PutOn};
ghost use Rattle.text.specs.Words.{filled};

use crate::page::Page;

impl Page<'_> {
    // A template with the numbers in the places of its `%`, 0 where none is left.
    fn put_parts(&mut self, template: &[u8], numbers: &[u8])
        requires { HasRoom (3 * length template.now) self.old }
        ensures within { self.new.at ≤ self.old.at + 3 * length template.now }
        ensures wrote { Wrote self.old (filled template.now numbers.now) self.new }
    {
        let mut left = numbers.iter();
        for &byte in template {
            if byte == b'%' {
                let number = left.next().copied().unwrap_or(0);
                self.put_number(u32::from(number));
            } else {
                self.put_byte(byte);
            }
        }
    }

    // The same, where there is room for three bytes a byte of the template: no number has more than three digits.
    pub fn put_filled(&mut self, template: &[u8], numbers: &[u8])
        ensures within { self.new.at ≤ self.old.at + 3 * length template.now }
        ensures put { PutOn (3 * length template.now) (filled template.now numbers.now) self.old self.new }
    {
        let Some(room) = self.room() else {
            return;
        };
        if template.len() <= room / 3 {
            self.put_parts(template, numbers);
        }
    }
}
