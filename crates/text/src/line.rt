// Puts a line of numbers.
ghost use Rattle.std.specs.Prelude.{[], ◌∷◌, ◌++◌, map, length};
ghost use Rattle.text.specs.Decimal.{decimal};
ghost use Rattle.text.specs.Fields.{joined};
ghost use Rattle.text.specs.Paged.{HasRoom, Wrote, PutWholeOn};

use crate::page::Page;
use crate::size::is_longer;

impl Page<'_> {
    // Numbers as fields: a space after each of these, a newline after the last.
    fn put_numbers(&mut self, front: &[u32], last: u32)
        requires { HasRoom (length (joined (map decimal (front.now ++ last ∷ [])))) self.old }
        ensures { Wrote self.old (joined (map decimal (front.now ++ last ∷ []))) self.new }
    {
        for &number in front {
            self.put_field(number, b' ');
        }
        self.put_field(last, b'\n');
    }

    // The line of these numbers, where there is room for it.
    pub fn put_line(&mut self, numbers: &[u32])
        ensures { PutWholeOn (joined (map decimal numbers.now)) self.old self.new }
    {
        let Some((&last, front)) = numbers.split_last() else {
            return self.put_bytes(b"\n");
        };
        let Some(room) = self.room() else {
            return;
        };
        if !is_longer(numbers, room) {
            self.put_numbers(front, last);
        }
    }
}
