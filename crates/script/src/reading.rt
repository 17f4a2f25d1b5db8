// Reads the fields of a line, one after the other.
ghost use Rattle.std.specs.Prelude.{◌≡◌, Result};
ghost use Rattle.std.specs.Fn.{FnOnceReturnsAt};
ghost use Rattle.words.specs.declared.Why.{Why};
ghost use Rattle.words.specs.Words.{word_at, bytes_of};
ghost use Rattle.script.specs.Reading.{placed, after, ended_of};

use crate::{Fault, Place};
use words::Why;
use words::finding::{bytes_of, word_at};

// What is left of a line: the text from a place on.
#[derive(Clone, Copy, Debug)]
pub(crate) struct Fields<'a> {
    pub text: &'a [u8],
    pub at: usize,
}

impl<'a> Fields<'a> {
    // The next field, as `read` reads its word. What is left is all after the word.
    #[tactic(auto, unfolding(crate::specs::Reading::placed, crate::specs::Reading::after))]
    pub(crate) fn field<T, F: FnOnce(&[u8]) -> Result<T, Why>>(
        &mut self,
        place: Place,
        read: F,
    ) -> Result<T, Fault>
        requires { F.IsAlwaysCallable read }
        ensures field { (said : Result T Why)
            × FnOnceReturnsAt F.FnOnce read (bytes_of self.old.text.now (word_at self.old.text.now self.old.at)) said
            × (result ≡ placed place (word_at self.old.text.now self.old.at) said) }
        ensures text { self.new.text ≡ self.old.text }
        ensures left { self.new.at ≡ after self.old.text.now self.old.at }
    {
        let word = word_at(self.text, self.at);
        self.at = word.to;
        read(bytes_of(self.text, word)).map_err(|why| Fault { why, place, word })
    }

    // The end of a line: one word more is too many.
    #[tactic(auto, unfolding(crate::specs::Reading::ended_of, crate::specs::Reading::without_more))]
    pub(crate) fn end(&self, place: Place) -> Result<(), Fault>
        ensures { result ≡ ended_of self.now.text.now self.now.at place }
    {
        let word = word_at(self.text, self.at);
        if word.from < word.to {
            return Err(Fault {
                why: Why::TooMany,
                place,
                word,
            });
        }
        Ok(())
    }
}
