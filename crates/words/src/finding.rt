// Finds the words of a line.
ghost use Rattle.std.specs.Prelude.{◌≡◌, ◌+◌, drop};
ghost use Rattle.words.specs.Words.{kind_of, goes_on, run_of, word_at, bytes_of};

use crate::{Kind, Run, Word};

impl Kind {
    #[tactic(auto, unfolding(crate::specs::Words::kind_of))]
    fn of(b: u8) -> Kind
        ensures { result ≡ kind_of b }
    {
        match b {
            b' ' | b'\t' | b'\r' => Kind::Blank,
            b'\n' => Kind::LineEnd,
            b'#' => Kind::Comment,
            _ => Kind::Word,
        }
    }
}

impl Run {
    // Whether a run takes in a byte of this kind.
    #[tactic(auto, unfolding(crate::specs::Words::goes_on))]
    fn takes(self, kind: Kind) -> bool
        ensures { result ≡ goes_on self kind }
    {
        match self {
            Run::Word => kind == Kind::Word,
            Run::Blanks => kind == Kind::Blank,
            Run::Line => kind != Kind::LineEnd,
        }
    }
}

// The first place from `at` on whose byte is not in the run, or the text's end.
pub fn past(text: &[u8], at: usize, run: Run) -> usize
    ensures { result ≡ at + run_of run (drop at text.now) }
{
    for i in at..text.len() {
        if !run.takes(Kind::of(text[i])) {
            return i;
        }
    }
    at.max(text.len())
}

// The first word from `at` on.
#[tactic(auto, unfolding(crate::specs::Words::word_at))]
pub fn word_at(text: &[u8], at: usize) -> Word
    ensures { result ≡ word_at text.now at }
{
    let from = past(text, at, Run::Blanks);
    let to = past(text, from, Run::Word);
    Word { from, to }
}

// The bytes of a word, those of them that the text has.
pub fn bytes_of(text: &[u8], word: Word) -> &[u8]
    ensures { result.now ≡ bytes_of text.now word }
{
    text.get(word.from..word.to.min(text.len())).unwrap_or(&[])
}
