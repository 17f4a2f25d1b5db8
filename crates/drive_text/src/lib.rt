// The whole program on an input in memory, for a program in another language that links this library: bench/ times it.
#![tactic(auto)]

ghost use Rattle.std.specs.Prelude.{◌≡◌};
ghost use Rattle.lines.specs.Lent.{answer_of, buffer_of};

// The text of the run over this input, at the front of a lent buffer, and how many bytes it is: `lines::run` under a name for others.
#[unsafe(no_mangle)]
pub extern "C" fn drive_text(input: &[u8], out: &mut [u8]) -> usize
    ensures answer { result ≡ answer_of input.now out.old }
    ensures bytes { out.new ≡ buffer_of input.now out.old }
{
    lines::run(input, out)
}
