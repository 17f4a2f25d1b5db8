// How a run ends.
ghost use Rattle.std.specs.Prelude.{◌≡◌, MatchResult};
ghost use Rattle.sentences.specs.Ends.{ended, stopped, end_of};

use machine::State;
use schedule::Stop;
use schedule::going::Calls;
use schedule::opening::open;

// The state with which the run over this input ends, or why it stops.
pub(crate) fn end(input: &[u8]) -> Result<State, Stop>
    ensures { MatchResult result (λ state. end_of input.now ≡ ended state) (λ _. end_of input.now ≡ stopped) }
{
    let opened = open(input);
    opened.verdict?;
    let mut now_at = opened.state;
    let mut calls = Calls::new(input);
    while let Some(call) = calls.next()? {
        now_at = now_at.step(call).state;
    }
    Ok(now_at)
}
