// Whole schedules through the machine, for a program in another language that links this library: bench/ times it.
#![tactic(auto)]

mod mixing;

use machine::State;
use mixing::{mixed_answer, mixed_places};
use schedule::going::Calls;
use schedule::opening::open;

// The checksum of the answers to an input's calls, and, where the run ends and does not stop, of the five places after them.
fn steps(input: &[u8], state: State) -> u64 {
    let mut sum = 0;
    let mut now_at = state;
    let mut calls = Calls::new(input);
    while let Ok(found) = calls.next() {
        let Some(call) = found else {
            return mixed_places(sum, now_at.count().places);
        };
        let outcome = now_at.step(call);
        sum = mixed_answer(sum, outcome.answer);
        now_at = outcome.state;
    }
    sum
}

// A sizes record and the steps after it: the checksum of all answers and of the five places at the end. An input that opens no machine
// gives 0.
#[unsafe(no_mangle)]
pub extern "C" fn drive_schedule(input: &[u8]) -> u64 {
    let opened = open(input);
    let Ok(()) = opened.verdict else {
        return 0;
    };
    steps(input, opened.state)
}
