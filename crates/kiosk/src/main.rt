// Runs the schedule on standard input and writes its lines to standard output.
#![tactic(auto)]

use input::read_full;

fn main(rt: HostRuntime) {
    // a sizes record, 6,000 steps and the record after them: no later byte can change a line
    let mut input = [0u8; lines::INPUT];
    // room for every run, as `lines::run` asks
    let mut out = [0u8; lines::ROOM];
    let got = read_full(&mut rt.stdin(), &mut input);
    let n = lines::run(&input[..got], &mut out);
    // where standard output takes no more there is no one left to tell
    let _ = rt.write_all(&out[..n]);
}
