// Times calls on a cache that a script loads: bench/run measures with it. A line is a call, a line of a load or a `raw` line (docs/REPLAY.md), or `time N`: the call of the next line
// is made N times, each time on the cache as it stands, its answer is printed once, and after it `time N calls T microseconds`, the processor time of the N calls alone.
#![tactic(auto)]

mod clock;
mod run;
mod timed;

use replay_calls::state::Session;
use replay_text::input::Input;
use replay_text::output::Output;
use run::run_script;

fn main(rt: HostRuntime) {
    let mut buffer = io::large_buffer();
    let mut line = [0u8; 8192];
    let mut printed = io::large_buffer();
    let mut script = rt.stdin();
    let mut input = Input::new(&mut script, &mut buffer, &mut line);
    let mut session = Session::new(Output::new(&mut printed));
    run_script(rt, &mut input, &mut session);
    session.out.flush();
}
