// Replays a script of calls on the block cache: docs/REPLAY.md.
#![tactic(auto)]

mod options;
mod report;
mod run;

use options::{Source, open_source};
use replay_calls::state::Session;
use replay_text::input::Input;
use replay_text::output::Output;
use report::report;
use run::run_script;
use std::io::Read;

fn replay<R: Read>(rt: HostRuntime, source: &mut R) {
    let mut buffer = [0u8; 16384];
    let mut line = [0u8; 8192];
    let mut printed = [0u8; 16384];
    let mut input = Input::new(source, &mut buffer, &mut line);
    let mut session = Session::new(Output::new(&mut printed));
    run_script(&mut input, &mut session);
    report(rt, input.error(), &mut session);
}

fn main(rt: HostRuntime) {
    let mut path = io::buffer();
    match open_source(rt, &mut path) {
        None => {}
        Some(Source::Input) => replay(rt, &mut rt.stdin()),
        Some(Source::Script(mut script)) => replay(rt, &mut script),
    }
}
