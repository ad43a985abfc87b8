// A script's run, line by line.
use crate::timed::{Timer, run_call};
use blocks_cache::cache::{Cache, empty};
use replay_calls::load::{begin_load, load_line};
use replay_calls::raw::set_raw;
use replay_calls::state::Session;
use replay_text::commands::Command;
use replay_text::input::Input;
use replay_text::raw::Raw;
use std::io::Read;

// How often the next line's call is to be made, where this line says it.
fn run_command(
    timer: Timer,
    session: &mut Session<'_>,
    cache: &mut Cache,
    command: &Command,
) -> Option<u32> {
    match command {
        Command::Call(call) => run_call(timer, session, cache, call),
        Command::Load => begin_load(session, cache),
        Command::Dumped(line) => load_line(session, cache, line),
        Command::Time(times) => return Some(*times),
        // what looks at the cache or the slice is not of this program's language, nor are the other settings
        Command::Raw(Raw::Slice { .. })
        | Command::Look(_)
        | Command::Slice(_)
        | Command::Number(_) => session.complain_of_command(),
        Command::Raw(raw) => set_raw(cache, raw),
    }
    None
}

fn run_line<R: Read>(
    timer: Timer,
    input: &mut Input<'_, '_, '_, R>,
    session: &mut Session<'_>,
    cache: &mut Cache,
) -> Option<u32> {
    input.next_line();
    session.count_line();
    match input.command(session.is_loading()) {
        Err(unexpected) => session.complain(unexpected),
        Ok(None) => {}
        Ok(Some(command)) => return run_command(timer, session, cache, &command),
    }
    None
}

pub fn run_script<R: Read>(
    clock: HostRuntime,
    input: &mut Input<'_, '_, '_, R>,
    session: &mut Session<'_>,
) {
    let mut cache = empty(0).cache;
    let mut times = None;
    // A proved loop has to end; no input has so many lines.
    for _ in 0..u64::MAX {
        if input.has_ended() || session.out.is_broken() {
            break;
        }
        times = run_line(Timer { clock, times }, input, session, &mut cache);
    }
}
