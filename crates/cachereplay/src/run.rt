// A script's run, line by line.
use block_records::entry::{BlockCacheEntry, zero_entry};
use block_records::limits::ARRAY_PLACES;
use blocks_cache::cache::{Cache, empty};
use replay_calls::calls::run_call;
use replay_calls::dump::{dump, dump_raw, dump_slice};
use replay_calls::graph::Graph;
use replay_calls::load::{begin_load, load_line};
use replay_calls::raw::{set, set_raw};
use replay_calls::state::Session;
use replay_text::commands::{Command, Look};
use replay_text::help::Help;
use replay_text::input::Input;
use replay_text::raw::Raw;
use std::io::Read;

fn run_look(session: &mut Session<'_>, cache: &Cache, blocks: &[BlockCacheEntry], look: Look) {
    match look {
        Look::DumpRaw => dump_raw(session, cache),
        Look::DumpSlice => dump_slice(session, blocks),
        Look::Dump => dump(session, cache),
        Look::Graph => session.print(Graph(cache)),
        Look::Explain(question) => session.print(question.explained()),
        Look::Help => session.print(Help),
    }
}

fn run_command(
    session: &mut Session<'_>,
    cache: &mut Cache,
    blocks: &mut [BlockCacheEntry; ARRAY_PLACES],
    command: &Command,
) {
    match command {
        Command::Call(call) => run_call(session, cache, blocks, call),
        Command::Look(look) => run_look(session, cache, blocks, *look),
        Command::Slice(places) => session.state.places = *places,
        Command::Number(numbered) => session.state.numbered = *numbered,
        Command::Load => begin_load(session, cache),
        Command::Dumped(line) => load_line(session, cache, line),
        Command::Raw(Raw::Slice { place, entry }) => set(blocks, *place, entry),
        Command::Raw(raw) => set_raw(cache, raw),
        // of another program's language
        Command::Time(_) => session.complain_of_command(),
    }
}

// The next line. Where its reading may wait, the answers go out before it.
fn run_line<R: Read>(
    input: &mut Input<'_, '_, '_, R>,
    session: &mut Session<'_>,
    cache: &mut Cache,
    blocks: &mut [BlockCacheEntry; ARRAY_PLACES],
) {
    if !input.is_ahead() {
        session.out.flush();
    }
    input.next_line();
    if input.has_line() {
        session.count_line();
    }
    match input.command(session.is_loading()) {
        Err(unexpected) => session.complain(unexpected),
        Ok(None) => {}
        Ok(Some(command)) => run_command(session, cache, blocks, &command),
    }
}

pub fn run_script<R: Read>(input: &mut Input<'_, '_, '_, R>, session: &mut Session<'_>) {
    let mut cache = empty(0).cache;
    let mut blocks = [zero_entry(); ARRAY_PLACES];
    // A proved loop has to end; no input has so many lines.
    for _ in 0..u64::MAX {
        if input.has_ended() || session.out.is_broken() {
            break;
        }
        run_line(input, session, &mut cache, &mut blocks);
    }
}
