// The lines that are read, as commands.
use crate::dumped::{Dumped, is_dumped, read_dumped};
use crate::questions::Question;
use crate::raw::{Raw, read_raw};
use crate::records::{Verdict, read_candidate, read_received, read_verdict};
use crate::scanner::Scanner;
use crate::unexpected::{Expected, Unexpected};
use block_records::block_id::{BlockId, BlockIdShort};
use block_records::limits::ARRAY_PLACES;
use block_records::store_records::{BlockCandidate, Keys, ReceivedBlock};

#[derive(Clone, Copy)]
pub enum Call {
    StoreCollated(BlockCandidate),
    StoreReceived(ReceivedBlock),
    Validation(BlockId, Verdict),
    Boundary(Keys),
    Collect,
    RemoveNext(Keys),
    New(u32),
    Pop(u32),
    Sync(BlockId),
    Peek(u32),
    TailIds(BlockIdShort),
    Sound,
}

// What looks at the cache or the slice, or explains.
#[derive(Clone, Copy)]
pub enum Look {
    DumpRaw,
    DumpSlice,
    Dump,
    Graph,
    Explain(Question),
    Help,
}

#[derive(Clone, Copy)]
pub enum Command {
    Call(Call),
    Look(Look),
    // how many places of the slice the next calls lend
    Slice(usize),
    // whether answers are led by the number of their line
    Number(bool),
    Load,
    Dumped(Dumped),
    Raw(Raw),
    // of the benchmark's program alone: how often the call of the next line is made
    Time(u32),
}

// The names are tried in turn, in no table: one may have two words (`dump raw`), and what follows it is read at once.
fn read_store(scanner: &mut Scanner<'_>) -> Result<Option<Call>, Unexpected> {
    let call = if scanner.takes_name("store_collated") {
        Call::StoreCollated(read_candidate(scanner)?)
    } else if scanner.takes_name("store_received") {
        Call::StoreReceived(read_received(scanner)?)
    } else if scanner.takes_name("validation") {
        let id = scanner.field(" ")?;
        scanner.text(" ")?;
        Call::Validation(id, read_verdict(scanner)?)
    } else {
        return Ok(None);
    };
    Ok(Some(call))
}

fn read_other_call(scanner: &mut Scanner<'_>) -> Result<Option<Call>, Unexpected> {
    let call = if scanner.takes_name("boundary") {
        Call::Boundary(scanner.field(" ")?)
    } else if scanner.takes_name("collect") {
        Call::Collect
    } else if scanner.takes_name("remove_next") {
        Call::RemoveNext(scanner.field(" ")?)
    } else if scanner.takes_name("new") {
        Call::New(scanner.field(" ")?)
    } else if scanner.takes_name("pop") {
        Call::Pop(scanner.field(" ")?)
    } else if scanner.takes_name("sync") {
        Call::Sync(scanner.field(" ")?)
    } else if scanner.takes_name("peek") {
        Call::Peek(scanner.field(" ")?)
    } else if scanner.takes_name("tail_ids") {
        Call::TailIds(scanner.field(" ")?)
    } else if scanner.takes_name("sound") {
        Call::Sound
    } else {
        return Ok(None);
    };
    Ok(Some(call))
}

fn read_look(scanner: &mut Scanner<'_>) -> Result<Option<Look>, Unexpected> {
    let look = if scanner.takes_name("dump raw") {
        Look::DumpRaw
    } else if scanner.takes_name("dump slice") {
        Look::DumpSlice
    } else if scanner.takes_name("dump") {
        Look::Dump
    } else if scanner.takes_name("graph") {
        Look::Graph
    } else if scanner.takes_name("explain") {
        Look::Explain(scanner.field(" ")?)
    } else if scanner.takes_name("help") {
        Look::Help
    } else {
        return Ok(None);
    };
    Ok(Some(look))
}

fn read_slice(scanner: &mut Scanner<'_>) -> Result<Command, Unexpected> {
    scanner.text(" ")?;
    let places = scanner.number(0, ARRAY_PLACES, Expected::Slice)?;
    Ok(Command::Slice(places))
}

fn read_time(scanner: &mut Scanner<'_>) -> Result<Command, Unexpected> {
    scanner.text(" ")?;
    let times = scanner.number(1, u32::MAX, Expected::Times)?;
    Ok(Command::Time(times))
}

// A line outside a load that is neither a setting, a call nor one that looks.
fn read_other(scanner: &mut Scanner<'_>) -> Result<Command, Unexpected> {
    if let Some(raw) = read_raw(scanner)? {
        return Ok(Command::Raw(raw));
    }
    if is_dumped(scanner) {
        return Err(scanner.unexpected(Expected::NoLoad));
    }
    Err(scanner.unexpected(Expected::Command))
}

fn read_call_or_other(scanner: &mut Scanner<'_>) -> Result<Command, Unexpected> {
    if let Some(call) = read_store(scanner)? {
        return Ok(Command::Call(call));
    }
    if let Some(call) = read_other_call(scanner)? {
        return Ok(Command::Call(call));
    }
    if let Some(look) = read_look(scanner)? {
        return Ok(Command::Look(look));
    }
    read_other(scanner)
}

// The settings are tried first: an answer that no call stands here is as large as a call.
fn read_command(scanner: &mut Scanner<'_>) -> Result<Command, Unexpected> {
    if scanner.takes_name("slice") {
        return read_slice(scanner);
    }
    if scanner.takes_name("number on") {
        return Ok(Command::Number(true));
    }
    if scanner.takes_name("number off") {
        return Ok(Command::Number(false));
    }
    if scanner.takes_name("load") {
        return Ok(Command::Load);
    }
    if scanner.takes_name("time") {
        return read_time(scanner);
    }
    read_call_or_other(scanner)
}

// The command of a line; empty lines and comments have none. Within a load only a dump's lines are taken, and those only within a load.
pub fn read_line(line: &[u8], loading: bool) -> Result<Option<Command>, Unexpected> {
    if line.is_empty() || line.starts_with(b"#") {
        return Ok(None);
    }
    let mut scanner = Scanner::new(line);
    let command = if loading {
        Command::Dumped(read_dumped(&mut scanner)?)
    } else {
        read_command(&mut scanner)?
    };
    scanner.end()?;
    Ok(Some(command))
}
