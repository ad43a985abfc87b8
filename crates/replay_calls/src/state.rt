// What a line needs to know beside the cache and the slice, what is counted, and where answers go.
use block_records::questions::Refusal;
use replay_text::output::Output;
use replay_text::raw::GroupPlace;
use replay_text::unexpected::{Expected, Unexpected};
use std::fmt;
use std::fmt::Write;

// What a script has set, and what was counted.
#[derive(Clone, Copy)]
pub struct State {
    // the number of the line
    pub line: u64,
    // how many places of the slice are lent
    pub places: usize,
    // whether answers are led by the number of their line
    pub numbered: bool,
    // the number of the line `load`, within a load
    pub load: Option<u64>,
    // where a dump's entries go
    pub group: Option<GroupPlace>,
    // what was counted
    pub calls: u64,
    pub refused: u64,
    pub bad: u64,
}

// That, and where answers go.
#[derive(Drop)]
pub struct Session<'a> {
    pub out: Output<'a>,
    pub state: State,
}

impl<'a> Session<'a> {
    pub fn new(out: Output<'a>) -> Self {
        Session {
            out,
            state: State {
                line: 0,
                places: 128,
                numbered: false,
                load: None,
                group: None,
                calls: 0,
                refused: 0,
                bad: 0,
            },
        }
    }

    pub fn is_loading(&self) -> bool {
        self.state.load.is_some()
    }

    pub fn count_line(&mut self) {
        self.state.line = self.state.line.saturating_add(1);
    }

    // What is printed may fail to go out, and is then dropped.
    pub fn print<D: fmt::Display + Drop>(&mut self, shown: D) {
        let _ = writeln!(self.out, "{shown}");
    }

    // The number of the line before its answer, where that is asked for.
    fn lead(&mut self) {
        if self.state.numbered {
            let line = self.state.line;
            let _ = write!(self.out, "{line}: ");
        }
    }

    // The line is bad: nothing else changes.
    pub fn complain(&mut self, unexpected: Unexpected) {
        self.state.bad = self.state.bad.saturating_add(1);
        let line = self.state.line;
        let _ = writeln!(self.out, "line {line}: {unexpected}");
    }

    // A line that is none of the program's language.
    pub fn complain_of_command(&mut self) {
        self.complain(Unexpected::line(Expected::Command));
    }

    // The answer of a call.
    pub fn answer<D: fmt::Display + Drop>(&mut self, answer: Result<D, Refusal>) {
        self.lead();
        self.state.calls = self.state.calls.saturating_add(1);
        match answer {
            Ok(shown) => self.print(shown),
            Err(refusal) => {
                self.state.refused = self.state.refused.saturating_add(1);
                self.print(refusal);
            }
        }
    }

    // `load` itself; the cache is emptied beside it.
    pub fn begin_load(&mut self) {
        self.state.load = Some(self.state.line);
        self.state.group = None;
    }

    // The end of a load.
    pub fn end_load(&mut self) {
        self.state.load = None;
        self.lead();
        self.print("loaded");
    }
}
