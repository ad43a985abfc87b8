// Where a line isn't as it should be, and what was expected there.
use std::fmt;

#[derive(Clone, Copy)]
pub enum Expected {
    Command,
    // a text of the line's form
    Text(&'static str),
    Number32,
    Number64,
    Flag,
    Workchain,
    Shard,
    Key,
    Id,
    Top,
    Range,
    End,
    Verdict,
    Kind,
    Status,
    Place,
    Group,
    Room,
    NoTops,
    InLoad,
    NoLoad,
    NoShard,
    TwoIds,
    EightTops,
    Length,
    Slice,
    Question,
    Times,
}

#[derive(Clone, Copy)]
pub struct Unexpected {
    pub at: usize,
    pub expected: Expected,
}

impl Unexpected {
    // A line that is bad from its first byte on.
    pub fn line(expected: Expected) -> Self {
        Unexpected { at: 0, expected }
    }
}

impl Expected {
    fn text(self) -> &'static str {
        match self {
            Expected::Command => "a command (help lists them)",
            Expected::Text(text) => text,
            Expected::Number32 => "a number below 4294967296 without spare zeros",
            Expected::Number64 => "a number below 18446744073709551616 without spare zeros",
            Expected::Flag => "0 or 1",
            Expected::Workchain => "a workchain, -2147483648 to 2147483647 (-1 is the masterchain)",
            Expected::Shard => "a shard, WORKCHAIN:PREFIX with 16 lower-case hexadecimal digits",
            Expected::Key => "a key, SHARD:SEQNO",
            Expected::Id => "a block id, KEY:ROOT:FILE with 64 lower-case hexadecimal digits each",
            Expected::Top => "a top item, REF/ID/0 or REF/ID/1",
            Expected::Range => "a range, START..END",
            Expected::End => "the end of the line",
            Expected::Verdict => "complete or skipped",
            Expected::Kind => "kind=collated or kind=received",
            Expected::Status => "Collated, Validated, ValidationSkipped or Synced",
            Expected::Place =>
                "a place that the list has, 0 to 15 of entries and top items, 0 to 31 of ids, 0 to 159 of the slice",
            Expected::Group => "m or a shard's place, 0 to 7",
            Expected::Room => "no more than the list has places for",
            Expected::NoTops => "top=-, since a shard block has no top item",
            Expected::InLoad => "a line of a dump, since load waits for its end",
            Expected::NoLoad => "load before a line of a dump",
            Expected::NoShard => "masters or shard before entry",
            Expected::TwoIds => "two ids",
            Expected::EightTops => "eight top items",
            Expected::Length => "at most 8192 bytes",
            Expected::Slice => "a number of places, at most 160",
            Expected::Question => "a question, 1 to 12",
            Expected::Times => "a number of times, 1 to 4294967295",
        }
    }
}

impl fmt::Display for Expected {
    fn fmt<W: fmt::Write>(&self, f: &mut fmt::Formatter<W>) -> fmt::Result {
        match *self {
            Expected::Text(text) => write!(f, "'{text}'"),
            other => f.write_str(other.text()),
        }
    }
}

impl fmt::Display for Unexpected {
    fn fmt<W: fmt::Write>(&self, f: &mut fmt::Formatter<W>) -> fmt::Result {
        let column = self.at.saturating_add(1);
        let expected = self.expected;
        write!(f, "column {column}: expected {expected}")
    }
}
