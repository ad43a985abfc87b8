// The lines of a dump, which `load` takes.
use crate::scanner::Scanner;
use crate::spelled::{Shown, Spelled};
use crate::unexpected::{Expected, Unexpected};
use block_records::block_id::{BlockId, BlockIdShort, ShardIdent};
use block_records::entry::MasterBlock;
use block_records::range::AppliedRange;
use std::fmt;

// A group's mark and boundary.
#[derive(Clone, Copy)]
pub struct Marks {
    pub mark: Option<u32>,
    pub boundary: Option<BlockIdShort>,
}

#[derive(Clone, Copy)]
pub enum Dumped {
    Zerostate(u32),
    Masters {
        marks: Marks,
        range: Option<AppliedRange>,
    },
    Shard {
        shard: ShardIdent,
        marks: Marks,
    },
    // of the group of the last line `masters` or `shard`
    Entry(MasterBlock),
    // a last collated id
    Id(BlockId),
    End,
}

const NAMES: [&str; 6] = ["zerostate", "masters", "shard", "entry", "id", "end"];

// Whether a line is one of a dump by its name.
pub fn is_dumped(scanner: &mut Scanner<'_>) -> bool {
    NAMES.iter().any(|name| scanner.has_name(name))
}

impl Marks {
    pub(crate) fn read(scanner: &mut Scanner<'_>) -> Result<Self, Unexpected> {
        Ok(Marks {
            mark: scanner.field(" mark=")?,
            boundary: scanner.field(" boundary=")?,
        })
    }
}

impl fmt::Display for Marks {
    fn fmt<W: fmt::Write>(&self, f: &mut fmt::Formatter<W>) -> fmt::Result {
        let mark = Shown(&self.mark);
        let boundary = Shown(&self.boundary);
        write!(f, "mark={mark} boundary={boundary}")
    }
}

pub fn read_dumped(scanner: &mut Scanner<'_>) -> Result<Dumped, Unexpected> {
    if scanner.takes_name("zerostate") {
        return Ok(Dumped::Zerostate(scanner.field(" ")?));
    }
    if scanner.takes_name("masters") {
        return Ok(Dumped::Masters {
            marks: Marks::read(scanner)?,
            range: scanner.field(" range=")?,
        });
    }
    if scanner.takes_name("shard") {
        return Ok(Dumped::Shard {
            shard: scanner.field(" ")?,
            marks: Marks::read(scanner)?,
        });
    }
    if scanner.takes_name("entry") {
        return Ok(Dumped::Entry(scanner.field(" ")?));
    }
    if scanner.takes_name("id") {
        return Ok(Dumped::Id(scanner.field(" ")?));
    }
    if scanner.takes_name("end") {
        return Ok(Dumped::End);
    }
    Err(scanner.unexpected(Expected::InLoad))
}

impl fmt::Display for Dumped {
    fn fmt<W: fmt::Write>(&self, f: &mut fmt::Formatter<W>) -> fmt::Result {
        match self {
            Dumped::Zerostate(seqno) => write!(f, "zerostate {seqno}"),
            Dumped::Masters { marks, range } => {
                let range = Shown(range);
                write!(f, "masters {marks} range={range}")
            }
            Dumped::Shard { shard, marks } => write!(f, "shard {shard} {marks}"),
            Dumped::Entry(block) => {
                let block = Shown(block);
                write!(f, "entry {block}")
            }
            Dumped::Id(id) => write!(f, "id {id}"),
            Dumped::End => f.write_str("end"),
        }
    }
}
