// The lines that set a record as it stands, tested in no way; `dump raw` and `dump slice` print them.
use crate::dumped::Marks;
use crate::records::{Places, read_places};
use crate::scanner::Scanner;
use crate::spelled::{Shown, Spelled};
use crate::unexpected::{Expected, Unexpected};
use block_records::block_id::{BlockId, ShardIdent};
use block_records::entry::BlockCacheEntry;
use block_records::range::AppliedRange;
use block_records::top_block::TopBlocks;
use std::fmt;

// A group of the cache: the masters', or the shard's of a place, 0 to 7. As an Option the masters' group would be the lack of a place.
#[derive(Clone, Copy)]
pub enum GroupPlace {
    Masters,
    Shard(usize),
}

// The same with the shard that is set; the masters' group has none.
#[derive(Clone, Copy)]
pub enum RawGroup {
    Masters,
    Shard(usize, ShardIdent),
}

#[derive(Clone, Copy)]
pub enum Raw {
    Zero,
    Head {
        zerostate: u32,
        range: Option<AppliedRange>,
        ids: usize,
        shards: usize,
    },
    Id {
        place: usize,
        id: BlockId,
    },
    Group {
        group: RawGroup,
        count: usize,
        marks: Marks,
    },
    Entry {
        group: GroupPlace,
        place: usize,
        entry: BlockCacheEntry,
    },
    Tops {
        place: usize,
        tops: TopBlocks,
    },
    // a place of the slice
    Slice {
        place: usize,
        entry: BlockCacheEntry,
    },
}

impl Spelled for GroupPlace {
    fn read(scanner: &mut Scanner<'_>) -> Result<Self, Unexpected> {
        if scanner.takes_byte(b'm') {
            return Ok(GroupPlace::Masters);
        }
        let place = scanner.place(8, Expected::Group)?;
        Ok(GroupPlace::Shard(place))
    }

    fn print<W: fmt::Write>(&self, f: &mut fmt::Formatter<W>) -> fmt::Result {
        match self {
            GroupPlace::Masters => f.write_str("m"),
            GroupPlace::Shard(place) => write!(f, "{place}"),
        }
    }
}

impl Spelled for RawGroup {
    fn read(scanner: &mut Scanner<'_>) -> Result<Self, Unexpected> {
        let group = Spelled::read(scanner)?;
        scanner.text(" ")?;
        match group {
            GroupPlace::Masters => {
                scanner.byte(b'-', Expected::Shard)?;
                Ok(RawGroup::Masters)
            }
            GroupPlace::Shard(place) => {
                let shard = Spelled::read(scanner)?;
                Ok(RawGroup::Shard(place, shard))
            }
        }
    }

    fn print<W: fmt::Write>(&self, f: &mut fmt::Formatter<W>) -> fmt::Result {
        match self {
            RawGroup::Masters => f.write_str("m -"),
            RawGroup::Shard(place, shard) => write!(f, "{place} {shard}"),
        }
    }
}

// ===== read =====

// A place of a list, after a space.
fn read_place(scanner: &mut Scanner<'_>, places: u8) -> Result<usize, Unexpected> {
    scanner.text(" ")?;
    scanner.place(places, Expected::Place)
}

fn read_head(scanner: &mut Scanner<'_>) -> Result<Raw, Unexpected> {
    Ok(Raw::Head {
        zerostate: scanner.field(" zerostate=")?,
        range: scanner.field(" range=")?,
        ids: scanner.field(" ids=")?,
        shards: scanner.field(" shards=")?,
    })
}

fn read_group(scanner: &mut Scanner<'_>) -> Result<Raw, Unexpected> {
    Ok(Raw::Group {
        group: scanner.field(" ")?,
        count: scanner.field(" count=")?,
        marks: Marks::read(scanner)?,
    })
}

fn read_tops(scanner: &mut Scanner<'_>) -> Result<Raw, Unexpected> {
    let place = read_place(scanner, 16)?;
    let count = scanner.field(" count=")?;
    scanner.text(" top=")?;
    let tops = read_places(scanner, count, Expected::EightTops)?;
    Ok(Raw::Tops { place, tops })
}

pub fn read_raw(scanner: &mut Scanner<'_>) -> Result<Option<Raw>, Unexpected> {
    let raw = if scanner.takes_name("raw zero") {
        Raw::Zero
    } else if scanner.takes_name("raw head") {
        read_head(scanner)?
    } else if scanner.takes_name("raw id") {
        Raw::Id {
            place: read_place(scanner, 32)?,
            id: scanner.field(" ")?,
        }
    } else if scanner.takes_name("raw group") {
        read_group(scanner)?
    } else if scanner.takes_name("raw entry") {
        Raw::Entry {
            group: scanner.field(" ")?,
            place: read_place(scanner, 16)?,
            entry: scanner.field(" ")?,
        }
    } else if scanner.takes_name("raw tops") {
        read_tops(scanner)?
    } else if scanner.takes_name("raw slice") {
        Raw::Slice {
            place: read_place(scanner, 160)?,
            entry: scanner.field(" ")?,
        }
    } else {
        return Ok(None);
    };
    Ok(Some(raw))
}

// ===== printed =====

impl fmt::Display for Raw {
    fn fmt<W: fmt::Write>(&self, f: &mut fmt::Formatter<W>) -> fmt::Result {
        match self {
            Raw::Zero => f.write_str("raw zero"),
            Raw::Head {
                zerostate,
                range,
                ids,
                shards,
            } => {
                let range = Shown(range);
                write!(
                    f,
                    "raw head zerostate={zerostate} range={range} ids={ids} shards={shards}"
                )
            }
            Raw::Id { place, id } => write!(f, "raw id {place} {id}"),
            Raw::Group {
                group,
                count,
                marks,
            } => {
                let group = Shown(group);
                write!(f, "raw group {group} count={count} {marks}")
            }
            Raw::Entry {
                group,
                place,
                entry,
            } => {
                let group = Shown(group);
                let entry = Shown(entry);
                write!(f, "raw entry {group} {place} {entry}")
            }
            Raw::Tops { place, tops } => {
                let count = tops.count;
                let tops = Places(&tops.items);
                write!(f, "raw tops {place} count={count} top={tops}")
            }
            Raw::Slice { place, entry } => {
                let entry = Shown(entry);
                write!(f, "raw slice {place} {entry}")
            }
        }
    }
}
