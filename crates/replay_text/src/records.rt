// How records are spelled: entries, their kinds, and what is given to be stored.
use crate::scanner::Scanner;
use crate::spelled::{Item, Shown, Spelled, print_items, read_items};
use crate::unexpected::{Expected, Unexpected};
use block_records::entry::{BlockCacheEntry, BlockCacheEntryData, MasterBlock};
use block_records::listed::Listed;
use block_records::store_records::{BlockCandidate, ReceivedBlock};
use std::fmt;

// The result of a validation: how many signatures and which weight they have; skipped is an outcome with a name of its own, not the lack of one.
#[derive(Clone, Copy)]
pub enum Verdict {
    Complete { signatures: u64, total_weight: u64 },
    Skipped,
}

pub fn read_verdict(scanner: &mut Scanner<'_>) -> Result<Verdict, Unexpected> {
    if scanner.takes("skipped") {
        return Ok(Verdict::Skipped);
    }
    if scanner.begins("complete") {
        return Ok(Verdict::Complete {
            signatures: scanner.field("complete ")?,
            total_weight: scanner.field(" ")?,
        });
    }
    Err(scanner.unexpected(Expected::Verdict))
}

pub fn read_candidate(scanner: &mut Scanner<'_>) -> Result<BlockCandidate, Unexpected> {
    Ok(BlockCandidate {
        block_id: scanner.field(" ")?,
        ref_by_mc_seqno: scanner.field(" ref=")?,
        prev_ids: scanner.field(" prev=")?,
        top_blocks: scanner.field(" top=")?,
        top_anchor: scanner.field(" anchor=")?,
        processed_to_anchor: scanner.field(" pta=")?,
        payload: scanner.field(" pay=")?,
    })
}

pub fn read_received(scanner: &mut Scanner<'_>) -> Result<ReceivedBlock, Unexpected> {
    Ok(ReceivedBlock {
        block_id: scanner.field(" ")?,
        ref_block_id: scanner.field(" mc=")?,
        prev_ids: scanner.field(" prev=")?,
        top_blocks: scanner.field(" top=")?,
        top_anchor: scanner.field(" anchor=")?,
        payload: scanner.field(" pay=")?,
    })
}

// ===== entries =====

fn read_collated(scanner: &mut Scanner<'_>) -> Result<BlockCacheEntryData, Unexpected> {
    Ok(BlockCacheEntryData::Collated {
        status: scanner.field("kind=collated status=")?,
        received_after_collation: scanner.field(" received_after=")?,
        signatures: scanner.field(" handle=")?,
        total_signature_weight: scanner.field(" weight=")?,
        processed_to_anchor: scanner.field(" pta=")?,
    })
}

fn read_received_kind(scanner: &mut Scanner<'_>) -> Result<BlockCacheEntryData, Unexpected> {
    Ok(BlockCacheEntryData::Received {
        collated_after_receive: scanner.field("kind=received collated_after=")?,
        additional_anchor: scanner.field(" additional=")?,
    })
}

impl Spelled for BlockCacheEntryData {
    fn read(scanner: &mut Scanner<'_>) -> Result<Self, Unexpected> {
        if scanner.begins("kind=collated") {
            return read_collated(scanner);
        }
        if scanner.begins("kind=received") {
            return read_received_kind(scanner);
        }
        Err(scanner.unexpected(Expected::Kind))
    }

    fn print<W: fmt::Write>(&self, f: &mut fmt::Formatter<W>) -> fmt::Result {
        match *self {
            BlockCacheEntryData::Collated {
                status,
                received_after_collation,
                signatures,
                total_signature_weight,
                processed_to_anchor,
            } => {
                let status = Shown(&status);
                let received = received_after_collation as u8;
                write!(f, "kind=collated status={status} received_after={received}")?;
                write!(f, " handle={signatures} weight={total_signature_weight}")?;
                write!(f, " pta={processed_to_anchor}")
            }
            BlockCacheEntryData::Received {
                collated_after_receive,
                additional_anchor,
            } => {
                let collated = collated_after_receive as u8;
                let anchor = Shown(&additional_anchor);
                write!(
                    f,
                    "kind=received collated_after={collated} additional={anchor}"
                )
            }
        }
    }
}

// An entry with its top items; a shard block has none.
impl Spelled for MasterBlock {
    fn read(scanner: &mut Scanner<'_>) -> Result<Self, Unexpected> {
        let block_id = Spelled::read(scanner)?;
        let ref_by_mc_seqno = scanner.field(" ref=")?;
        let prev_ids = scanner.field(" prev=")?;
        let tops = scanner.field(" top=")?;
        let entry = BlockCacheEntry {
            block_id,
            prev_ids,
            top_anchor: scanner.field(" anchor=")?,
            ref_by_mc_seqno,
            payload: scanner.field(" pay=")?,
            data: scanner.field(" ")?,
        };
        Ok(MasterBlock { entry, tops })
    }

    fn print<W: fmt::Write>(&self, f: &mut fmt::Formatter<W>) -> fmt::Result {
        let entry = &self.entry;
        let id = entry.block_id;
        let reference = entry.ref_by_mc_seqno;
        let prev = Shown(&entry.prev_ids);
        let tops = Shown(&self.tops);
        write!(f, "{id} ref={reference} prev={prev} top={tops}")?;
        let anchor = Shown(&entry.top_anchor);
        let payload = entry.payload;
        let kind = Shown(&entry.data);
        write!(f, " anchor={anchor} pay={payload} {kind}")
    }
}

// ===== records as they stand =====

// A list as it stands: all its places, and any count beside them.
#[derive(Clone, Copy)]
pub struct Places<'a, T>(pub &'a [T]);

impl<T: Spelled> fmt::Display for Places<'_, T> {
    fn fmt<W: fmt::Write>(&self, f: &mut fmt::Formatter<W>) -> fmt::Result {
        print_items(self.0, f)
    }
}

pub fn read_places<T: Item, const N: usize>(
    scanner: &mut Scanner<'_>,
    count: usize,
    expected: Expected,
) -> Result<Listed<T, N>, Unexpected> {
    let mut places: Listed<T, N> = read_items(scanner)?;
    if places.count != N {
        return Err(scanner.unexpected(expected));
    }
    places.count = count;
    Ok(places)
}

// An entry as it stands in its place: both previous ids.
impl Spelled for BlockCacheEntry {
    fn read(scanner: &mut Scanner<'_>) -> Result<Self, Unexpected> {
        let block_id = Spelled::read(scanner)?;
        let ref_by_mc_seqno = scanner.field(" ref=")?;
        let count = scanner.field(" prev_count=")?;
        scanner.text(" prev=")?;
        Ok(BlockCacheEntry {
            block_id,
            prev_ids: read_places(scanner, count, Expected::TwoIds)?,
            top_anchor: scanner.field(" anchor=")?,
            ref_by_mc_seqno,
            payload: scanner.field(" pay=")?,
            data: scanner.field(" ")?,
        })
    }

    fn print<W: fmt::Write>(&self, f: &mut fmt::Formatter<W>) -> fmt::Result {
        let id = self.block_id;
        let reference = self.ref_by_mc_seqno;
        let count = self.prev_ids.count;
        let prev = Places(&self.prev_ids.items);
        write!(f, "{id} ref={reference} prev_count={count} prev={prev}")?;
        let anchor = Shown(&self.top_anchor);
        let payload = self.payload;
        let kind = Shown(&self.data);
        write!(f, " anchor={anchor} pay={payload} {kind}")
    }
}
