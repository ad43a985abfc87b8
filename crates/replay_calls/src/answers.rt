// What the calls answer, as it is printed: a line or more, without the last line's end.
use block_records::block_id::BlockIdShort;
use block_records::entry::{BlockCacheEntry, MasterBlock};
use block_records::top_block::zero_tops;
use blocks_cache::extraction::{McBlockSubgraph, SubgraphExtract};
use blocks_cache::peek::{Peek, PeekRow};
use blocks_cache::stores::BlockCacheStoreResult;
use blocks_cache::tail_ids::{TailIdsRow, TailRows};
use blocks_cache::validation::ValidationAnswer;
use replay_text::spelled::Shown;
use std::fmt;

// Of question 1 alone.
pub fn sound_answer(sound: bool) -> &'static str {
    if sound { "sound" } else { "unsound" }
}

// ===== stores and validation =====

#[derive(Clone, Copy)]
pub struct Stored(pub BlockCacheStoreResult);

impl fmt::Display for Stored {
    fn fmt<W: fmt::Write>(&self, f: &mut fmt::Formatter<W>) -> fmt::Result {
        match &self.0 {
            BlockCacheStoreResult::Stored {
                received_and_collated,
                block_mismatch,
                last_collated_mc_block_id,
                applied_mc_queue_range,
            } => {
                let both = Shown(received_and_collated);
                let mismatch = Shown(block_mismatch);
                let last = Shown(last_collated_mc_block_id);
                let range = Shown(applied_mc_queue_range);
                write!(f, "stored received_and_collated={both} mismatch={mismatch}")?;
                write!(f, " last={last} range={range}")
            }
            BlockCacheStoreResult::Synced => f.write_str("synced"),
        }
    }
}

#[derive(Clone, Copy)]
pub struct Validated(pub ValidationAnswer);

impl fmt::Display for Validated {
    fn fmt<W: fmt::Write>(&self, f: &mut fmt::Formatter<W>) -> fmt::Result {
        match &self.0 {
            ValidationAnswer::Updated(status) => {
                let status = Shown(status);
                write!(f, "status {status}")
            }
            ValidationAnswer::NoChange => f.write_str("no change"),
        }
    }
}

// ===== extraction =====

// What an extraction hands out, with the places at whose front the blocks stand.
#[derive(Clone, Copy)]
pub struct Extracted<'a> {
    pub extract: SubgraphExtract,
    pub blocks: &'a [BlockCacheEntry],
}

// The numbers, the master and the blocks beside it.
fn print_subgraph<W: fmt::Write>(
    f: &mut fmt::Formatter<W>,
    subgraph: &McBlockSubgraph,
    blocks: &[BlockCacheEntry],
) -> fmt::Result {
    let joined = subgraph.joined;
    let taken = subgraph.taken;
    let master = Shown(&subgraph.master);
    write!(f, " blocks={joined} taken={taken}\nmaster {master}")?;
    for entry in blocks.iter().take(joined) {
        print_block(f, *entry)?;
    }
    Ok(())
}

fn print_block<W: fmt::Write>(f: &mut fmt::Formatter<W>, entry: BlockCacheEntry) -> fmt::Result {
    let tops = zero_tops();
    let block = MasterBlock { entry, tops };
    let block = Shown(&block);
    write!(f, "\nblock {block}")
}

impl fmt::Display for Extracted<'_> {
    fn fmt<W: fmt::Write>(&self, f: &mut fmt::Formatter<W>) -> fmt::Result {
        match &self.extract {
            SubgraphExtract::Popped { subgraph, last } => {
                let last = Shown(last);
                write!(f, "extracted last={last}")?;
                print_subgraph(f, subgraph, self.blocks)
            }
            SubgraphExtract::Extracted(subgraph) => {
                f.write_str("extracted")?;
                print_subgraph(f, subgraph, self.blocks)
            }
            SubgraphExtract::AlreadyExtracted => f.write_str("already extracted"),
        }
    }
}

// ===== peek and tail ids =====

#[derive(Clone, Copy)]
pub struct Peeked(pub Option<Peek>);

fn print_row<W: fmt::Write>(f: &mut fmt::Formatter<W>, name: &str, row: &PeekRow) -> fmt::Result {
    let id = row.block_id;
    let reference = row.ref_by_mc_seqno;
    let payload = row.payload;
    write!(f, "\n{name} {id} ref={reference} pay={payload}")
}

fn print_peek<W: fmt::Write>(f: &mut fmt::Formatter<W>, peek: &Peek) -> fmt::Result {
    let missing: &Option<BlockIdShort> = &peek.missing;
    let missing = Shown(missing);
    write!(f, "found missing={missing}")?;
    print_row(f, "master", &peek.master)?;
    for top in peek.tops.listed() {
        print_row(f, "top", top)?;
    }
    Ok(())
}

impl fmt::Display for Peeked {
    fn fmt<W: fmt::Write>(&self, f: &mut fmt::Formatter<W>) -> fmt::Result {
        match &self.0 {
            Some(peek) => print_peek(f, peek),
            None => f.write_str("nothing"),
        }
    }
}

#[derive(Clone, Copy)]
pub struct Tails(pub TailRows);

fn print_tail<W: fmt::Write>(f: &mut fmt::Formatter<W>, row: &TailIdsRow) -> fmt::Result {
    let shard = row.shard;
    let id = Shown(&row.id);
    let prev = Shown(&row.prev_ids);
    write!(f, "\nrow {shard} {id} prev={prev}")
}

impl fmt::Display for Tails {
    fn fmt<W: fmt::Write>(&self, f: &mut fmt::Formatter<W>) -> fmt::Result {
        let rows = self.0.listed();
        let count = rows.len();
        write!(f, "rows {count}")?;
        for row in rows {
            print_tail(f, row)?;
        }
        Ok(())
    }
}
