// RULES.md, Peek: the master that pop would take, and the rows of its starting items.
ghost use Rattle.std.specs.Prelude.{◌≡◌, option_map};
ghost use Rattle.blocks_cache.specs.arrays.Extraction.{held_starting_items};
ghost use Rattle.blocks_cache.specs.arrays.Peek.{held_peek, held_view_tops, pack_row, pack_view, peek_says, top_row, zero_row, zeroed_peek};
ghost use Rattle.blocks_cache.specs.layout.Cache.{call_on, unlent_outcome};
ghost use Rattle.cache_rules.specs.Calls.{peek, unlent};

use crate::cache::Cache;
use crate::extraction::held_starting_items;
use crate::lookup::Lookup;
use crate::questions::{SoundCache, check_seqno};
use block_records::block_id::{BlockId, BlockIdShort, zero_id};
use block_records::limits::TOPS_LIMIT;
use block_records::listed::Listed;
use block_records::questions::Refusal;
use block_records::top_block::{TopBlock, TopBlocks};

// What is shown of a block.
#[derive(Clone, Copy, Debug, PartialEq, Eq)]
pub struct PeekRow {
    pub block_id: BlockId,
    pub ref_by_mc_seqno: u32,
    pub payload: u64,
}

// The master's row, those of its tops, and the key of the first top that is missing.
#[derive(Clone, Copy, Debug, PartialEq, Eq)]
pub struct Peek {
    pub master: PeekRow,
    pub tops: Listed<PeekRow, TOPS_LIMIT>,
    pub missing: Option<BlockIdShort>,
}

// The tops' rows, and the one that is missing.
#[derive(Clone, Copy)]
pub(crate) struct TopRows {
    pub rows: Listed<PeekRow, TOPS_LIMIT>,
    pub gap: Option<BlockIdShort>,
}

#[tactic(auto, unfolding(crate::specs::arrays::Peek::zero_row))]
fn zero_row() -> PeekRow
    ensures { result ≡ zero_row }
{
    PeekRow {
        block_id: zero_id(),
        ref_by_mc_seqno: 0,
        payload: 0,
    }
}

impl Lookup<'_> {
    // The row of a top item whose block is cached and names the master; id and reference are the item's, the payload is the block's.
    #[tactic(auto, using(crate::proofs::arrays::PeekLaws::top_rows))]
    fn top_row(&self, seqno: u32, item: &TopBlock) -> Option<PeekRow>
        ensures { result ≡ option_map pack_row (top_row seqno self.now.cache.now item.now) }
    {
        let id = item.block_id;
        let block = self.cached_block(id)?;
        if block.ref_by_mc_seqno != seqno {
            return None;
        }
        Some(PeekRow {
            block_id: id,
            ref_by_mc_seqno: item.ref_by_mc_seqno,
            payload: block.payload,
        })
    }

    // The rows of the starting items, up to the first that has none.
    fn held_view_tops(&self, seqno: u32, tops: &TopBlocks) -> TopRows
        ensures { result ≡ pack_view (held_view_tops seqno self.now.cache.now (held_starting_items self.now.cache.now.zerostate_mc_seqno tops.now)) }
    {
        let starting = held_starting_items(self.cache.zerostate_mc_seqno, tops);
        let mut rows = Listed::empty(zero_row());
        for item in starting.listed() {
            let Some(row) = self.top_row(seqno, item) else {
                let gap = Some(item.block_id.as_short_id());
                return TopRows { rows, gap };
            };
            rows.items[rows.count] = row;
            rows.count += 1;
        }
        TopRows { rows, gap: None }
    }
}

impl SoundCache<'_> {
    // The first applied master from a seqno on, and its starting items.
    #[tactic(auto, unfolding(crate::specs::arrays::Peek::held_peek))]
    fn held_peek(self, from: u32) -> Option<Peek>
        ensures { result ≡ held_peek from self.entry.cache.now }
    {
        let block = self.cache.masters.first_applied(from)?;
        let entry = block.entry;
        let view = self
            .lookup()
            .held_view_tops(entry.block_id.seqno, &block.tops);
        Some(Peek {
            master: PeekRow {
                block_id: entry.block_id,
                ref_by_mc_seqno: entry.ref_by_mc_seqno,
                payload: entry.payload,
            },
            tops: view.rows,
            missing: view.gap,
        })
    }
}

impl Cache {
    // Nothing, where no master is applied from the seqno on.
    #[tactic(auto, using(crate::proofs::arrays::PeekLaws::peek_calls))]
    pub fn peek_front_applied_mc_block_subgraph(&self, from: u32) -> Result<Option<Peek>, Refusal>
        ensures call { unlent_outcome self.now (peek_says result) ≡ call_on self.now (unlent (peek from)) }
        ensures zeros { result ≡ zeroed_peek result }
    {
        let sound = self.sound()?;
        check_seqno(from)?;
        Ok(sound.held_peek(from))
    }
}
