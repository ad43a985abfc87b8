// RULES.md, Groups: the blocks of a shard or of the masterchain by seqno, in 16 places.
ghost use Rattle.std.specs.Prelude.{◌≡◌, length};
ghost use Rattle.block_records.specs.arrays.Place.{IsWithin};
ghost use Rattle.block_records.specs.layout.Listed.{listed};
ghost use Rattle.blocks_group.specs.arrays.Group.{block_at, place_of_seqno, put_block, refresh_group, without_block};
ghost use Rattle.blocks_group.specs.layout.Group.{check_mark, held_empty_group};

use crate::block::{Block, zero_block};
use crate::mark::check_mark;
use block_records::block_id::BlockIdShort;
use block_records::entry::{BlockCacheEntry, MasterBlock};
use block_records::limits::ENTRIES_LIMIT;
use block_records::listed::{Listed, place_by};

// Blocks by seqno, the mark up to which they are synced, and the key below which they are collected.
#[derive(Clone, Copy, Debug, PartialEq, Eq)]
pub struct Group<B> {
    pub mark: Option<u32>,
    pub boundary: Option<BlockIdShort>,
    pub entries: Listed<B, ENTRIES_LIMIT>,
}

// The blocks of a shard, which have no top items.
pub type ShardBlocks = Group<BlockCacheEntry>;

// The master blocks, with their top items.
pub type MasterGroup = Group<MasterBlock>;

impl<B: Block> Group<B> {
    // No block, mark or boundary.
    #[tactic(auto, unfolding(crate::specs::layout::Group::held_empty_group))]
    pub fn empty() -> Self
        ensures { result ≡ held_empty_group B.parts }
    {
        Group {
            mark: None,
            boundary: None,
            entries: Listed::empty(zero_block()),
        }
    }

    // Where the block of a seqno stands among the listed ones, or the place where it would go in.
    pub fn place_of_seqno(&self, seqno: u32) -> Result<usize, usize>
        ensures place { result ≡ place_of_seqno B.parts seqno self.now }
        ensures within { IsWithin (length (listed self.now.entries)) result }
    {
        place_by(self.entries.listed(), |block| block.seqno().cmp(&seqno))
    }

    // The block at a seqno.
    pub fn at(&self, seqno: u32) -> Option<B>
        ensures { result ≡ block_at B.parts seqno self.now }
    {
        let blocks = self.entries.listed();
        match self.place_of_seqno(seqno) {
            Ok(at) => Some(blocks[at]),
            Err(_) => None,
        }
    }

    // The block in its place; one of the same seqno is replaced. A full group without that seqno stays as it is.
    pub fn put(&self, block: B) -> Self
        ensures { result ≡ put_block B.parts block self.now }
    {
        let seqno = block.seqno();
        Group {
            entries: self
                .entries
                .put_by(|known| known.seqno().cmp(&seqno), block, zero_block()),
            ..*self
        }
    }

    // Without the block of a seqno.
    pub fn removed(&self, seqno: u32) -> Self
        ensures { result ≡ without_block B.parts seqno self.now }
    {
        Group {
            entries: self
                .entries
                .retained(|block| block.seqno() != seqno, zero_block()),
            ..*self
        }
    }
}

impl<B: Copy> Group<B> {
    // The mark raised to a seqno.
    pub fn refreshed(&self, seqno: u32) -> Self
        ensures { result ≡ refresh_group seqno self.now }
    {
        let mut group = *self;
        group.check_refresh_last_known_synced(seqno);
        group
    }

    // The mark's rule in a lent group; the mark that it gives is the answer.
    pub fn check_refresh_last_known_synced(&mut self, seqno: u32) -> Option<u32>
        ensures { (result ≡ (check_mark seqno self.old.mark).given) × (self.new ≡ refresh_group seqno self.old) }
    {
        let checked = check_mark(self.mark, seqno);
        self.mark = checked.mark;
        checked.given
    }
}
