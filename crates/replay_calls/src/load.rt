// The lines of a load: each goes to the next free place of its list.
use crate::raw::set_marks;
use crate::state::Session;
use block_records::block_id::ShardIdent;
use block_records::entry::MasterBlock;
use block_records::listed::Listed;
use blocks_cache::cache::{Cache, ShardGroup, empty};
use blocks_group::group::Group;
use replay_text::dumped::{Dumped, Marks};
use replay_text::raw::GroupPlace;
use replay_text::unexpected::{Expected, Unexpected};

// `load` itself.
pub fn begin_load(session: &mut Session<'_>, cache: &mut Cache) {
    *cache = empty(0).cache;
    session.begin_load();
}

// The place that an item went to, the next one of its list.
fn add<T: Copy, const N: usize>(list: &mut Listed<T, N>, item: T) -> Result<usize, Expected> {
    let place = list.count;
    if N <= place {
        return Err(Expected::Room);
    }
    list.push(item);
    Ok(place)
}

// A shard's group, which the next entries go to.
fn add_shard(cache: &mut Cache, shard: ShardIdent, marks: &Marks) -> Result<GroupPlace, Expected> {
    let mut group = Group::empty();
    set_marks(&mut group, marks);
    let place = add(&mut cache.shards, ShardGroup { shard, group })?;
    Ok(GroupPlace::Shard(place))
}

fn add_shard_block(cache: &mut Cache, shard: usize, block: &MasterBlock) -> Result<(), Expected> {
    let Some(held) = cache.shards.items.get_mut(shard) else {
        return Err(Expected::NoShard);
    };
    if !held.group.entries.has_place() {
        return Err(Expected::Room);
    }
    if block.tops.count != 0 {
        return Err(Expected::NoTops);
    }
    add(&mut held.group.entries, block.entry)?;
    Ok(())
}

// An entry of the group of the last line that begins one.
fn add_block(
    cache: &mut Cache,
    group: Option<GroupPlace>,
    block: &MasterBlock,
) -> Result<(), Expected> {
    match group {
        None => Err(Expected::NoShard),
        Some(GroupPlace::Masters) => {
            add(&mut cache.masters.entries, *block)?;
            Ok(())
        }
        Some(GroupPlace::Shard(shard)) => add_shard_block(cache, shard, block),
    }
}

fn add_line(session: &mut Session<'_>, cache: &mut Cache, line: &Dumped) -> Result<(), Expected> {
    match line {
        Dumped::Zerostate(seqno) => cache.zerostate_mc_seqno = *seqno,
        Dumped::Masters { marks, range } => {
            set_marks(&mut cache.masters, marks);
            cache.data.range = *range;
            session.state.group = Some(GroupPlace::Masters);
        }
        Dumped::Shard { shard, marks } => {
            let place = add_shard(cache, *shard, marks)?;
            session.state.group = Some(place);
        }
        Dumped::Entry(block) => add_block(cache, session.state.group, block)?,
        Dumped::Id(id) => {
            add(&mut cache.data.ids, *id)?;
        }
        Dumped::End => session.end_load(),
    }
    Ok(())
}

// A line that has no place is bad.
pub fn load_line(session: &mut Session<'_>, cache: &mut Cache, line: &Dumped) {
    if let Err(expected) = add_line(session, cache, line) {
        session.complain(Unexpected::line(expected));
    }
}
