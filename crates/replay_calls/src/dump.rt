// The counted view of the cache, and all that it holds.
use crate::state::Session;
use block_records::block_id::{is_zero_id, is_zero_shard};
use block_records::entry::{BlockCacheEntry, MasterBlock, is_zero_entry};
use block_records::top_block::{is_zero_tops, zero_tops};
use blocks_cache::cache::{Cache, ShardGroup};
use blocks_cache::master_data::MasterData;
use blocks_group::group::{Group, MasterGroup};
use replay_text::dumped::{Dumped, Marks};
use replay_text::raw::{GroupPlace, Raw, RawGroup};

fn marks<B>(group: &Group<B>) -> Marks {
    Marks {
        mark: group.mark,
        boundary: group.boundary,
    }
}

fn dump_masters(session: &mut Session<'_>, masters: &MasterGroup) {
    for block in masters.entries.listed() {
        session.print(Dumped::Entry(*block));
    }
}

fn dump_ids(session: &mut Session<'_>, data: &MasterData) {
    for id in data.ids.listed() {
        session.print(Dumped::Id(*id));
    }
}

fn dump_shard(session: &mut Session<'_>, held: &ShardGroup) {
    let group = &held.group;
    let shard = held.shard;
    session.print(Dumped::Shard {
        shard,
        marks: marks(group),
    });
    for entry in group.entries.listed() {
        session.print(Dumped::Entry(MasterBlock {
            entry: *entry,
            tops: zero_tops(),
        }));
    }
}

pub fn dump(session: &mut Session<'_>, cache: &Cache) {
    session.print(Dumped::Zerostate(cache.zerostate_mc_seqno));
    session.print(Dumped::Masters {
        marks: marks(&cache.masters),
        range: cache.data.range,
    });
    dump_masters(session, &cache.masters);
    dump_ids(session, &cache.data);
    for held in cache.shards.listed() {
        dump_shard(session, held);
    }
    session.print(Dumped::End);
}

// ===== every place; what is all zeros is left out =====

fn dump_raw_ids(session: &mut Session<'_>, data: &MasterData) {
    for (place, id) in data.ids.items.iter().enumerate() {
        if !is_zero_id(*id) {
            session.print(Raw::Id { place, id: *id });
        }
    }
}

fn dump_raw_marks<B>(session: &mut Session<'_>, place: RawGroup, group: &Group<B>) {
    session.print(Raw::Group {
        group: place,
        count: group.entries.count,
        marks: marks(group),
    });
}

// Whether a group's own line would say nothing.
fn is_bare<B>(group: &Group<B>) -> bool {
    group.entries.count == 0 && group.mark.is_none() && group.boundary.is_none()
}

fn dump_raw_entry(
    session: &mut Session<'_>,
    group: GroupPlace,
    place: usize,
    entry: &BlockCacheEntry,
) {
    if !is_zero_entry(*entry) {
        session.print(Raw::Entry {
            group,
            place,
            entry: *entry,
        });
    }
}

fn dump_raw_masters(session: &mut Session<'_>, masters: &MasterGroup) {
    if !is_bare(masters) {
        dump_raw_marks(session, RawGroup::Masters, masters);
    }
    for (place, block) in masters.entries.items.iter().enumerate() {
        dump_raw_entry(session, GroupPlace::Masters, place, &block.entry);
    }
    for (place, block) in masters.entries.items.iter().enumerate() {
        let tops = block.tops;
        if !is_zero_tops(tops) {
            session.print(Raw::Tops { place, tops });
        }
    }
}

fn dump_raw_shard(session: &mut Session<'_>, place: usize, held: &ShardGroup) {
    let group = &held.group;
    let shard = held.shard;
    if !is_zero_shard(shard) || !is_bare(group) {
        dump_raw_marks(session, RawGroup::Shard(place, shard), group);
    }
    for (at, entry) in group.entries.items.iter().enumerate() {
        dump_raw_entry(session, GroupPlace::Shard(place), at, entry);
    }
}

pub fn dump_raw(session: &mut Session<'_>, cache: &Cache) {
    session.print(Raw::Zero);
    session.print(Raw::Head {
        zerostate: cache.zerostate_mc_seqno,
        range: cache.data.range,
        ids: cache.data.ids.count,
        shards: cache.shards.count,
    });
    dump_raw_ids(session, &cache.data);
    dump_raw_masters(session, &cache.masters);
    for (place, held) in cache.shards.items.iter().enumerate() {
        dump_raw_shard(session, place, held);
    }
}

pub fn dump_slice(session: &mut Session<'_>, blocks: &[BlockCacheEntry]) {
    for (place, entry) in blocks.iter().enumerate() {
        if !is_zero_entry(*entry) {
            session.print(Raw::Slice {
                place,
                entry: *entry,
            });
        }
    }
}
