// The cache as a graph for Graphviz; its legend says what the boxes and edges mean. A block is looked up by its id's shard and seqno, as the calls do it.
use block_records::block_id::BlockId;
use block_records::entry::{BlockCacheEntry, MasterBlock, held_received};
use block_records::top_block::TopBlock;
use blocks_cache::cache::{Cache, ShardGroup};
use std::fmt;

const HEAD: &str = "digraph cache {
  rankdir=RL;
  node [shape=box, style=dotted];
  legend [shape=note, style=solid, label=\"bold box: a master block\\lbox: a shard block, in the box of its shard\\ldotted box: not cached\\lgray edge: to the master before\\lblack edge: to a parent, or to a top block of a master\\lred dashed edge: to a foreign block, for another master\\lorange dashed edge: a block of another id is cached there\\lgray dashed edge: a top block that is not updated\\l\"];
";

#[derive(Clone, Copy)]
pub struct Graph<'a>(pub &'a Cache);

// ===== blocks =====

// A block's box. It says the key, the root hash's first bytes, and the master that the block is for.
#[derive(Clone, Copy)]
struct Node<'a> {
    entry: &'a BlockCacheEntry,
    style: &'static str,
}

impl fmt::Display for Node<'_> {
    fn fmt<W: fmt::Write>(&self, f: &mut fmt::Formatter<W>) -> fmt::Result {
        let entry = self.entry;
        let key = entry.block_id.as_short_id();
        let [a, b, c, d, ..] = entry.block_id.root_hash;
        let root = u32::from_be_bytes([a, b, c, d]);
        let master = entry.ref_by_mc_seqno;
        let kind = if held_received(*entry) {
            "received"
        } else {
            "collated"
        };
        let style = self.style;
        write!(f, "    \"{key}\" [label=\"{key}\\nroot {root:08x}")?;
        writeln!(f, "\\nfor master {master}\\n{kind}\", style={style}];")
    }
}

// ===== edges =====

#[derive(Clone, Copy)]
struct Edge {
    from: BlockId,
    to: BlockId,
    style: &'static str,
}

impl fmt::Display for Edge {
    fn fmt<W: fmt::Write>(&self, f: &mut fmt::Formatter<W>) -> fmt::Result {
        let from = self.from.as_short_id();
        let to = self.to.as_short_id();
        let style = self.style;
        writeln!(f, "  \"{from}\" -> \"{to}\"{style};")
    }
}

// The shard block that is cached under an id's shard and seqno.
fn cached_under(cache: &Cache, id: BlockId) -> Option<BlockCacheEntry> {
    for held in cache.shards.listed() {
        if held.shard == id.shard {
            return held.group.at(id.seqno);
        }
    }
    None
}

// How the edge to a shard block looks, seen from a master of a seqno.
fn edge_style(cache: &Cache, to: BlockId, master: u32) -> &'static str {
    match cached_under(cache, to) {
        None => " [style=dotted]",
        Some(entry) if entry.block_id != to => " [style=dashed, color=orange]",
        Some(entry) if entry.ref_by_mc_seqno != master => " [style=dashed, color=red]",
        Some(_) => "",
    }
}

fn print_parents<W: fmt::Write>(
    f: &mut fmt::Formatter<W>,
    cache: &Cache,
    entry: &BlockCacheEntry,
) -> fmt::Result {
    let from = entry.block_id;
    for parent in entry.prev_ids.listed() {
        let to = *parent;
        let style = edge_style(cache, to, entry.ref_by_mc_seqno);
        let edge = Edge { from, to, style };
        write!(f, "{edge}")?;
    }
    Ok(())
}

// The edge to a master's parent.
fn print_master_parent<W: fmt::Write>(
    f: &mut fmt::Formatter<W>,
    entry: &BlockCacheEntry,
) -> fmt::Result {
    let from = entry.block_id;
    let style = " [color=gray]";
    match entry.prev_ids.listed() {
        [] => Ok(()),
        [parent, ..] => {
            let to = *parent;
            let edge = Edge { from, to, style };
            write!(f, "{edge}")
        }
    }
}

// A top item that is not updated does not start an extraction.
fn print_top<W: fmt::Write>(
    f: &mut fmt::Formatter<W>,
    cache: &Cache,
    from: BlockId,
    top: &TopBlock,
) -> fmt::Result {
    let to = top.block_id;
    let style = if top.updated {
        edge_style(cache, to, from.seqno)
    } else {
        " [style=dashed, color=gray]"
    };
    let edge = Edge { from, to, style };
    write!(f, "{edge}")
}

// ===== groups =====

fn print_master<W: fmt::Write>(
    f: &mut fmt::Formatter<W>,
    cache: &Cache,
    block: &MasterBlock,
) -> fmt::Result {
    let entry = &block.entry;
    let node = Node {
        entry,
        style: "bold",
    };
    write!(f, "{node}")?;
    print_master_parent(f, entry)?;
    for top in block.tops.listed() {
        print_top(f, cache, entry.block_id, top)?;
    }
    Ok(())
}

fn print_masters<W: fmt::Write>(f: &mut fmt::Formatter<W>, cache: &Cache) -> fmt::Result {
    for block in cache.masters.entries.listed() {
        print_master(f, cache, block)?;
    }
    Ok(())
}

fn print_nodes<W: fmt::Write>(
    f: &mut fmt::Formatter<W>,
    entries: &[BlockCacheEntry],
) -> fmt::Result {
    let style = "solid";
    for entry in entries {
        let node = Node { entry, style };
        write!(f, "{node}")?;
    }
    Ok(())
}

// A shard's box, and the edges from its blocks.
fn print_group<W: fmt::Write>(
    f: &mut fmt::Formatter<W>,
    cache: &Cache,
    held: &ShardGroup,
) -> fmt::Result {
    let shard = held.shard;
    let group = &held.group;
    writeln!(f, "  subgraph \"cluster_{shard}\" {{")?;
    writeln!(f, "    label=\"shard {shard}\";")?;
    print_nodes(f, group.entries.listed())?;
    writeln!(f, "  }}")?;
    for entry in group.entries.listed() {
        print_parents(f, cache, entry)?;
    }
    Ok(())
}

impl fmt::Display for Graph<'_> {
    fn fmt<W: fmt::Write>(&self, f: &mut fmt::Formatter<W>) -> fmt::Result {
        let cache = self.0;
        f.write_str(HEAD)?;
        print_masters(f, cache)?;
        for held in cache.shards.listed() {
            print_group(f, cache, held)?;
        }
        f.write_str("}")
    }
}
