// The language in short; docs/REPLAY.md has it whole.
use crate::questions::Questions;
use std::fmt;

const LANGUAGE: &str =
    "A line is a command of at most 8192 bytes; empty lines and lines that begin with # are skipped.
new Z                                        an empty cache of zerostate seqno Z
store_collated ID ref=N prev=IDS top=TOPS anchor=OPT pta=N pay=N
store_received ID mc=ID prev=IDS top=TOPS anchor=OPT pay=N
validation ID complete HANDLE WEIGHT         validation ID skipped
pop F                                        the first applied master at or above F, with its subgraph
sync ID                                      the master at the id's seqno, with its subgraph
peek F                                       what pop would take
tail_ids KEY                                 the ids before the tail of the master at that seqno
boundary KEYS    collect    remove_next KEYS
sound                                        is the cache sound?
dump                                         the cache, as lines that load takes
load                                         empties the cache; a dump's lines follow, up to its end
dump raw, dump slice                         every record, spare places too, as raw lines
raw ...                                      sets one record, tested in no way
slice N                                      the next calls lend N of 160 places
number on, number off                        whether each answer is led by its line's number
graph                                        the cache for Graphviz
explain N                                    what 'refused N' means, and its usual causes
help                                         these lines
ID is W:PREFIX:SEQNO:ROOT:FILE, KEY its first three parts, SHARD its first two; hashes and prefix in lower-case hexadecimal, in full
W is a workchain, -2147483648 to 2147483647, and -1 is the masterchain
OPT is - or N; IDS, KEYS and TOPS are - or items with commas between them; a top is REF/ID/0 or REF/ID/1
Every call may answer 'refused N', N being the first question whose answer is no; the cache is then as before";

#[derive(Clone, Copy)]
pub struct Help;

impl fmt::Display for Help {
    fn fmt<W: fmt::Write>(&self, f: &mut fmt::Formatter<W>) -> fmt::Result {
        let questions = Questions;
        write!(f, "{LANGUAGE}{questions}")
    }
}
