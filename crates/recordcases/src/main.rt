// Worked vectors of the order of ids, of questions 2 to 4 and of stored records, run on `block_records`. Prints how many cases ran and how many
// came out wrong.
#![tactic(auto)]

mod order;
mod questions;
mod records;
mod stored;
mod tally;

use crate::tally::Tally;

fn main(rt: HostRuntime) {
    let mut tally = Tally::default();
    order::cases(&mut tally);
    questions::cases(&mut tally);
    stored::cases(&mut tally);
    // where the line can't be written, nobody is left to be told
    let _ = println!(rt; "{tally}");
}
