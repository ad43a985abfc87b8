// RULES.md, Groups: the synced mark and its rule.
ghost use Rattle.std.specs.Prelude.{◌≡◌};
ghost use Rattle.blocks_group.specs.arrays.Store.{known_synced};
ghost use Rattle.blocks_group.specs.layout.Group.{check_mark};
ghost use Rattle.blocks_group.specs.rules.Group.{given_mark, refreshed_mark};

// What the mark's rule gives, and the mark after it.
#[derive(Clone, Copy)]
pub struct CheckedMark {
    pub given: Option<u32>,
    pub mark: Option<u32>,
}

// Whether the mark's rule gives a mark.
pub(crate) fn known_synced(seqno: u32, mark: Option<u32>) -> bool
    ensures { result ≡ known_synced seqno mark }
{
    mark.is_some_and(|known| seqno <= known)
}

// The mark after the mark's rule.
pub fn refreshed_mark(seqno: u32, mark: Option<u32>) -> Option<u32>
    ensures { result ≡ refreshed_mark seqno mark }
{
    match mark {
        Some(known) if seqno <= known => mark,
        _ => Some(seqno),
    }
}

// What the rule gives: the mark if it reaches the seqno, else none.
fn given_mark(seqno: u32, mark: Option<u32>) -> Option<u32>
    ensures { result ≡ given_mark seqno mark }
{
    mark.filter(|known| seqno <= *known)
}

// The mark's rule whole, from mark to mark.
pub(crate) fn check_mark(mark: Option<u32>, seqno: u32) -> CheckedMark
    ensures { result ≡ check_mark seqno mark }
{
    CheckedMark {
        given: given_mark(seqno, mark),
        mark: refreshed_mark(seqno, mark),
    }
}
