// RULES.md, Master data: the applied range.

// From one seqno to another, both included.
#[derive(Clone, Copy, Debug, PartialEq, Eq)]
pub struct AppliedRange {
    pub start: u32,
    pub end: u32,
}
