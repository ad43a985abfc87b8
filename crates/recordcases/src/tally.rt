// How many cases ran, and how many were wrong.
use std::fmt;

#[derive(Clone, Copy, Default)]
pub struct Tally {
    ran: u64,
    bad: u64,
}

impl Tally {
    // One case more.
    pub fn holds(&mut self, case: bool) {
        self.ran = self.ran.saturating_add(1);
        if !case {
            self.bad = self.bad.saturating_add(1);
        }
    }

    // A case for each of these.
    pub fn all(&mut self, cases: &[bool]) {
        for case in cases {
            self.holds(*case);
        }
    }

    // A case for each row of a table.
    pub fn each<Row, F: Fn(&Row) -> bool>(&mut self, rows: &[Row], case: F)
        requires { F.IsAlwaysCallable case }
    {
        for row in rows {
            self.holds(case(row));
        }
    }
}

impl fmt::Display for Tally {
    fn fmt<W: fmt::Write>(&self, f: &mut fmt::Formatter<W>) -> fmt::Result {
        let ran = self.ran;
        let bad = self.bad;
        write!(f, "cases {ran} bad {bad}")
    }
}
