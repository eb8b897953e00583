// The counts of the closing record.
ghost use Rattle.std.specs.Prelude.{◌≡◌, if◌then◌else◌, length, replicate, slice_index, slice_set};
ghost use Rattle.script.specs.Tallies.{row_of};
ghost use Rattle.texts.specs.Lines.{one_more};

// Statuses below this one are counted one by one, and the others together behind them.
const COUNTED: u32 = 5;

/// How many requests were applied, and how many of them with each status.
#[derive(Clone, Copy, PartialEq, Eq, Debug)]
pub struct Tally {
    applied: u64,
    rows: [u64; 6],
    ghost six: { length rows ≡ 6 },
}

impl Tally {
    /// Nothing is applied yet.
    pub fn new() -> Tally
        ensures applied { result.applied ≡ 0 }
        ensures rows { result.rows ≡ replicate 6 0 }
    {
        Tally {
            applied: 0,
            rows: [0; 6],
        }
    }

    /// Counts one request more. A count stays at the largest number once it is there.
    pub fn note(&mut self, status: u32)
        ensures applied { self.new.applied ≡ one_more self.old.applied }
        ensures rows { self.new.rows ≡ slice_set self.old.rows (row_of status) (one_more (slice_index self.old.rows (row_of status))) }
    {
        let row = row_of(status);
        self.applied = self.applied.saturating_add(1);
        self.rows[row] = self.rows[row].saturating_add(1);
    }

    /// How many requests were applied.
    pub fn applied(&self) -> u64
        ensures { result ≡ self.now.applied }
    {
        self.applied
    }

    /// How many requests got this status. All statuses above 4 count as one.
    pub fn of(&self, status: u32) -> u64
        ensures { result ≡ slice_index self.now.rows (row_of status) }
    {
        self.rows[row_of(status)]
    }
}

/// How many answers were yes, and how many no.
#[derive(Clone, Copy, PartialEq, Eq, Debug)]
pub struct YesNo {
    yes: u64,
    no: u64,
}

impl YesNo {
    /// Nothing is answered yet.
    pub fn new() -> YesNo
        ensures { result ≡ record { yes = 0; no = 0 } }
    {
        YesNo { yes: 0, no: 0 }
    }

    /// Counts one answer more. A count stays at the largest number once it is there.
    pub fn note(&mut self, yes: bool)
        ensures yes { self.new.yes ≡ (if yes then one_more self.old.yes else self.old.yes) }
        ensures no { self.new.no ≡ (if yes then self.old.no else one_more self.old.no) }
    {
        if yes {
            self.yes = self.yes.saturating_add(1);
        } else {
            self.no = self.no.saturating_add(1);
        }
    }

    /// How many answers were yes.
    pub fn yes(&self) -> u64
        ensures { result ≡ self.now.yes }
    {
        self.yes
    }

    /// How many answers were no.
    pub fn no(&self) -> u64
        ensures { result ≡ self.now.no }
    {
        self.no
    }
}

// Where a status is counted.
fn row_of(status: u32) -> usize
    ensures { result ≡ row_of status }
{
    status.min(COUNTED) as usize
}
