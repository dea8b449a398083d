// Tallies: what is counted on the way.
ghost use Rattle.std.specs.Prelude.{◌≡◌, ◌^◌, ◌-◌, ◌<◌};
ghost use Rattle.reading.specs.Events.{start, with_id, with_record};

// Records made, comparisons made, and ids given out.
#[derive(Clone, Copy, Debug, PartialEq, Eq)]
pub struct Tally {
    pub records: u32,
    pub comparisons: u32,
    pub ids: u32,
}

impl Tally {
    // The tally that a reading begins with.
    pub fn start() -> Self
        ensures { result ≡ start }
    {
        Self {
            records: 0,
            comparisons: 0,
            ids: 0,
        }
    }

    // After one more record was made.
    pub fn recorded(self) -> Self
        requires { self.records < 2 ^ 32 - 1 }
        ensures { result ≡ with_record self }
    {
        let records = self.records + 1;
        Self {
            records,
            comparisons: self.comparisons,
            ids: self.ids,
        }
    }

    // After one more id was given out.
    pub fn numbered(self) -> Self
        requires { self.ids < 2 ^ 32 - 1 }
        ensures { result ≡ with_id self }
    {
        let ids = self.ids + 1;
        Self {
            records: self.records,
            comparisons: self.comparisons,
            ids,
        }
    }
}
