// Nodes: what a rule answers about what it has read.
ghost use Rattle.std.specs.Prelude.{◌≡◌};
ghost use Rattle.reading.specs.Process.{plain};

use characters::place::Place;

// A record made: its number from 1 on, its kind, its position, and a value that later rules look at.
#[derive(Clone, Copy, Debug, PartialEq, Eq)]
pub struct Node {
    pub number: u32,
    pub kind: u32,
    pub position: Place,
    pub value: u64,
}

impl Node {
    // A number alone, with no record behind it: an id, or 0.
    pub fn plain(number: u32, at: Place) -> Self
        ensures { result ≡ plain number at }
    {
        Self {
            number,
            kind: 0,
            position: at,
            value: 0,
        }
    }
}
