// The counter of comparisons.
ghost use Rattle.reading.specs.Outs.{out_at};
ghost use Rattle.reading.specs.Says.{Compares};

use characters::place::Place;
use characters::refusal::{Refusal, Refused};
use reading::node::Node;
use reading::tally::Tally;

// One comparison more; or 7 at `at`, where the limit has no room for it.
pub fn count(limit: u32, tally: &mut Tally, at: Place) -> Result<Node, Refused>
    ensures { Compares limit tally.old at (out_at at result tally.new) }
{
    if tally.comparisons < limit {
        tally.comparisons += 1;
        return Ok(Node::plain(0, at));
    }
    Err(Refused {
        refusal: Refusal::TooManyComparisons,
        at,
    })
}
