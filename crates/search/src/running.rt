//! The sides take turns.
ghost use Rattle.std.specs.Prelude.{◌≡◌, ℕ, ◌+◌};
ghost use Rattle.routes.specs.Search.{Given, Both, run};
ghost use Rattle.search.specs.Rounds.{swapped, Left};
ghost use Rattle.halves.specs.Sides.{Steadied};
ghost use Rattle.routes.specs.Members.{operations};
ghost use Rattle.search.specs.Members.{Begins};

use crate::guides::Guide;
use crate::turning::turn;
use fringe::fringes::Fringe;
use map::maps::Map;
use measure::measures::Measure;
use routes::labels::Label;
use turned::Turned;
use turns::Findings;

/// What was found, from the other side's point of view.
fn swapped<M: Copy>(found: Findings<M>) -> Findings<M>
    ensures { result ≡ swapped found }
{
    Findings {
        own_gate: found.other_gate,
        other_gate: found.own_gate,
        ..found
    }
}

/// The sides take turns, the one along the roads first, until the search is over. Every turn settles a place, so as many
/// rounds as there are places suffice.
pub fn run<M: Measure + Copy, G: Map, B: Map, F: Fringe<M>, N: Fringe<M>>(
    map: &G,
    along: &Guide<B>,
    against: &Guide<B>,
    fore: &mut [Label<M>],
    near: &mut F,
    back: &mut [Label<M>],
    far: &mut N,
    begun: Findings<M>,
) -> Findings<M>
    ensures left { (asked : Given M) (s t : ℕ) (x : Both M) → Begins M.Order M.Measure.own F.Fringe N.Fringe (G.Map.model map.now) B.Map.model along.now against.now near.old far.old fore.old back.old begun asked s t x → Left (G.Map.model map.now) fore.new back.new result (run (operations M.Order M.Measure.own) ((G.Map.model map.now).places + (G.Map.model map.now).places) asked s t x) }
    ensures near { F.Fringe.well near.old → Steadied F.Fringe near.old near.new }
    ensures far { N.Fringe.well far.old → Steadied N.Fringe far.old far.new }
{
    let turned = Turned { of: map };
    let mut found = begun;
    for _round in 0..fore.len() {
        let Some(next) = turn(map, along, fore, near, back, far, found) else {
            return found;
        };
        found = swapped(next);
        let Some(next) = turn(&turned, against, back, far, fore, near, found) else {
            return found;
        };
        found = swapped(next);
    }
    found
}
