//! A question answered in memory that fits the map.
ghost use Rattle.std.specs.Prelude.{◌≡◌, ℕ, ◌≤◌, false, length, replicate};
ghost use Rattle.fringe.specs.Fringes.{Emptied};
ghost use Rattle.routes.specs.declared.labels.Label.TheVariants.{Blank};
ghost use Rattle.routes.specs.Search.{Both, answer, answer_of};
ghost use Rattle.routes.specs.Unspliced.{Unspliced};
ghost use Rattle.search.specs.Rounds.{Left};
ghost use Rattle.asking.specs.Answers.{Tells, Answers};
ghost use Rattle.measure.specs.Members.{Lawful};
ghost use Rattle.routes.specs.Members.{operations};
ghost use Rattle.search.specs.Members.{AskedIn, given_for};

use crate::answers::{Answer, Found};
use fringe::fringes::Fringe;
use fringe::order::Order;
use fringe::place::Place;
use halves::wipe;
use map::maps::Map;
use measure::measures::Measure;
use routes::labels::Label;
use search::{Question, search};
use tracing::write_route;
use turns::Findings;

/// Writes down the route that a search found, if it found one.
fn tell<M: Measure + Copy, G: Map>(
    map: &G,
    fore: &[Label<M>],
    back: &[Label<M>],
    found: Findings<M>,
    list: &mut [Place],
) -> Option<Found<M>>
    ensures { (n : ℕ) (x : Both M) → Left (G.Map.model map.now) fore.now back.now found x → (M.Order.leq (M.Order.thing M.Measure.top) (M.Order.thing x.best) ≡ false → Unspliced n x) → n ≤ length list.old → Tells (answer_of (operations M.Order M.Measure.own) n x).found result list.old list.new }
{
    if found.best.less(&M::blocked()) {
        let places = write_route(map, fore, back, found.meet, list);
        Some(Found {
            cost: found.best,
            places,
        })
    } else {
        None
    }
}

/// Answers the question for the least-cost route from the start to the goal, and writes the route into the list. At the end
/// all labels are blank and both fringes are empty.
pub fn ask<M: Measure + Copy, G: Map, B: Map, F: Fringe<M>, N: Fringe<M>>(
    asked: &Question<G, B>,
    fore: &mut [Label<M>],
    near: &mut F,
    back: &mut [Label<M>],
    far: &mut N,
    list: &mut [Place],
) -> Answer<M>
    ensures fore { fore.new ≡ replicate (length fore.old) Blank }
    ensures back { back.new ≡ replicate (length back.old) Blank }
    ensures near { Emptied (F.Fringe.meaning near.old) (F.Fringe.meaning near.new) }
    ensures near_well { F.Fringe.well near.new }
    ensures far { Emptied (N.Fringe.meaning far.old) (N.Fringe.meaning far.new) }
    ensures far_well { N.Fringe.well far.new }
    ensures laws { Lawful M.Order M.Measure.own }
    ensures answer { AskedIn G.Map.model B.Map.model asked.now (length fore.old) (length back.old) (F.Fringe.meaning near.old).capacity (N.Fringe.meaning far.old).capacity → (G.Map.model asked.now.map.now).places ≤ length list.old → Answers (answer (operations M.Order M.Measure.own) (given_for G.Map.model B.Map.model asked.now M.Order M.Measure.own) asked.now.start.0 asked.now.goal.0) list.old list.new result }
{
    let found = search(asked, fore, near, back, far);
    let way = tell(asked.map, fore, back, found, list);
    wipe(fore, near);
    wipe(back, far);
    Answer {
        found: way,
        expanded: found.expanded,
        pruned: found.pruned,
    }
}
