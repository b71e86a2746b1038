//! One turn of a side.
ghost use Rattle.std.specs.Prelude.{◌≡◌, ℕ, List};
ghost use Rattle.routes.specs.declared.labels.Label.{Label as LabelOf};
ghost use Rattle.routes.specs.Labels.{labels_view};
ghost use Rattle.routes.specs.Search.{Given, Both, nearest};
ghost use Rattle.search.specs.Guides.{Guides};
ghost use Rattle.search.specs.Turns.{is_over, sum_reaches};
ghost use Rattle.halves.specs.Sides.{Agrees, Steadied};
ghost use Rattle.measure.specs.Members.{Lawful};
ghost use Rattle.routes.specs.Members.{operations};
ghost use Rattle.search.specs.Members.{AtTurn, Turned};

use crate::guides::Guide;
use fringe::fringes::Fringe;
use fringe::order::Order;
use fringe::place::Place;
use halves::settle_least;
use map::maps::Map;
use measure::measures::Measure;
use routes::labels::Label;
use turns::{Findings, advance};

/// Whether the sum of the least costs of both sides is not below best, or a side has none.
fn is_done<M: Measure + Copy>(near: Option<(Place, M)>, far: Option<(Place, M)>, best: M) -> bool
    ensures { result ≡ sum_reaches M.Order.thing M.Order.leq M.Measure.plus near far best }
{
    match (near, far) {
        (Some((_, near)), Some((_, far))) => !near.add(far).less(&best),
        _ => true,
    }
}

/// Whether the search is over: a side has nothing reached, or the sum of both sides' least costs is not below best.
fn is_over<M: Measure + Copy, F: Fringe<M>, N: Fringe<M>>(near: &F, far: &N, best: M) -> bool
    ensures { Lawful M.Order M.Measure.own → (f g : ℕ → ℕ) (mine theirs : List (LabelOf M)) → Agrees M.Order F.Fringe near.now mine → Agrees M.Order N.Fringe far.now theirs → result ≡ is_over (operations M.Order M.Measure.own) (nearest (operations M.Order M.Measure.own) 0 (labels_view f mine)) (nearest (operations M.Order M.Measure.own) 0 (labels_view g theirs)) best }
{
    is_done(near.least(), far.least(), best)
}

/// Settles a place of this side, and prunes or expands it. The answer is what was found then, and nothing where the search
/// is over.
pub fn turn<M: Measure + Copy, G: Map, B: Map, F: Fringe<M>, N: Fringe<M>>(
    map: &G,
    guide: &Guide<B>,
    labels: &mut [Label<M>],
    fringe: &mut F,
    others: &[Label<M>],
    other_fringe: &N,
    found: Findings<M>,
) -> Option<Findings<M>>
    ensures taken { Lawful M.Order M.Measure.own → (back_of : ℕ → ℕ) (asked : Given M) (s t : ℕ) (x : Both M) → Guides M.Measure.nil M.Measure.decoded (B.Map.model guide.now.base.now) guide.now asked s t → AtTurn M.Order M.Measure.own F.Fringe N.Fringe (G.Map.model map.now) (B.Map.model guide.now.base.now).places back_of fringe.old other_fringe.now labels.old others.now found asked x → Turned M.Order M.Measure.own F.Fringe (G.Map.model map.now) back_of fringe.new labels.old labels.new others.now asked s t x result }
    ensures steady { F.Fringe.well fringe.old → Steadied F.Fringe fringe.old fringe.new }
{
    if is_over(fringe, other_fringe, found.best) {
        return None;
    }
    let (u, cost) = settle_least(labels, fringe)?;
    let gate = guide.is_gate(u);
    let between = guide.ahead(u);
    Some(advance(map, u, cost, gate, between, labels, fringe, others, found))
}
