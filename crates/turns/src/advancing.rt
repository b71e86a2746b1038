//! A place that was settled is pruned or expanded.
ghost use Rattle.std.specs.Prelude.{◌≡◌, ℕ};
ghost use Rattle.halves.specs.Views.{meeting_view};
ghost use Rattle.routes.specs.States.{Origin as Source};
ghost use Rattle.routes.specs.Labels.{labels_view, start_at};
ghost use Rattle.routes.specs.Search.{Given, Both, Half, lowered, taken, step};
ghost use Rattle.turns.specs.Findings.{Beside, Shown, FewTurns};
ghost use Rattle.turns.specs.Advances.{SettledAt};
ghost use Rattle.turns.specs.Turnings.{pruned_by, expanded_by};
ghost use Rattle.table.specs.Views.{ends_of};
ghost use Rattle.halves.specs.Sides.{Agrees, Steadied};
ghost use Rattle.routes.specs.Members.{operations};

use crate::bounds::{gate_after, is_too_dear, lesser, upper_through};
use crate::findings::{Between, Findings};
use fringe::fringes::Fringe;
use fringe::order::Order;
use fringe::place::Place;
use halves::{best_meeting, expand, label_at};
use map::maps::Map;
use measure::measures::Measure;
use routes::labels::Label;

/// The upper bound once u was settled: it falls to the cost of a way through the stored pair, if u is its first place, the
/// other side settled its second, and that is less. `cost` is what is paid up to there.
pub fn upper_after<M: Measure + Copy>(
    pair: Option<(Place, Place)>,
    u: Place,
    cost: M,
    others: &[Label<M>],
    upper: M,
) -> M
    ensures { (back_of : ℕ → ℕ) → result ≡ lowered (operations M.Order M.Measure.own) (ends_of pair) u.0 cost (labels_view back_of others.now) upper }
{
    let Some(ends) = pair else {
        return upper;
    };
    if ends.0 == u {
        upper_through(label_at(others, ends.1), cost, upper)
    } else {
        upper
    }
}

/// What was found once the place of this turn is pruned: the own gate cost and the upper bound as the turn left them, and
/// one place more that was pruned.
fn pruned<M: Measure + Copy>(found: Findings<M>, own_gate: Option<M>, upper: M) -> Findings<M>
    ensures { result ≡ pruned_by found own_gate upper }
{
    Findings {
        own_gate,
        upper,
        pruned: found.pruned.saturating_add(1),
        ..found
    }
}

/// What was found once the place of this turn is expanded: one place more, and where the sides then met, if the sum there
/// is below best, the new best.
fn expanded<M: Measure + Copy>(
    found: Findings<M>,
    own_gate: Option<M>,
    upper: M,
    met: Option<(Place, M)>,
) -> Findings<M>
    ensures { result ≡ expanded_by M.Order.thing M.Order.leq found own_gate upper met }
{
    let so_far = Findings {
        own_gate,
        upper,
        expanded: found.expanded.saturating_add(1),
        ..found
    };
    match met {
        Some((meet, sum)) if sum.less(&found.best) => Findings {
            best: sum,
            upper: lesser(upper, sum),
            meet,
            ..so_far
        },
        _ => so_far,
    }
}

/// Prunes or expands u, which this side has just settled at `cost`, and answers what is found then.
///
/// `gate` says whether u is a border place of the side's own district, and `between` what the table says from u's district
/// to that of the other side's start.
pub fn advance<M: Measure + Copy, G: Map, F: Fringe<M>>(
    map: &G,
    u: Place,
    cost: M,
    gate: bool,
    between: Between<M>,
    labels: &mut [Label<M>],
    fringe: &mut F,
    others: &[Label<M>],
    found: Findings<M>,
) -> Findings<M>
    ensures shown { (back_of : ℕ → ℕ) (asked : Given M) (s t : ℕ) (x : Both M) (o : Source) → SettledAt M.Measure.cost (G.Map.model map.now) back_of labels.old others.now found u.0 cost gate between asked s t x o → Shown (start_at (G.Map.model map.now)) back_of labels.new others.now result (step (operations M.Order M.Measure.own) asked s t x (record { place = u.0; cost = cost; origin = o })) }
    ensures agree { Agrees M.Order F.Fringe fringe.old labels.old → Agrees M.Order F.Fringe fringe.new labels.new }
    ensures steady { F.Fringe.well fringe.old → Steadied F.Fringe fringe.old fringe.new }
{
    let own_gate = gate_after(found.own_gate, gate, cost);
    let paid = cost.add(between.cost);
    let upper = upper_after(between.pair, u, paid, others, found.upper);
    if is_too_dear(own_gate, found.other_gate, label_at(others, u), paid, upper) {
        return pruned(found, own_gate, upper);
    }
    expand(map, u, cost, labels, fringe);
    let met = best_meeting(map, u, labels, others);
    expanded(found, own_gate, upper, met)
}
