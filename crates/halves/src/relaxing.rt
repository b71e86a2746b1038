//! A cost offered to a place.
ghost use Rattle.std.specs.Prelude.{◌≡◌};
ghost use Rattle.halves.specs.Labels.{improves, offered_at};
ghost use Rattle.halves.specs.Sides.{Agrees};
ghost use Rattle.halves.specs.Sides.{Agrees, Steadied};

use fringe::fringes::Fringe;
use fringe::order::Order;
use fringe::place::Place;
use map::numbers::RoadId;
use routes::labels::{Label, Origin};

/// Whether the cost may take the label's place.
fn better<C: Order + Copy>(cost: C, old: Label<C>) -> bool
    ensures { result ≡ improves C.Order.thing C.Order.leq cost old }
{
    match old {
        Label::Blank => true,
        Label::Reached(known, _) => cost.less(&known),
        Label::Settled(_, _) => false,
    }
}

/// Offers a place a cost over a road. A place that has no label is left alone.
pub fn relax<C: Order + Copy, F: Fringe<C>>(
    labels: &mut [Label<C>],
    fringe: &mut F,
    place: Place,
    cost: C,
    road: RoadId,
)
    ensures labels { labels.new ≡ offered_at C.Order.thing C.Order.leq cost road place.0 labels.old }
    ensures agree { Agrees C.Order F.Fringe fringe.old labels.old → Agrees C.Order F.Fringe fringe.new labels.new }
    ensures steady { F.Fringe.well fringe.old → Steadied F.Fringe fringe.old fringe.new }
{
    let i = usize::from(place);
    if i < labels.len() && better(cost, labels[i]) {
        labels[i] = Label::Reached(cost, Origin::Road(road));
        let _ = fringe.put(place, cost);
    }
}
