//! The least of what is reached, settled.
ghost use Rattle.std.specs.Prelude.{◌≡◌, length};
ghost use Rattle.halves.specs.Labels.{spot, settled_at, paired};
ghost use Rattle.routes.specs.Parts.{finished, waiting};
ghost use Rattle.halves.specs.Sides.{Agrees};
ghost use Rattle.halves.specs.Settling.{Settling};
ghost use Rattle.halves.specs.Sides.{Agrees, Steadied};

use fringe::fringes::Fringe;
use fringe::order::Order;
use fringe::place::Place;
use routes::labels::Label;

/// The place with the cost of its label, if it waits to be settled.
fn due<C: Copy>(place: Place, label: Label<C>) -> Option<(Place, C)>
    ensures { result ≡ paired place (waiting label) }
{
    Some((place, label.waiting_cost()?))
}

/// Settles a place that is reached, and answers it with the cost in its label.
fn settle<C: Copy>(labels: &mut [Label<C>], place: Place) -> Option<(Place, C)>
    ensures labels { labels.new ≡ settled_at place.0 labels.old }
    ensures answer { result ≡ paired place (waiting (spot labels.old place.0)) }
{
    let i = usize::from(place);
    if i < labels.len() {
        let old = labels[i];
        labels[i] = old.settled();
        due(place, old)
    } else {
        None
    }
}

/// Takes the least of the fringe and settles its label. The cost in the answer is that of the label.
pub fn settle_least<C: Order + Copy, F: Fringe<C>>(
    labels: &mut [Label<C>],
    fringe: &mut F,
) -> Option<(Place, C)>
    ensures sized { length labels.new ≡ length labels.old }
    ensures labels { Agrees C.Order F.Fringe fringe.old labels.old → Settling C.Order.thing C.Order.leq labels.old labels.new result }
    ensures agree { Agrees C.Order F.Fringe fringe.old labels.old → Agrees C.Order F.Fringe fringe.new labels.new }
    ensures steady { F.Fringe.well fringe.old → Steadied F.Fringe fringe.old fringe.new }
{
    let (place, _) = fringe.take()?;
    settle(labels, place)
}
