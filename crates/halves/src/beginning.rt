//! A side made ready.
ghost use Rattle.std.specs.Prelude.{◌≡◌, ◌≤◌, length, replicate, slice_set};
ghost use Rattle.routes.specs.declared.labels.Label.TheVariants.{Blank, Reached as reached};
ghost use Rattle.routes.specs.declared.labels.Origin.TheVariants.{Start as start_origin};
ghost use Rattle.fringe.specs.Fringes.{Emptied};
ghost use Rattle.halves.specs.Beginnings.{ReachedAt};
ghost use Rattle.halves.specs.Sides.{Agrees, Steadied};

use crate::rows::blank;
use fringe::fringes::Fringe;
use fringe::order::Order;
use fringe::place::Place;
use routes::labels::{Label, Origin};

/// Blanks all labels and empties the fringe.
pub fn wipe<C: Order + Copy, F: Fringe<C>>(labels: &mut [Label<C>], fringe: &mut F)
    ensures labels { labels.new ≡ replicate (length labels.old) Blank }
    ensures emptied { Emptied (F.Fringe.meaning fringe.old) (F.Fringe.meaning fringe.new) }
    ensures well { F.Fringe.well fringe.new }
{
    blank(labels);
    fringe.clear();
}

/// Reaches a place as a start. A place that has no label is left alone.
pub fn reach<C: Order + Copy, F: Fringe<C>>(
    labels: &mut [Label<C>],
    fringe: &mut F,
    place: Place,
    cost: C,
)
    ensures reached { ReachedAt C.Order.thing C.Order.leq F.Fringe.well F.Fringe.meaning labels.old fringe.old place.0 cost labels.new fringe.new }
    ensures steady { F.Fringe.well fringe.old → Steadied F.Fringe fringe.old fringe.new }
{
    let i = usize::from(place);
    if i < labels.len() {
        labels[i] = Label::Reached(cost, Origin::Start);
        let _ = fringe.put(place, cost);
    }
}

/// Makes a side ready: all labels are blank but that of the start, which is reached at `zero`, and the fringe holds that.
///
/// A start that has no label is not reached.
pub fn begin<C: Order + Copy, F: Fringe<C>>(
    labels: &mut [Label<C>],
    fringe: &mut F,
    start: Place,
    zero: C,
)
    ensures labels { labels.new ≡ slice_set (replicate (length labels.old) Blank) start.0 (reached zero start_origin) }
    ensures agree { length labels.old ≤ (F.Fringe.meaning fringe.old).capacity → Agrees C.Order F.Fringe fringe.new labels.new }
    ensures steady { Steadied F.Fringe fringe.old fringe.new }
{
    wipe(labels, fringe);
    reach(labels, fringe, start, zero);
}
