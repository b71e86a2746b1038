//! The whole search.
ghost use Rattle.std.specs.Prelude.{◌≡◌, ◌<◌, false, length};
ghost use Rattle.routes.specs.Unspliced.{Unspliced};
ghost use Rattle.search.specs.declared.guides.Way.TheVariants.{Forward, Backward};
ghost use Rattle.search.specs.Guides.{GuideOf};
ghost use Rattle.search.specs.Outset.{outset};
ghost use Rattle.search.specs.Rounds.{Left};
ghost use Rattle.halves.specs.Sides.{Steadied};
ghost use Rattle.measure.specs.Members.{Lawful};
ghost use Rattle.search.specs.Members.{AskedIn, ended};

use crate::guides::{Guide, Question, Way};
use crate::reading::district_of;
use crate::running::run;
use fringe::fringes::Fringe;
use fringe::place::Place;
use halves::begin;
use map::maps::Map;
use measure::measures::Measure;
use routes::labels::Label;
use turns::Findings;

/// What is found before the first turn: nothing, unless start and goal are one place, which is then where the sides meet.
fn outset<M: Measure + Copy>(start: Place, goal: Place) -> Findings<M>
    ensures { result ≡ outset M.Measure.nil M.Measure.top start goal }
{
    let cost = if start == goal {
        M::zero()
    } else {
        M::blocked()
    };
    Findings {
        own_gate: None,
        other_gate: None,
        best: cost,
        upper: cost,
        meet: start,
        expanded: 0,
        pruned: 0,
    }
}

impl<'a, G: Map, B: Map> Question<'a, G, B> {
    /// What the side from the start goes by.
    fn along(&self) -> Guide<B>
        ensures { GuideOf Forward (B.Map.model self.now.base.now) self.now.base.now self.now.table.now self.now.pairs self.now.start.0 self.now.goal.0 result }
    {
        self.guide(Way::Forward, self.start, self.goal)
    }

    /// What the side from the goal goes by.
    fn against(&self) -> Guide<B>
        ensures { GuideOf Backward (B.Map.model self.now.base.now) self.now.base.now self.now.table.now self.now.pairs self.now.goal.0 self.now.start.0 result }
    {
        self.guide(Way::Backward, self.goal, self.start)
    }

    /// What the side from one place to another goes by.
    fn guide(&self, way: Way, from: Place, to: Place) -> Guide<B>
        ensures { GuideOf way (B.Map.model self.now.base.now) self.now.base.now self.now.table.now self.now.pairs from.0 to.0 result }
    {
        Guide {
            base: self.base,
            table: self.table,
            pairs: self.pairs,
            home: district_of(self.base, from),
            away: district_of(self.base, to),
            way,
        }
    }
}

/// Searches for a least-cost route from the start to the goal, from both ends at once, and leaves its labels in the rows.
///
/// Where it found a route, the two halves share the meeting place alone.
pub fn search<M: Measure + Copy, G: Map, B: Map, F: Fringe<M>, N: Fringe<M>>(
    asked: &Question<G, B>,
    fore: &mut [Label<M>],
    near: &mut F,
    back: &mut [Label<M>],
    far: &mut N,
) -> Findings<M>
    ensures left { AskedIn G.Map.model B.Map.model asked.now (length fore.old) (length back.old) (F.Fringe.meaning near.old).capacity (N.Fringe.meaning far.old).capacity → Left (G.Map.model asked.now.map.now) fore.new back.new result (ended G.Map.model B.Map.model asked.now M.Order M.Measure.own) }
    ensures halved { asked.now.start.0 < (G.Map.model asked.now.map.now).places → asked.now.goal.0 < (G.Map.model asked.now.map.now).places → M.Order.leq (M.Order.thing M.Measure.top) (M.Order.thing (ended G.Map.model B.Map.model asked.now M.Order M.Measure.own).best) ≡ false → Unspliced (G.Map.model asked.now.map.now).places (ended G.Map.model B.Map.model asked.now M.Order M.Measure.own) }
    ensures laws { Lawful M.Order M.Measure.own }
    ensures near { Steadied F.Fringe near.old near.new }
    ensures far { Steadied N.Fringe far.old far.new }
{
    let zero = M::zero();
    begin(fore, near, asked.start, zero);
    begin(back, far, asked.goal, zero);
    run(
        asked.map,
        &asked.along(),
        &asked.against(),
        fore,
        near,
        back,
        far,
        outset(asked.start, asked.goal),
    )
}
