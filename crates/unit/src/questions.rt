//! A question answered.
ghost use Rattle.std.specs.Prelude.{◌≡◌, List};
ghost use Rattle.histories.specs.declared.calls.Call.{Call as CallOf};
ghost use Rattle.histories.specs.Histories.{map_after};
ghost use Rattle.unit.specs.Refusing.{question_refusal, verdict};
ghost use Rattle.unit.specs.Members.{Left, Least, Answering};
ghost use Rattle.unit.specs.Questions.{no_entry_now};

use crate::units::Unit;
use asking::{Answer, ask};
use fringe::fringes::Fringe;
use fringe::place::Place;
use histories::refusals::Refusal;
use map::maps::Map;
use measure::measures::Measure;
use routes::labels::Label;
use search::Question;

/// The lengths of the memory that a question is lent.
#[derive(Clone, Copy)]
struct Room {
    fore: usize,
    back: usize,
    near: usize,
    far: usize,
    list: usize,
}

/// Whether a question may go on, with that much room.
fn may_ask<G: Map>(base: &G, start: Place, goal: Place, room: Room) -> Result<(), Refusal>
    ensures { result ≡ verdict (question_refusal (G.Map.model base.now) start.0 goal.0 room.fore room.back room.near room.far room.list) }
{
    let n = base.places();
    if usize::from(start) >= n || usize::from(goal) >= n {
        return Err(Refusal::NoSuchPlace);
    }
    if room.fore < n || room.back < n {
        return Err(Refusal::ShortRow);
    }
    if room.near < n || room.far < n {
        return Err(Refusal::SmallFringe);
    }
    if room.list < n {
        return Err(Refusal::ShortList);
    }
    Ok(())
}

impl<M: Measure + Copy, G: Map> Unit<M, G> {
    /// Whether neither layer has an entry.
    fn is_untouched(&self) -> bool
        ensures { result ≡ no_entry_now self.now }
    {
        self.map.is_empty() && self.map.below.is_empty()
    }

    /// Answers the least cost of a route from the start to the goal over the roads that are open now, and writes the places of
    /// such a route into the list.
    ///
    /// Both rows of labels and both fringes may hold anything before. Only a label for each place is used; afterwards those
    /// are blank and the fringes are empty. Of the list only the places of the route are written.
    pub fn question<F: Fringe<M>, N: Fringe<M>>(
        &self,
        start: Place,
        goal: Place,
        fore: &mut [Label<M>],
        back: &mut [Label<M>],
        near: &mut F,
        far: &mut N,
        list: &mut [Place],
    ) -> Result<Answer<M>, Refusal>
        ensures rules { Answering M.Order M.Measure.own G.Map.model F.Fringe N.Fringe self.now start.0 goal.0 (record { fore = fore.old; back = back.old; near = near.old; far = far.old; list = list.old }) (record { fore = fore.new; back = back.new; near = near.new; far = far.new; list = list.new }) result }
        ensures least { (h : List CallOf) → Left M.Order M.Measure.own (G.Map.model self.now.map.below.below) h self.now → Least M.Order M.Measure.own (map_after (G.Map.model self.now.map.below.below) h) start.0 goal.0 list.new result }
    {
        let room = Room {
            fore: fore.len(),
            back: back.len(),
            near: near.capacity(),
            far: far.capacity(),
            list: list.len(),
        };
        may_ask(&self.map.below.below, start, goal, room)?;
        let n = self.map.below.below.places();
        let asked = Question {
            map: &self.map,
            base: &self.map.below.below,
            table: &self.table,
            pairs: self.is_untouched(),
            start,
            goal,
        };
        Ok(ask(&asked, &mut fore[0..n], near, &mut back[0..n], far, list))
    }
}
