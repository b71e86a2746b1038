//! A row of the district table prepared.
ghost use Rattle.std.specs.Prelude.{◌≡◌, List};
ghost use Rattle.histories.specs.declared.calls.Call.{Call as CallOf};
ghost use Rattle.histories.specs.declared.calls.Call.TheVariants.{Prepare};
ghost use Rattle.histories.specs.Histories.{further};
ghost use Rattle.unit.specs.Refusing.{prepare_refusal, verdict};
ghost use Rattle.unit.specs.Members.{Left, Preparing};

use crate::units::Unit;
use fringe::fringes::Fringe;
use halves::blank;
use histories::refusals::Refusal;
use map::maps::Map;
use map::numbers::District;
use measure::measures::Measure;
use preparing::prepare_row;
use routes::labels::Label;

/// Whether a prepare may go on, with rows of labels of these lengths and a fringe of this capacity.
fn may_prepare<G: Map>(
    base: &G,
    district: District,
    first: usize,
    second: usize,
    capacity: usize,
) -> Result<(), Refusal>
    ensures { result ≡ verdict (prepare_refusal (G.Map.model base.now) district.0 first second capacity) }
{
    if usize::from(district) >= base.districts() {
        return Err(Refusal::NoSuchDistrict);
    }
    let n = base.places();
    if first < n || second < n {
        return Err(Refusal::ShortRow);
    }
    if capacity < n {
        return Err(Refusal::SmallFringe);
    }
    Ok(())
}

impl<M: Measure + Copy, G: Map> Unit<M, G> {
    /// Prepares the row of a district: the least costs from it to every district, on the base map. It answers how many places
    /// were taken to find them.
    ///
    /// Both rows of labels and the fringe may hold anything before. Only a label for each place is used; afterwards those are
    /// blank and the fringe is empty.
    pub fn prepare<F: Fringe<M>>(
        &mut self,
        district: District,
        first: &mut [Label<M>],
        second: &mut [Label<M>],
        fringe: &mut F,
    ) -> Result<usize, Refusal>
        ensures done { Preparing M.Order M.Measure.own G.Map.model F.Fringe district.0 self.old self.new first.old first.new second.old second.new fringe.old fringe.new result }
        ensures history { (h : List CallOf) → Left M.Order M.Measure.own (G.Map.model self.old.map.below.below) h self.old → Left M.Order M.Measure.own (G.Map.model self.old.map.below.below) (further h (Prepare district) result) self.new }
    {
        let n = self.map.below.below.places();
        may_prepare(
            &self.map.below.below,
            district,
            first.len(),
            second.len(),
            fringe.capacity(),
        )?;
        let prepared = prepare_row(&self.map.below.below, district, &mut first[0..n], fringe);
        blank(&mut second[0..n]);
        self.table.fill(district, &prepared.row);
        Ok(prepared.taken)
    }
}
