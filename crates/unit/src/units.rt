//! A unit and the calls on its layers.
ghost use Rattle.std.specs.Prelude.{◌≡◌, ℕ, []};
ghost use Rattle.layers.specs.Closures.{LeftBy as ClosuresLeftBy};
ghost use Rattle.layers.specs.Slowdowns.{LeftBy as SlowdownsLeftBy};
ghost use Rattle.table.specs.Entries.{is_prepared};
ghost use Rattle.histories.specs.Histories.{is_row_prepared, lifted};
ghost use Rattle.unit.specs.Members.{Left, Closing, Opening, Slowing, Clearing};

use entries::refusals::Refusal as LayerRefusal;
use histories::refusals::Refusal;
use layers::closures::Closures;
use layers::slowdowns::Slowdowns;
use map::maps::Map;
use map::numbers::RoadId;
use measure::measures::Measure;
use std::marker::PhantomData;
use table::Table;

/// A unit: closures over slowdowns over any map, with a district table for one measure.
#[derive(Drop)]
pub struct Unit<M, G> {
    pub(crate) map: Closures<Slowdowns<G>>,
    pub(crate) table: Table,
    measure: PhantomData<M>,
}

impl<M: Measure + Copy, G: Map> Unit<M, G> {
    /// A unit over the base map: no road is closed or slowed, and no row is prepared.
    pub fn new(base: G) -> Self
        ensures base { result.map.below.below ≡ base }
        ensures history { Left M.Order M.Measure.own (G.Map.model base) [] result }
    {
        Unit {
            map: untouched(base),
            table: unprepared(),
            measure: PhantomData,
        }
    }

    /// Reads a road as closed from now on.
    pub fn close(&mut self, road: RoadId) -> Result<(), Refusal>
        ensures { Closing M.Order M.Measure.own G.Map.model road self.old self.new result }
    {
        self.close_road(road)?;
        Ok(())
    }

    /// Reads a road as it is below the closures again.
    pub fn open(&mut self, road: RoadId) -> Result<(), Refusal>
        ensures { Opening M.Order M.Measure.own G.Map.model road self.old self.new result }
    {
        self.open_road(road)?;
        Ok(())
    }

    /// Gives a road a figure, in place of the one that it may have.
    pub fn slow(&mut self, road: RoadId, seconds: u16) -> Result<(), Refusal>
        ensures { Slowing M.Order M.Measure.own G.Map.model road seconds self.old self.new result }
    {
        self.slow_road(road, seconds)?;
        Ok(())
    }

    /// Takes a road's figure away: it takes as long as on the base map again.
    pub fn clear(&mut self, road: RoadId) -> Result<(), Refusal>
        ensures { Clearing M.Order M.Measure.own G.Map.model road self.old self.new result }
    {
        self.clear_road(road)?;
        Ok(())
    }

    // The four calls on a layer are alike but for the layer's call: each is that one line, and a closure in its place would
    // need the call's contract written out.

    /// Closes a road on the layer of closures, which may refuse it.
    fn close_road(&mut self, road: RoadId) -> Result<(), LayerRefusal>
        ensures { Closing M.Order M.Measure.own G.Map.model road self.old self.new (lifted result) }
    {
        self.map.close(road)
    }

    /// Opens a road on the layer of closures, which may refuse it.
    fn open_road(&mut self, road: RoadId) -> Result<(), LayerRefusal>
        ensures { Opening M.Order M.Measure.own G.Map.model road self.old self.new (lifted result) }
    {
        self.map.open(road)
    }

    /// Slows a road on the layer of slowdowns, which may refuse it.
    fn slow_road(&mut self, road: RoadId, seconds: u16) -> Result<(), LayerRefusal>
        ensures { Slowing M.Order M.Measure.own G.Map.model road seconds self.old self.new (lifted result) }
    {
        self.map.below.slow(road, seconds)
    }

    /// Clears a road on the layer of slowdowns, which may refuse it.
    fn clear_road(&mut self, road: RoadId) -> Result<(), LayerRefusal>
        ensures { Clearing M.Order M.Measure.own G.Map.model road self.old self.new (lifted result) }
    {
        self.map.below.clear(road)
    }
}

/// The map with layers that have no entry.
fn untouched<G>(base: G) -> Closures<Slowdowns<G>>
    ensures base { result.below.below ≡ base }
    ensures closures { ClosuresLeftBy [] result }
    ensures slowdowns { SlowdownsLeftBy [] result.below }
{
    Closures::new(Slowdowns::new(base))
}

/// A table with no row prepared: what a history without calls leaves.
fn unprepared() -> Table
    ensures { (i : ℕ) → is_prepared result i ≡ is_row_prepared [] i }
{
    Table::new()
}
