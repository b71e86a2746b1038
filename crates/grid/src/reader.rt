//! The map that a grid is.
ghost use Rattle.map.specs.Grids.{grid_model};
ghost use Rattle.map.proofs.Grids.{grid_keeps_rules};
ghost use Rattle.grid.specs.Made.{figures_of, in_range};

use crate::grids::Grid;
use crate::sides::{DIRECTIONS, nth_present};
use crate::tiles::tiles_along;
use fringe::Place;
use map::{District, Map, Mark, Road, RoadId};

impl Map for Grid {
    ghost model = { λ g. grid_model (figures_of g) };

    ghost sound = { λ g. grid_keeps_rules (figures_of g) (in_range g) };

    fn places(&self) -> usize {
        usize::from(self.place_count())
    }

    fn districts(&self) -> usize {
        usize::from(tiles_along(self.columns, self.side) * tiles_along(self.rows, self.side))
    }

    fn roads(&self) -> usize {
        usize::from(4 * self.place_count())
    }

    fn district(&self, place: Place) -> Option<District> {
        Some(District(self.spot(place)?.tile() as u8))
    }

    fn road(&self, number: RoadId) -> Option<Road> {
        let start = self.spot(Place(number.0 / 4))?;
        let end = start.neighbour(DIRECTIONS[usize::from(number.0 % 4)])?;
        Some(Road {
            start: Place(start.place),
            end: Place(end),
            seconds: self.seconds,
            steepness: self.steepness,
            mark: Mark::Open,
        })
    }

    fn departure(&self, place: Place, j: usize) -> Option<RoadId> {
        let spot = self.spot(place)?;
        nth_present(DIRECTIONS.map(|d| spot.leaving_to(d)), j)
    }

    fn arrival(&self, place: Place, j: usize) -> Option<RoadId> {
        let spot = self.spot(place)?;
        nth_present(DIRECTIONS.map(|d| spot.arriving_from(d)), j)
    }
}
