//! Examples of maps turned round, over a grid.
#![tactic(auto)]

#[cfg(test)]
mod tests {
    use fringe::Place;
    use grid::Grid;
    use map::{Map, RoadId};
    use std::test::Fail;
    use turned::Turned;

    // Where a road starts.
    fn start<G: Map>(map: &G, number: u16) -> Option<Place> {
        Some(map.road(RoadId(number))?.start)
    }

    // Where a road ends.
    fn end<G: Map>(map: &G, number: u16) -> Option<Place> {
        Some(map.road(RoadId(number))?.end)
    }

    // The places 0 1 2 stand over 3 4 5. The tests of the grid itself have a grid of their own: tests of two crates share none.
    fn two_rows_of_three() -> Result<Grid, Fail> {
        Ok(Grid::new(2, 3, 2, 40, 15)?)
    }

    // Road 18 leads from 4 east to 5, and no road 19 leads south from 4.
    #[test]
    fn roads_driven_the_other_way(rt: HostRuntime) -> Result<(), Fail> {
        let grid = two_rows_of_three()?;
        let turned = Turned { of: &grid };
        assert_eq!(rt; start(&turned, 18), Some(Place(5)));
        assert_eq!(rt; end(&turned, 18), Some(Place(4)));
        assert_eq!(rt; start(&turned, 19), None);
        assert_eq!(rt; start(&Turned { of: &turned }, 18), Some(Place(4)));
        Ok(())
    }

    // Road 7 comes to 4 from the north and leaves it in the map turned round; road 18 comes to it there.
    #[test]
    fn lists_swapped(rt: HostRuntime) -> Result<(), Fail> {
        let grid = two_rows_of_three()?;
        let turned = Turned { of: &grid };
        assert_eq!(rt; turned.departure(Place(4), 0), Some(RoadId(7)));
        assert_eq!(rt; turned.arrival(Place(4), 2), Some(RoadId(18)));
        assert_eq!(rt; turned.arrival(Place(4), 3), None);
        Ok(())
    }
}
