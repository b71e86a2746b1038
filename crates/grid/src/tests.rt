//! Small grids, worked out by hand.
use crate::Grid;
use fringe::Place;
use map::{District, Map, RoadId};
use std::test::Fail;

/// Where a road leads.
fn end(grid: &Grid, number: u16) -> Option<Place> {
    Some(grid.road(RoadId(number))?.end)
}

/// The places 0 1 2 stand over 3 4 5, and their tiles are 0 0 1 over 0 0 1.
#[test]
fn two_rows_of_three(rt: HostRuntime) -> Result<(), Fail> {
    let grid = Grid::new(2, 3, 2, 40, 15)?;
    assert_eq!(rt; grid.district(Place(0)), Some(District(0)));
    assert_eq!(rt; grid.district(Place(1)), Some(District(0)));
    assert_eq!(rt; grid.district(Place(2)), Some(District(1)));
    assert_eq!(rt; grid.district(Place(3)), Some(District(0)));
    assert_eq!(rt; grid.district(Place(4)), Some(District(0)));
    assert_eq!(rt; grid.district(Place(5)), Some(District(1)));
    Ok(())
}

/// From place 4 roads lead north, west and east.
#[test]
fn roads_of_a_place(rt: HostRuntime) -> Result<(), Fail> {
    let grid = Grid::new(2, 3, 2, 40, 15)?;
    assert_eq!(rt; end(&grid, 16), Some(Place(1)));
    assert_eq!(rt; end(&grid, 17), Some(Place(3)));
    assert_eq!(rt; end(&grid, 18), Some(Place(5)));
    assert_eq!(rt; end(&grid, 19), None);
    assert_eq!(rt; grid.departure(Place(4), 2), Some(RoadId(18)));
    assert_eq!(rt; grid.departure(Place(4), 3), None);
    assert_eq!(rt; grid.arrival(Place(4), 0), Some(RoadId(7)));
    Ok(())
}

/// 8 by 8 tiles are allowed, 11 by 11 are too many, and so are 33 rows.
#[test]
fn range(rt: HostRuntime) -> Result<(), Fail> {
    assert_eq!(rt; Grid::new(32, 32, 4, 60000, 1000)?.places(), 1024);
    assert!(rt; Grid::new(32, 32, 3, 1, 1).is_err());
    assert!(rt; Grid::new(33, 1, 32, 1, 1).is_err());
    Ok(())
}
