//! What is asked, and what a side of a search reads beside the map that it runs over.
use fringe::place::Place;
use map::numbers::District;
use table::Table;

/// From where to where. The map is read as it is now, districts, borders and the table are those of the base map, and stored
/// pairs are used only if `pairs` says so.
#[derive(Drop)]
pub struct Question<'a, G, B> {
    pub map: &'a G,
    pub base: &'a B,
    pub table: &'a Table,
    pub pairs: bool,
    pub start: Place,
    pub goal: Place,
}

/// Which way a side goes: along the roads from the start, or against them from the goal.
// An enum with two matches of two lines: a closure for each side would have to carry its contract through every turn.
#[derive(Clone, Copy, PartialEq, Eq, Debug)]
pub enum Way {
    Forward,
    Backward,
}

/// The base map and the district table; whether stored pairs may be used, which is where both layers are empty; the
/// districts of the side's own start and of the other side's; and which way the side goes.
#[derive(Drop)]
pub struct Guide<'a, B> {
    pub base: &'a B,
    pub table: &'a Table,
    pub pairs: bool,
    pub home: District,
    pub away: District,
    pub way: Way,
}
