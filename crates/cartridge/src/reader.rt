//! Reading a cartridge, and the map that it is.
ghost use Rattle.std.specs.Prelude.{◌≡◌};
ghost use Rattle.format.specs.Reading.{map_in};
ghost use Rattle.cartridge.specs.Reads.{blank_bytes, Reads};
ghost use Rattle.format.proofs.Sound.{accepted_keeps_rules};

use crate::cartridges::Cartridge;
use crate::judge::judge;
use format::Refusal;
use fringe::Place;
use map::{District, Map, Road, RoadId};

/// The smallest cartridge: one place in one district, and no road.
static BLANK: [u8; 21] = [
    1, 0, 5, 0, 1, 1, 0, 0, 2, 0, 1, 0, 3, 0, 0, 4, 0, 0, 15, 0, 0,
];

impl<'a> Cartridge<'a> {
    /// A cartridge with one place and no road, for another to be read into.
    pub fn blank() -> Cartridge<'a>
        ensures { result.bytes.now ≡ blank_bytes }
    {
        Cartridge { bytes: &BLANK }
    }

    /// Reads bytes as a cartridge. If something is wrong with them, it says what comes first and leaves all as it was.
    pub fn read(&mut self, bytes: &'a [u8]) -> Result<(), Refusal>
        ensures { Reads bytes.now self.old.bytes.now self.new.bytes.now result }
    {
        judge(bytes)?;
        self.bytes = bytes;
        Ok(())
    }
}

impl<'a> Map for Cartridge<'a> {
    ghost model = { λ c. map_in c.bytes.now };

    ghost sound = { λ c. accepted_keeps_rules c.bytes.now c.accepted };

    fn places(&self) -> usize {
        usize::from(self.fields().place_count())
    }

    fn districts(&self) -> usize {
        usize::from(self.fields().district_count())
    }

    fn roads(&self) -> usize {
        usize::from(self.fields().road_count())
    }

    fn district(&self, place: Place) -> Option<District> {
        let districts = self.fields().districts();
        districts.get(usize::from(place)).copied().map(District)
    }

    fn road(&self, number: RoadId) -> Option<Road> {
        self.fields().road(number)
    }

    fn departure(&self, place: Place, j: usize) -> Option<RoadId> {
        self.nth_departure(place, j)
    }

    fn arrival(&self, place: Place, j: usize) -> Option<RoadId> {
        self.nth_arrival(place, j)
    }
}
