//! Examples of closures and slowdowns, over a grid and over a cartridge.
#![tactic(auto)]

#[cfg(test)]
mod tests {
    use cartridge::Cartridge;
    use entries::{Figure, Places};
    use grid::Grid;
    use layers::{Closures, Refusal, Slowdowns};
    use map::{Map, Mark, RoadId};
    use std::test::Fail;

    // Two places joined both ways: road 0 takes 10 seconds, road 1 takes 20.
    const PAIR: [u8; 42] = [
        1, 0, 5, 0, 2, 1, 0, 2, 2, 0, 2, 0, 0, 3, 0, 16, 0, 0, 0, 1, 0, 10, 0, 5, 0, 1, 0, 0, 0,
        20, 0, 5, 4, 0, 4, 0, 1, 0, 0, 15, 0, 0,
    ];

    // The number of a refusal, if there is one.
    fn number(answer: Result<(), Refusal>) -> Option<u8> {
        Some(answer.err()?.number())
    }

    // The seconds of a road as it reads.
    fn seconds<M: Map>(map: &M, road: u16) -> Option<u16> {
        Some(map.road(RoadId(road))?.seconds)
    }

    // Whether a road reads as closed.
    fn closed<M: Map>(map: &M, road: u16) -> bool {
        map.road(RoadId(road))
            .is_some_and(|x| x.mark == Mark::Closed)
    }

    // A grid of one row of 32 places, at 7 seconds. Its eastward roads are 4 × place + 2.
    fn row() -> Result<Grid, Fail> {
        Ok(Grid::new(1, 32, 32, 7, 3)?)
    }

    #[test]
    fn sixty_four_closures(rt: HostRuntime) -> Result<(), Fail> {
        let mut layer = Closures::new(Closures::new(row()?));
        let mut accepted = 0u32;
        for r in 0..128 {
            if layer.close(RoadId(r)).is_ok() {
                accepted = accepted.saturating_add(1);
            }
        }
        assert_eq!(rt; accepted, 62);
        assert_eq!(rt; number(layer.close(RoadId(0))), Some(11));
        assert_eq!(rt; number(layer.close(RoadId(2))), Some(12));
        assert_eq!(rt; number(layer.open(RoadId(2))), None);
        assert_eq!(rt; number(layer.open(RoadId(2))), Some(13));
        assert!(rt; !closed(&layer, 2));
        assert!(rt; closed(&layer, 6));
        Ok(())
    }

    #[test]
    fn the_sixty_fifth_is_refused(rt: HostRuntime) -> Result<(), Fail> {
        let mut layer = Closures::new(Grid::new(5, 5, 5, 7, 3)?);
        let mut accepted = 0u32;
        let mut full = 0u32;
        for r in 0..100 {
            match number(layer.close(RoadId(r))) {
                None => accepted = accepted.saturating_add(1),
                Some(14) => full = full.saturating_add(1),
                _ => {}
            }
        }
        assert_eq!(rt; (accepted, full), (64, 16));
        assert_eq!(rt; number(layer.close(RoadId(98))), Some(11));
        assert_eq!(rt; number(layer.close(RoadId(97))), Some(14));
        assert_eq!(rt; number(layer.open(RoadId(2))), None);
        assert_eq!(rt; number(layer.close(RoadId(97))), None);
        assert!(rt; closed(&layer, 97) && !closed(&layer, 2));
        Ok(())
    }

    #[test]
    fn slowdowns_over_a_grid(rt: HostRuntime) -> Result<(), Fail> {
        let mut layer = Slowdowns::new(row()?);
        assert_eq!(rt; number(layer.slow(RoadId(2), 60001)), Some(15));
        assert_eq!(rt; number(layer.slow(RoadId(2), 20)), None);
        assert_eq!(rt; seconds(&layer, 2), Some(20));
        assert_eq!(rt; number(layer.slow(RoadId(2), 9)), None);
        assert_eq!(rt; seconds(&layer, 2), Some(9));
        assert_eq!(rt; number(layer.slow(RoadId(2), 3)), None);
        assert_eq!(rt; seconds(&layer, 2), Some(7));
        assert!(rt; !layer.is_empty());
        assert_eq!(rt; number(layer.clear(RoadId(2))), None);
        assert_eq!(rt; number(layer.clear(RoadId(2))), Some(13));
        assert!(rt; layer.is_empty());
        Ok(())
    }

    // Figures of road 5.
    const THREE: Figure = Figure {
        road: RoadId(5),
        seconds: 3,
    };

    const NINE: Figure = Figure {
        road: RoadId(5),
        seconds: 9,
    };

    // Places of a caller: whoever renews one that they do not have hears of no refusal.
    #[derive(Clone, Copy)]
    struct Shelf {
        figures: [Figure; 64],
    }

    impl Places<Figure> for Shelf {
        ghost items = { λ shelf. shelf.figures };

        fn blank() -> Self {
            Shelf {
                figures: [THREE; 64],
            }
        }

        fn as_slice(&self) -> &[Figure] {
            &self.figures[..]
        }

        fn place(&mut self, i: usize, entry: Figure) {
            if i < 64 {
                self.figures[i] = entry;
            }
        }

        fn renew(&mut self, i: usize, entry: Figure) -> Result<(), Refusal> {
            if i < 64 {
                self.figures[i] = entry;
            }
            Ok(())
        }
    }

    #[test]
    fn a_place_is_renewed(rt: HostRuntime) {
        let mut places = [THREE; 64];
        assert_eq!(rt; number(places.renew(63, NINE)), None);
        assert_eq!(rt; (places[62].seconds, places[63].seconds), (3, 9));
        assert_eq!(rt; number(places.checked_renew(62, NINE)), None);
        assert_eq!(rt; (places[61].seconds, places[62].seconds), (3, 9));
    }

    #[test]
    fn a_place_that_is_not_there(rt: HostRuntime) {
        let mut places = [THREE; 64];
        assert_eq!(rt; number(places.checked_renew(64, NINE)), Some(13));
        assert!(rt; places.iter().all(|own| own.seconds == 3));
        let mut shelf = Shelf {
            figures: [THREE; 64],
        };
        assert_eq!(rt; number(shelf.renew(64, NINE)), None);
        assert_eq!(rt; number(shelf.checked_renew(64, NINE)), Some(13));
        assert!(rt; shelf.figures.iter().all(|own| own.seconds == 3));
    }

    #[test]
    fn layers_over_a_cartridge(rt: HostRuntime) {
        let mut mine = Cartridge::blank();
        assert!(rt; mine.read(&PAIR).is_ok());
        let mut layer = Closures::new(Slowdowns::new(mine));
        assert_eq!(rt; number(layer.below.slow(RoadId(1), 30)), None);
        assert_eq!(rt; number(layer.close(RoadId(0))), None);
        assert_eq!(rt; number(layer.close(RoadId(2))), Some(11));
        assert!(rt; closed(&layer, 0) && !closed(&layer, 1));
        assert_eq!(rt; seconds(&layer, 0), Some(10));
        assert_eq!(rt; seconds(&layer, 1), Some(30));
    }
}
