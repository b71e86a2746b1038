//! Examples of reading a cartridge.
#![tactic(auto)]

#[cfg(test)]
mod tests {
    use cartridge::Cartridge;
    use fringe::Place;
    use map::{District, Map, RoadId};
    use std::alloc::Global;
    use std::test::Fail;

    // Six places in the districts 0 0 1 1 1 2, and eight roads.
    const SAMPLE: [u8; 106] = [
        1, 0, 5, 0, 6, 3, 0, 8, 2, 0, 6, 0, 0, 1, 1, 1, 2, 3, 0, 64, 0, 0, 0, 1, 0, 10, 0, 50, 0,
        0, 0, 3, 0, 45, 0, 10, 0, 0, 0, 5, 0, 9, 0, 20, 0, 1, 0, 0, 0, 10, 0, 50, 0, 1, 0, 2, 0,
        20, 0, 30, 0, 2, 0, 3, 0, 5, 0, 80, 0, 3, 0, 4, 0, 8, 0, 10, 0, 5, 0, 0, 0, 9, 0, 20, 4, 0,
        16, 0, 3, 0, 7, 0, 0, 0, 4, 0, 1, 0, 5, 0, 6, 0, 2, 15, 0, 0,
    ];

    // The number and payload with which bytes are refused, if they are.
    fn refusal(bytes: &[u8]) -> Option<(u8, usize)> {
        let refusal = Cartridge::blank().read(bytes).err()?;
        Some((refusal.number(), refusal.payload()))
    }

    // A cartridge of so many places in one district, and no road.
    fn roadless(heap: Global, places: u16) -> Result<Vec<u8>, Fail> {
        let count = places.to_be_bytes();
        let mut bytes = Vec::new(heap);
        bytes.extend_from_slice(&[1, 0, 5])?;
        bytes.extend_from_slice(&count)?;
        bytes.extend_from_slice(&[1, 0, 0, 2])?;
        bytes.extend_from_slice(&count)?;
        for _ in 0..places {
            bytes.push(0)?;
        }
        bytes.extend_from_slice(&[3, 0, 0, 4, 0, 0, 15, 0, 0])?;
        Ok(bytes)
    }

    #[test]
    fn the_sample_lists_its_roads(rt: HostRuntime) {
        let mut mine = Cartridge::blank();
        assert!(rt; mine.read(&SAMPLE).is_ok());
        assert_eq!(rt; mine.departure(Place(0), 2), Some(RoadId(2)));
        assert_eq!(rt; mine.departure(Place(0), 3), None);
        assert_eq!(rt; mine.departure(Place(4), 0), None);
        assert_eq!(rt; mine.departure(Place(5), 0), Some(RoadId(7)));
        assert_eq!(rt; mine.arrival(Place(0), 0), Some(RoadId(3)));
        assert_eq!(rt; mine.arrival(Place(0), 1), Some(RoadId(7)));
        assert_eq!(rt; mine.arrival(Place(3), 0), Some(RoadId(1)));
        assert_eq!(rt; mine.arrival(Place(3), 1), Some(RoadId(5)));
        assert_eq!(rt; mine.arrival(Place(3), 2), None);
        assert_eq!(rt; mine.arrival(Place(6), 0), None);
    }

    #[test]
    fn the_sample_has_its_districts(rt: HostRuntime) {
        let mut mine = Cartridge::blank();
        assert!(rt; mine.read(&SAMPLE).is_ok());
        for (p, d) in [(0, 0), (1, 0), (2, 1), (3, 1), (4, 1), (5, 2)] {
            assert_eq!(rt; mine.district(Place(p)), Some(District(d)));
        }
        assert_eq!(rt; mine.district(Place(6)), None);
    }

    #[test]
    fn limits_are_kept(rt: HostRuntime) -> Result<(), Fail> {
        assert_eq!(rt; refusal(&roadless(rt.alloc(), 1024)?), None);
        assert_eq!(rt; refusal(&roadless(rt.alloc(), 1025)?), Some((4, 0)));
        let mut bytes = SAMPLE;
        bytes[24] = 0xea;
        bytes[25] = 0x60;
        assert_eq!(rt; refusal(&bytes), None);
        bytes[25] = 0x61;
        assert_eq!(rt; refusal(&bytes), Some((7, 0)));
        Ok(())
    }

    #[test]
    fn fields_are_walked_first(rt: HostRuntime) {
        assert_eq!(rt; refusal(&[]), Some((1, 0)));
        assert_eq!(rt;
            refusal(&[
                1, 0, 5, 0, 1, 1, 32, 0, 2, 0, 1, 0, 3, 0, 0, 4, 0, 0, 15, 0, 0,
            ],),
            Some((3, 12))
        );
        assert_eq!(rt;
            refusal(&[
                1, 0, 5, 0, 0, 1, 0, 0, 2, 0, 0, 3, 0, 0, 4, 0, 0, 15, 0, 0, 7,
            ],),
            Some((2, 20))
        );
    }
}
