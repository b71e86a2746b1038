//! A heap by hand.
ghost use Rattle.std.specs.Prelude.{◌≡◌, ℕ, nat_le};
ghost use Rattle.std.proofs.Common.{rules};

use super::*;
use std::test::Fail;

/// Whole minutes, compared as numbers.
#[derive(Clone, Copy, PartialEq, Eq, PartialOrd, Ord, Debug)]
struct Minutes(u32);

impl Order for Minutes {
    ghost Thing = { ℕ };

    ghost thing = { λ m. m.0 };

    ghost leq = { nat_le };

    ghost ordered = { Prim.search rules };

    fn less(&self, other: &Self) -> bool {
        self < other
    }
}

/// Equal costs go by place, a lower cost moves a place forward, and a greater one changes nothing.
#[test]
fn takes_by_cost_and_then_by_place(rt: HostRuntime) -> Result<(), Fail> {
    let mut entries = [(Place(9), Minutes(7)); 6];
    let mut positions = [3u16; 8];
    let mut heap = Heap::new(&mut entries, &mut positions);
    assert_eq!(rt; heap.put(Place(6), Minutes(1)), Err(Refusal::NoRoom));
    heap.put(Place(5), Minutes(20))?;
    heap.put(Place(2), Minutes(20))?;
    heap.put(Place(4), Minutes(30))?;
    heap.put(Place(0), Minutes(25))?;
    heap.put(Place(4), Minutes(10))?;
    heap.put(Place(0), Minutes(26))?;
    assert_eq!(rt; heap.least(), Some((Place(4), Minutes(10))));
    assert_eq!(rt; heap.take(), Some((Place(4), Minutes(10))));
    assert_eq!(rt; heap.take(), Some((Place(2), Minutes(20))));
    assert_eq!(rt; heap.take(), Some((Place(5), Minutes(20))));
    assert_eq!(rt; heap.take(), Some((Place(0), Minutes(25))));
    assert_eq!(rt; heap.take(), None);
    Ok(())
}
