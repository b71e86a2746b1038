//! Drives both kinds of fringe with many puts, takes and clears at three orders, and compares them with a plain scan.
#![tactic(auto)]

use fringe::{Fringe, Order, Pair, Place, drain};
use heap::Heap;
use measure::{Steepness, Time};
use winner_tree::WinnerTree;

/// How many places the fringes have room for.
const PLACES: usize = 60;

/// How many calls each fringe is driven with.
const CALLS: u32 = 3000;

/// A source of numbers that look random and are the same in every run.
#[derive(Drop)]
struct Dice(u32);

impl Dice {
    fn roll(&mut self) -> u32 {
        self.0 = self.0.wrapping_mul(1_664_525).wrapping_add(1_013_904_223);
        self.0 / 256
    }
}

/// An order of which costs can be drawn.
trait Drawn: Order + Copy {
    fn drawn(n: u32) -> Self;
}

impl Drawn for Time {
    fn drawn(n: u32) -> Time {
        Time(n % 40)
    }
}

impl Drawn for Steepness {
    fn drawn(n: u32) -> Steepness {
        Steepness((n % 5) as u16)
    }
}

impl Drawn for Pair {
    // Among the firsts is 65,535, under which the second counts for nothing.
    fn drawn(n: u32) -> Pair {
        Pair {
            first: (65_533 + n % 3) as u16,
            second: n / 3 % 7,
        }
    }
}

/// Whether two costs stand for one thing.
fn same<C: Order>(a: &C, b: &C) -> bool {
    !a.less(b) && !b.less(a)
}

/// Whether two answers name one place and costs that stand for one thing.
fn agree<C: Order + Copy>(a: Option<(Place, C)>, b: Option<(Place, C)>) -> bool {
    match (a, b) {
        (Some((p, c)), Some((q, d))) => p == q && same(&c, &d),
        (None, None) => true,
        _ => false,
    }
}

/// The least of a row, and of equals the lowest place, by looking at every place.
fn scan<C: Order + Copy>(row: &[Option<C>]) -> Option<(Place, C)> {
    (0..PLACES as u16)
        .zip(row)
        .filter_map(|(p, cost)| Some((Place(p), (*cost)?)))
        .reduce(|best, next| if next.1.less(&best.1) { next } else { best })
}

/// Enters a place of a row, or lowers its cost.
fn enter<C: Order + Copy>(row: &mut [Option<C>], p: usize, cost: C) {
    if let Some(held) = row.get_mut(p) {
        if held.is_none_or(|old| cost.less(&old)) {
            *held = Some(cost);
        }
    }
}

/// Takes what is held at a place out of a row.
fn leave<C: Copy>(row: &mut [Option<C>], taken: Option<(Place, C)>) {
    if let Some((place, _)) = taken {
        if let Some(held) = row.get_mut(usize::from(place)) {
            *held = None;
        }
    }
}

/// Makes one call, chosen by the dice, of the fringe and of the row; answers whether they agree.
fn call_both<C: Drawn, F: Fringe<C>>(
    fringe: &mut F,
    row: &mut [Option<C>],
    dice: &mut Dice,
) -> bool {
    match dice.roll() % 100 {
        0 => {
            fringe.clear();
            row.fill(None);
            agree(fringe.least(), None)
        }
        1..40 => {
            let expected = scan(row);
            leave(row, expected);
            agree(fringe.take(), expected)
        }
        _ => {
            let p = (dice.roll() % 64) as usize;
            let cost = C::drawn(dice.roll());
            enter(row, p, cost);
            let entered = fringe.put(Place(p as u16), cost).is_ok();
            entered == (p < PLACES) && agree(fringe.least(), scan(row))
        }
    }
}

/// Drains the fringe and the row; answers how often they differ.
fn drain_both<C: Drawn, F: Fringe<C>>(
    fringe: &mut F,
    row: &mut [Option<C>],
    out: &mut [(Place, C)],
) -> u32 {
    let count = drain(fringe, out);
    let mut differ = 0u32;
    for (i, entry) in out.iter().enumerate() {
        let expected = scan(row);
        leave(row, expected);
        let drained = (i < count).then_some(*entry);
        if !agree(drained, expected) {
            differ = differ.saturating_add(1);
        }
    }
    differ
}

/// Drives a fringe; answers how often it differs from a plain scan.
fn drive<C: Drawn, F: Fringe<C>>(
    fringe: &mut F,
    row: &mut [Option<C>],
    out: &mut [(Place, C)],
) -> u32 {
    row.fill(None);
    // No fringe holds this place: an entry that the drain leaves unwritten differs.
    for entry in out.iter_mut() {
        *entry = (Place(PLACES as u16), C::drawn(0));
    }
    let mut dice = Dice(7);
    let mut differ = 0u32;
    for _ in 0..CALLS {
        if !call_both(fringe, row, &mut dice) {
            differ = differ.saturating_add(1);
        }
    }
    differ.saturating_add(drain_both(fringe, row, out))
}

/// How often a heap and a winner tree over this memory differ from a plain scan.
fn differences<C: Drawn>(
    entries: &mut [(Place, C)],
    costs: &mut [Option<C>],
    winners: &mut [Option<(Place, C)>],
    row: &mut [Option<C>],
    out: &mut [(Place, C)],
) -> (u32, u32) {
    let mut positions = [5; 70];
    let by_heap = drive(&mut Heap::new(entries, &mut positions), row, out);
    let by_tree = drive(&mut WinnerTree::new(costs, winners), row, out);
    (by_heap, by_tree)
}

/// The same, in memory for each place that holds this cost everywhere before: an array for each order, since one of a type
/// parameter is not known to fit into memory.
fn all_differences() -> [(&'static str, (u32, u32)); 3] {
    let time = (Place(9), Time(3));
    let steep = (Place(9), Steepness(3));
    let pair = (
        Place(9),
        Pair {
            first: 65_535,
            second: 3,
        },
    );
    [
        (
            "time",
            differences(
                &mut [time; PLACES],
                &mut [Some(time.1); PLACES],
                &mut [Some(time); 70],
                &mut [None; PLACES],
                &mut [time; 64],
            ),
        ),
        (
            "steepness",
            differences(
                &mut [steep; PLACES],
                &mut [Some(steep.1); PLACES],
                &mut [Some(steep); 70],
                &mut [None; PLACES],
                &mut [steep; 64],
            ),
        ),
        (
            "pairs",
            differences(
                &mut [pair; PLACES],
                &mut [Some(pair.1); PLACES],
                &mut [Some(pair); 70],
                &mut [None; PLACES],
                &mut [pair; 64],
            ),
        ),
    ]
}

fn run(rt: &HostRuntime) -> anyhow::Result<()> {
    for (kind, (heap, tree)) in all_differences() {
        println!(rt;
            "{kind}: of {CALLS} calls {heap} differ at the heap, {tree} at the winner tree"
        )?;
    }
    Ok(())
}

fn main(rt: HostRuntime) -> anyhow::Result<()> {
    run(&rt)
}
