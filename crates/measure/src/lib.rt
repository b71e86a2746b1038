//! What roads cost, and how costs add up.
#![tactic(auto)]

pub mod measures;
pub mod steepness;
pub mod sums;
pub mod time;

pub use measures::Measure;
pub use steepness::Steepness;
pub use time::Time;

#[cfg(test)]
mod tests {
    use super::sums::at_least_both;
    use super::*;

    #[test]
    fn times(rt: HostRuntime) {
        assert_eq!(rt;
            at_least_both(Time::price(600, 70), Time::price(45, 3)),
            Time(645)
        );
        assert_eq!(rt; Time(4_294_967_290).add(Time(4)), Time(4_294_967_294));
        assert_eq!(rt; Time(4_294_967_290).add(Time(10)), Time::blocked());
        assert_eq!(rt; Time::from_number(Time(70_000).number()), Time(70_000));
    }

    #[test]
    fn grades(rt: HostRuntime) {
        assert_eq!(rt;
            at_least_both(Steepness::price(600, 70), Steepness::price(45, 3)),
            Steepness(70)
        );
        assert_eq!(rt; Steepness::zero().add(Steepness(3)), Steepness(3));
        assert_eq!(rt;
            Steepness(999).add(Steepness::blocked()),
            Steepness::blocked()
        );
        assert_eq!(rt;
            Steepness::from_number(Steepness(999).number()),
            Steepness(999)
        );
    }
}
