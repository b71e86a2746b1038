//! Samples of the definitions that the contracts of the route finder cite.
#![tactic(auto)]

ghost use Rattle.std.specs.Prelude.{◌≡◌, true, length, nat_le};
ghost use Rattle.measure.specs.Times.{time, seconds_of, add_time};
ghost use Rattle.measure.specs.Steeps.{steep, per_mille_of, steeper};
ghost use Rattle.samples.specs.Maps.{maps, AllFit};
ghost use Rattle.samples.specs.Preparing.{RowsHold, MayBeAsked};
ghost use Rattle.samples.specs.Measures.{time_price, steep_price};
ghost use Rattle.samples.specs.Cases.{passes};
ghost use Rattle.samples.specs.Listed.{cases};

/// How many cases there are. All of them come out as expected, and their maps keep the rules of maps. The rows that they
/// are asked with hold: so does every row that the preparing of the samples gives, in time and in steepness, on any map
/// that keeps the rules. With all rows so prepared, questions may be asked about any such map.
pub fn sample_cases() -> usize
    ensures count { result ≡ length cases }
    ensures expected { passes cases ≡ true }
    ensures fitting { AllFit maps }
    ensures rows_in_time { RowsHold seconds_of nat_le add_time (time 0) (time 4294967295) time_price }
    ensures rows_in_steepness { RowsHold per_mille_of nat_le steeper (steep 0) (steep 65535) steep_price }
    ensures asked_in_time { MayBeAsked seconds_of nat_le add_time (time 0) (time 4294967295) time_price }
    ensures asked_in_steepness { MayBeAsked per_mille_of nat_le steeper (steep 0) (steep 65535) steep_price }
{
    26
}
