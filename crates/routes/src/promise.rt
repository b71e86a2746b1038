//! The theorem of the search, for every measure.
ghost use Rattle.std.specs.Prelude.{◌≡◌};
ghost use Rattle.measure.specs.Members.{Lawful};
ghost use Rattle.routes.specs.Members.{Kept};

use measure::measures::Measure;

/// The zero of a measure, and with it the promise that the search keeps in that measure.
pub fn promised<M: Measure>() -> M
    ensures exact { result ≡ M.Measure.nil }
    ensures kept { Kept M.Order M.Measure.own }
{
    let zero = M::zero();
    keeps::<M>();
    zero
}

/// In a measure that keeps its laws the search keeps its promise: there is nothing to run.
fn keeps<M: Measure>()
    requires { Lawful M.Order M.Measure.own }
    ensures { Kept M.Order M.Measure.own }
{}
