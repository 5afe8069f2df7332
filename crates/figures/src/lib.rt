// The figures that the definitions of values, orders, filters and the sieve give, in one place.
#![tactic(auto)]

ghost use Rattle.std.specs.Prelude.{◌≡◌, true};
ghost use Rattle.figures.specs.Known.{Known};

pub fn figures_stand() -> bool
    ensures stand { Known }
    ensures answer { result ≡ true }
{
    true
}
