// The value at a point as numbers: 0 and two words, or that of the refusal, which leaves what was lent as it was.
// Tables of either degree: the number of words tells which. Contracts cite table_calls/specs/Call.
#![tactic(auto)]

ghost use Rattle.std.specs.Prelude.{◌≡◌};
ghost use Rattle.refusals.specs.Refusal.{code_of};
ghost use Rattle.table_calls.specs.Call.{evaluate_call, evaluate_after};

use given::Told;
use gray::Point;
use refusals::Refusal;

fn value_put(
    n: u64,
    m: u64,
    coefficients: &[u64],
    point: u64,
    value: &mut [u64],
) -> Result<(), Refusal>
    ensures { (result ≡ evaluate_call n m coefficients.now point value.old)
        × (value.new ≡ evaluate_after n m coefficients.now point value.old) }
{
    lent::room_for(n, m, value.len(), 2)?;
    let x = Point(point);
    let e = operations::evaluate(Told::by_length(n, m, coefficients), x);
    lent::put_value(e, value)
}

// The value of each equation at a point, as two words.
pub fn evaluate(n: u64, m: u64, coefficients: &[u64], point: u64, value: &mut [u64]) -> u64
    ensures { (result ≡ code_of (evaluate_call n m coefficients.now point value.old))
        × (value.new ≡ evaluate_after n m coefficients.now point value.old) }
{
    refusals::code(value_put(n, m, coefficients, point, value))
}
