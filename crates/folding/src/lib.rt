// Weighted sums of the n + m polynomials and of the n + m values, without making them: two columns that differ in one digit are
// folded into one, digit after digit.
#![tactic(auto)]

ghost use Rattle.std.specs.Prelude.{◌≡◌, ◌^◌, ◌<◌};

mod fold;
mod leaves;
pub mod polynomials;
pub mod values;

// 2 to the power e.
fn power(e: usize) -> usize
    requires { e < 64 }
    ensures { result ≡ 2 ^ e }
{
    1 << e
}
