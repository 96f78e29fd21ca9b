// Signed 32-bit numbers, and their sum modulo 2^32.
ghost use Rattle.std.specs.Prelude.{◌≡◌};
ghost use Rattle.machine.specs.Integer.{sum_of};

// x + y modulo 2^32, in the signed range.
#[tactic(auto, using(crate::proofs::Bits::wrap_is), unfolding(crate::specs::Integer::wrapped))]
pub fn sum(x: i32, y: i32) -> i32
    ensures { result ≡ sum_of x y }
{
    x.wrapping_add(y)
}
