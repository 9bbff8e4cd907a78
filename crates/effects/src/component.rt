// One component of an effect: sum and multiple, which stop at ±10^18.
ghost use Rattle.std.specs.Prelude.{◌≡◌, pos, ◌+ℤ◌, ◌*ℤ◌};
ghost use Rattle.effects.specs.Components.{stopped};

// At 128 bits, since to saturate at 64 takes longer.
const LIMIT: i128 = 1_000_000_000_000_000_000;

// Proved to fit after the clamp, so no TryFrom.
fn stop(z: i128) -> i64
    ensures { result ≡ stopped z }
{
    z.clamp(-LIMIT, LIMIT) as i64
}

pub(crate) fn component_sum(a: i64, b: i64) -> i64
    ensures { result ≡ stopped (a +ℤ b) }
{
    stop(i128::from(a) + i128::from(b))
}

pub(crate) fn component_multiple(factor: u32, a: i64) -> i64
    ensures { result ≡ stopped (pos factor *ℤ a) }
{
    stop(i128::from(factor) * i128::from(a))
}
