// One binary64 number, read as the nearest whole number.
ghost use Rattle.std.specs.Prelude.{◌≡◌, ◌^◌, ◌<◌, T, ℤ, Some};
ghost use Rattle.readings.specs.Nearest.{readable, whole_of, read_of, nearest, tie};
ghost use Rattle.readings.specs.Rounded.{Rounded};

// The greatest magnitude that is read.
const LIMIT: f64 = 1_000_000_000.0;

// The exponent's field of 1/2. Below it a magnitude is below 1/2.
const HALF: u64 = 1022;

// The exponent's field at which a mantissa of 53 bits counts ones: a float of exponent e from 1 up is
// its mantissa times 2^(e - `ONES`).
const ONES: u64 = 1075;

// Whether x is finite and of magnitude at most `LIMIT`, by comparisons alone, as readings are to be tested. A NaN differs from itself.
#[tactic(auto, using(crate::proofs::Patterns::by_range))]
pub(crate) fn is_readable(x: f64) -> bool
    ensures { result ≡ readable x }
{
    if x != x {
        return false;
    }
    -LIMIT <= x && x <= LIMIT
}

// Where a half between `below` and `below` + 1 goes: away from zero.
fn tie_of(below: u64) -> u64
    requires { below < 2 ^ 53 }
    ensures { result ≡ tie below }
{
    below + 1
}

// The whole number nearest to `mantissa` / 2^`shift`.
#[tactic(auto, using(crate::proofs::Rounding::by_rest))]
fn nearest_quotient(mantissa: u64, shift: u64) -> u64
    requires { (mantissa < 2 ^ 53) × (0 < shift) × (shift < 64) }
    ensures { result ≡ nearest mantissa (2 ^ shift) }
{
    let whole = mantissa >> shift;
    let rest = mantissa & ((1 << shift) - 1);
    let half = 1 << (shift - 1);
    if rest < half {
        whole
    } else if rest == half {
        tie_of(whole)
    } else {
        whole + 1
    }
}

// The whole number nearest to x, from its sign, its exponent and its mantissa.
#[tactic(auto, using(crate::proofs::Patterns::by_pattern))]
pub(crate) fn nearest_whole(x: f64) -> i64
    requires { T (readable x) }
    ensures { result ≡ whole_of x }
{
    let bits = x.to_bits();
    let is_negative = (bits >> 63) == 1;
    let exponent = (bits >> 52) & 0x7ff;
    if exponent < HALF {
        return 0;
    }
    let mantissa = (bits & 0xf_ffff_ffff_ffff) | 0x10_0000_0000_0000;
    // Proved to fit, so no TryFrom, which would ask what to do if it did not.
    let size = nearest_quotient(mantissa, ONES - exponent) as i64;
    if is_negative { -size } else { size }
}

// What x is read as: the nearest whole number, or nothing if x is not finite or too great.
pub fn read(x: f64) -> Option<i64>
    ensures value { result ≡ read_of x }
    ensures rounded { (z : ℤ) → result ≡ Some z → Rounded x z }
{
    is_readable(x).then(|| nearest_whole(x))
}
