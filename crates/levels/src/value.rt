// The level of one output: its size is divided and clamped, then takes the sign of the output.
ghost use Rattle.std.specs.Prelude.{◌≡◌, cond, ◌/◌, ◌^◌, ◌≤◌, pos, negsuc};
ghost use Rattle.std.specs.Int.Signed.{lt_z};
ghost use Rattle.levels.specs.Level.{level};

// −1 where the value is below 0, else 1. `signum` has a third case, 0, that would be chosen between for every value.
fn sign(value: i32) -> i16
    ensures { result ≡ cond (lt_z value (pos 0)) (negsuc 0) (pos 1) }
{
    if value < 0 { -1 } else { 1 }
}

// `bits` is the shift, `rounding` half of 2^shift, `most` the bound B. A size and a rounding of at most 2^30 make less than 2^32. The sign is a
// factor: with an `if` around the result the compiler makes two ways, one for each sign, and computes both for every value.
pub(crate) fn level_of(value: i32, bits: u32, rounding: u32, most: u32) -> i16
    requires { (bits ≤ 31) × (rounding ≡ 2 ^ bits / 2) × (most ≤ 32767) }
    ensures { result ≡ level bits most value }
{
    let nearest = (value.unsigned_abs() + rounding) >> bits;
    let clamped = nearest.min(most);
    clamped as i16 * sign(value)
}
