// One draw: the next seed, which wraps on purpose, and the value of a seed.
ghost use Rattle.std.specs.Prelude.{◌≡◌, ◌*◌, ◌%◌, ◌^◌};
ghost use Rattle.noise.specs.Draw.{seed_count, next_seed, noise_value};

// a times b, modulo 2^32.
fn wrapping_mul_u32(a: u32, b: u32) -> u32
    ensures { result ≡ (a * b) % 2 ^ 32 }
{
    a.wrapping_mul(b)
}

pub(crate) fn next_seed(seed: u32) -> u32
    ensures { result ≡ next_seed seed_count seed }
{
    wrapping_mul_u32(1664525, seed).wrapping_add(1013904223)
}

// The eight high bits of the seed, less 128.
#[tactic(auto, unfolding(crate::specs::Draw::noise_value))]
pub(crate) fn value_of(seed: u32) -> i16
    ensures { result ≡ noise_value seed }
{
    (seed / 16777216) as i16 - 128
}
