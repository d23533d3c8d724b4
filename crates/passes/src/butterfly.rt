// Butterflies on rows of lanes. Words are congruent to residues modulo 2^bits + 1 and at most `bound`; every step doubles the bound and
// reduces nothing, so no branch depends on a word and a loop over lanes works on several of them at once.
ghost use Rattle.std.specs.Prelude.{◌≡◌, ◌+◌, ◌*◌, ◌<◌, ◌≤◌, length};
ghost use Rattle.algebra.specs.Places.{Run};
ghost use Rattle.passes.specs.Butterfly.{Step, Multiple, TimesPower, StepMakes, TakesPower, Paired, PairsAtMost, AtMost, Staged, StageSizes};

use crate::bounded::Residues;

#[derive(Clone, Copy)]
pub struct Pair {
    pub low: u64,
    pub high: u64,
}

// d times 2^t: the bits from `bits` on come back below with the sign turned, and `margin`, a multiple of the modulus, keeps the
// result from going below 0.
fn times_power(d: u64, t: u32, bits: u32, margin: u64) -> u64
    requires multiple { Multiple bits margin }
    requires t_lt_bits { (t < bits) × (d ≤ 2 * margin) × (margin < 9223372036854775808) }
    ensures { TimesPower bits margin d t result }
{
    let s = bits - t;
    let p = 1u64 << s;
    ((d % p) << t) + margin - (d >> s)
}

// A kind of butterflies: what becomes of two words u and v, with a power p of 2.
pub trait Butterfly {
    ghost step: { Step };

    // With the power 2^t.
    fn pair(u: u64, v: u64, t: u32, residues: Residues) -> Pair
        requires { TakesPower step residues.bits t × (u ≤ residues.bound) × (v ≤ residues.bound) }
        ensures { StepMakes step residues.bits residues.bound t u v result.low result.high };
}

// u + v and u - v.
pub struct Plain;

impl Butterfly for Plain {
    ghost step = { Step.Plain };

    fn pair(u: u64, v: u64, _t: u32, residues: Residues) -> Pair {
        Pair {
            low: u + v,
            high: u + residues.bound - v,
        }
    }
}

// u + v and (u - v) p.
pub struct Forward;

impl Butterfly for Forward {
    ghost step = { Step.Forward };

    fn pair(u: u64, v: u64, t: u32, residues: Residues) -> Pair {
        let Residues { bits, bound } = residues;
        Pair {
            low: u + v,
            high: times_power(u + bound - v, t, bits, bound),
        }
    }
}

// u + v / p and u - v / p.
pub struct Inverse;

impl Butterfly for Inverse {
    ghost step = { Step.Inverse };

    fn pair(u: u64, v: u64, t: u32, residues: Residues) -> Pair {
        let Residues { bits, bound } = residues;
        let w = times_power(v, bits - t, bits, bound / 2);
        Pair {
            low: u + bound - w,
            high: u + w,
        }
    }
}

// Butterflies between the `lanes` words from `at` on and those half a list further. By index: over two rows lent from two halves, the proof of
// `stage` did not close.
fn butterflies<B: Butterfly>(
    words: &mut [u64],
    at: usize,
    half: usize,
    lanes: usize,
    t: u32,
    residues: Residues,
)
    requires words_len { (length words.old ≡ 2 * half) × (at + lanes ≤ half) × TakesPower B.step residues.bits t }
    requires pairs_at_most { PairsAtMost residues.bound (Run at lanes) half words.old }
    ensures { Paired (λ _. StepMakes B.step residues.bits residues.bound t) (Run at lanes) half words.old words.new }
{
    for k in 0..lanes {
        let p = at + k;
        let q = half + p;
        let pair = B::pair(words[p], words[q], t, residues);
        words[p] = pair.low;
        words[q] = pair.high;
    }
}

// One stage: butterflies between the first rows of the two halves, row r with the power 2^(unit r). Row 0, of power 1, comes last.
pub(crate) fn stage<B: Butterfly>(
    words: &mut [u64],
    rows: usize,
    half: usize,
    lanes: usize,
    unit: u32,
    residues: Residues,
)
    requires stage_sizes { StageSizes (length words.old) rows lanes half unit residues.bits }
    requires at_most { AtMost residues.bound words.old }
    ensures { Staged B.step residues.bits residues.bound unit rows lanes half words.old words.new }
{
    for r in 1..rows {
        butterflies::<B>(words, r * lanes, half, lanes, unit * r as u32, residues);
    }
    butterflies::<Plain>(words, 0, half, lanes, 0, residues);
}
