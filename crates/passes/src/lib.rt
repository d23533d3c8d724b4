// The transform of each lane, in passes over one array: as many as its length n has trailing zero bits. It serves a row (one lane), a tile (as
// many lanes as rows) and the corner of a tile (the other rows 0).
// At level i the n rows are 2^i blocks of n / 2^i rows. The forward transform goes up the levels: its pass splits every block into two
// (textbooks: decimation in frequency). The inverse goes down: its pass joins the two halves of every block (decimation in time).
#![tactic(auto)]

ghost use Rattle.std.specs.Prelude.{◌≡◌, refl, ◌+◌, ◌-◌, ◌*◌, ◌^◌, ◌<◌, length};
ghost use Rattle.passes.specs.Butterfly.{AtMost, StageSizes};
ghost use Rattle.passes.specs.Halving as Lanes;
ghost use Rattle.passes.specs.Halving.{Filled};
ghost use Rattle.passes.specs.Passes.{Direction, passes, step_of, level_of, WholeBlocks, Passed, Grid, Pruned, Transformed};

pub use bounded::Residues;
use butterfly::{Butterfly, stage};
pub use butterfly::{Forward, Inverse};

mod bounded;
pub mod butterfly;
pub mod order;

// A transform: its butterflies, and which way its passes go over the levels.
pub trait Transform: Butterfly {
    ghost direction: { Direction };

    // The level of a pass, by the passes before it and after it.
    fn level(before: u32, after: u32) -> u32
        ensures { result ≡ level_of direction before after };

    ghost steps: { Self.step ≡ step_of direction };
}

impl Transform for Forward {
    ghost direction = { Direction.Forward };

    fn level(before: u32, _after: u32) -> u32 {
        before
    }

    ghost steps = { refl };
}

impl Transform for Inverse {
    ghost direction = { Direction.Inverse };

    fn level(_before: u32, after: u32) -> u32 {
        after
    }

    ghost steps = { refl };
}

// The unit of the passes at a level: it doubles from level to level, since the root of a pass is that of the transform to the power of its blocks.
fn unit_of(unit: u32, level: u32) -> u32
    requires { (level < 32) × (unit * 2 ^ level < 4294967296) }
    ensures { result ≡ unit * 2 ^ level }
{
    unit << level
}

// One pass. Its blocks: all words, in blocks of two halves of `half` words. Its pairs: in each block, row r of the first half and row r of the
// second, for the first `rows` rows; the others are left as they are. Its powers: 2^(unit r) for row r, where 2^unit is the root of the pass.
// A `while`: with a `for` over the number of the block, as it was tried, the compiler asks once for all blocks whether two rows overlap, cannot
// tell, and takes the words of row 0 one by one, which is a tenth more instructions.
fn pass<B: Butterfly>(
    words: &mut [u64],
    rows: usize,
    half: usize,
    lanes: usize,
    unit: u32,
    residues: Residues,
)
    requires whole_blocks { WholeBlocks (length words.old) half × StageSizes (2 * half) rows lanes half unit residues.bits }
    requires at_most { AtMost residues.bound words.old }
    ensures { Passed B.step residues.bits residues.bound unit rows lanes half words.old words.new }
{
    let mut at = 0;
    while at < words.len() {
        let end = at + 2 * half;
        stage::<B>(&mut words[at..end], rows, half, lanes, unit, residues);
        at = end;
    }
}

// All passes of a transform. The bound doubles with each.
pub fn transform_lanes<T: Transform>(
    words: &mut [u64],
    n: usize,
    filled: usize,
    lanes: usize,
    unit: u32,
    residues: Residues,
)
    requires grid { Grid (length words.old) n lanes unit residues.bits residues.bound }
    requires at_most { AtMost residues.bound words.old }
    requires pruned { Pruned T.direction n filled lanes words.old }
    ensures transformed { Transformed T.direction residues.bits unit (passes n) lanes words.old words.new }
    ensures at_most_2 { AtMost (residues.bound * 2 ^ passes n) words.new }
{
    let count = usize::trailing_zeros(n);
    let mut residues = residues;
    for p in 0..count {
        let level = T::level(p, count - 1 - p);
        let half = n >> (level + 1);
        let rows = filled.min(half);
        pass::<T>(
            words,
            rows,
            half * lanes,
            lanes,
            unit_of(unit, level),
            residues,
        );
        residues = residues.doubled();
    }
}

// At the root 2^unit, rows in bit-reversed order at the end. Rows from `filled` on are 0, and their butterflies are left out.
pub fn forward(
    words: &mut [u64],
    n: usize,
    filled: usize,
    lanes: usize,
    unit: u32,
    residues: Residues,
)
    requires grid { Grid (length words.old) n lanes unit residues.bits residues.bound }
    requires at_most { AtMost residues.bound words.old }
    requires filled { Filled filled lanes words.old }
    ensures forward { Lanes.Forward (2 ^ residues.bits + 1) (2 ^ unit) (passes n) lanes words.old words.new }
    ensures at_most_2 { AtMost (residues.bound * 2 ^ passes n) words.new }
{
    transform_lanes::<Forward>(words, n, filled, lanes, unit, residues);
}

// At the inverse of 2^unit, from rows in bit-reversed order to rows in order, less the division by the length.
pub fn inverse(words: &mut [u64], n: usize, lanes: usize, unit: u32, residues: Residues)
    requires grid { Grid (length words.old) n lanes unit residues.bits residues.bound }
    requires at_most { AtMost residues.bound words.old }
    ensures inverse { Lanes.Inverse (2 ^ residues.bits + 1) ((2 ^ (residues.bits - 1) + 1) ^ unit) (passes n) lanes words.old words.new }
    ensures at_most_2 { AtMost (residues.bound * 2 ^ passes n) words.new }
{
    transform_lanes::<Inverse>(words, n, n, lanes, unit, residues);
}
