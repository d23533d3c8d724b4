// Values as words, at places that stand apart.
ghost use Rattle.std.specs.Prelude.{ℕ, ◌*◌, ◌/◌, ◌≤◌, ◌<◌, T, pos, length, get_or};
ghost use Rattle.layer.specs.Windows.{spread};
ghost use Rattle.window.specs.Loaded.{Loaded};

use spectrum::value::word;

// The first word holds the first value, and each further value stands `SPACING` words after the one before. The spacing is a constant, so that the
// loop for values that stand side by side is compiled to many values at a time.
pub(crate) fn load_spaced<const SPACING: usize>(words: &mut [u64], values: &[i16], modulus: u64)
    requires spacing_nonzero { (0 < SPACING) × (32768 ≤ modulus) × (modulus ≤ 4294967297) }
    requires by_index { (i : ℕ) → i < length values.now → i * SPACING < length words.old }
    ensures { Loaded modulus (λ p. T (spread SPACING 0 (length values.now) p)) (λ p. get_or values.now (p / SPACING) (pos 0)) words.old words.new }
{
    for (i, value) in values.iter().enumerate() {
        words[i * SPACING] = word(*value, modulus);
    }
}

// The same where the spacing is known only when the layer is; values side by side are loaded by `load_spaced::<1>`.
pub(crate) fn load_apart(words: &mut [u64], spacing: usize, values: &[i16], modulus: u64)
    requires spacing_value { (2 ≤ spacing) × (spacing ≤ 4) × (32768 ≤ modulus) × (modulus ≤ 4294967297) }
    requires by_index { (i : ℕ) → i < length values.now → i * spacing < length words.old }
    ensures { Loaded modulus (λ p. T (spread spacing 0 (length values.now) p)) (λ p. get_or values.now (p / spacing) (pos 0)) words.old words.new }
{
    match spacing {
        2 => load_spaced::<2>(words, values, modulus),
        3 => load_spaced::<3>(words, values, modulus),
        _ => load_spaced::<4>(words, values, modulus),
    }
}
