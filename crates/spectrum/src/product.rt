// Between the forward and the inverse transform of a tile or of a row: products of words that are not reduced, added up; the sums brought down to a
// small bound; and, after the inverse, residues. Each loop works word by word without a branch on a word.
ghost use Rattle.std.specs.Prelude.{◌≡◌, ℕ, ◌+◌, ◌-◌, ◌*◌, ◌/◌, ◌%◌, ◌^◌, ◌<◌, ◌≤◌, length, get_or};
ghost use Rattle.spectrum.specs.Product.{factor_most, Product, Settled, Accumulated, Reducible, OffsetResidue};

// What the loops below do with the words of a field, each field by its own steps.
pub trait Field {
    // The number of the field: that of F_t is t.
    ghost number: { ℕ };

    // The product of two words of transforms.
    fn product(a: u64, c: u64) -> u64
        requires { (a ≤ factor_most number) × (c ≤ factor_most number) }
        ensures { Product number a c result };

    // A word brought down.
    fn settled(v: u64) -> u64
        ensures { Settled number v result };
}

// The field of 65,537.
pub struct F4;

impl Field for F4 {
    ghost number = { 4 };

    // It fits a word. The remainders change nothing; they tell the compiler that the halves above are 0.
    fn product(a: u64, c: u64) -> u64 {
        (a % 4294967296) * (c % 4294967296)
    }

    // Its digits to the base 2^16, which is -1, with alternating signs.
    fn settled(v: u64) -> u64 {
        v % 65536 + v / 4294967296 % 65536 + 131074 - v / 65536 % 65536 - v / 281474976710656
    }
}

// The field of 4,294,967,297.
pub struct F5;

impl Field for F5 {
    ghost number = { 5 };

    // From halves of 32 bits, where 2^32 is -1. 70,373,039,161,345 is a multiple of the modulus and keeps the result from going below 0.
    fn product(a: u64, c: u64) -> u64 {
        let a_low = a % 4294967296;
        let a_high = a / 4294967296;
        let c_low = c % 4294967296;
        let c_high = c / 4294967296;
        let low = a_low * c_low;
        low % 4294967296 + 70373039161345 + a_high * c_high
            - low / 4294967296
            - a_high * c_low
            - a_low * c_high
    }

    // Its digits to the base 2^32, which is -1, with alternating signs.
    fn settled(v: u64) -> u64 {
        v % 4294967296 + 4294967297 - v / 4294967296
    }
}

// Adds to each of the first `count` words the product of the words `count` and twice `count` further on. The three parts stand in one buffer, so the
// words are read by their places.
pub fn accumulate<F: Field>(scratch: &mut [u64], count: usize)
    requires room { 3 * count ≤ length scratch.old }
    requires by_index { (i : ℕ) → i < count → get_or scratch.old i 0 < 9223372036854775808 }
    requires by_index_2 { (i : ℕ) → count ≤ i → i < 3 * count → get_or scratch.old i 0 ≤ factor_most F.number }
    ensures { Accumulated F.number count scratch.old scratch.new }
{
    for i in 0..count {
        scratch[i] += F::product(scratch[count + i], scratch[count + (count + i)]);
    }
}

// The same in the field of that number, which is asked once and not at each word.
pub fn accumulate_in(field: usize, scratch: &mut [u64], count: usize)
    requires le_field { (4 ≤ field) × (field ≤ 5) × (3 * count ≤ length scratch.old) }
    requires by_index { (i : ℕ) → i < count → get_or scratch.old i 0 < 9223372036854775808 }
    requires by_index_2 { (i : ℕ) → count ≤ i → i < 3 * count → get_or scratch.old i 0 ≤ factor_most field }
    ensures { Accumulated field count scratch.old scratch.new }
{
    if field == 4 {
        accumulate::<F4>(scratch, count);
    } else {
        accumulate::<F5>(scratch, count);
    }
}

// Each word brought down.
pub fn settle<F: Field>(words: &mut [u64])
    ensures { (i : ℕ) → i < length words.old → Settled F.number (get_or words.old i 0) (get_or words.new i 0) }
{
    for word in words.iter_mut() {
        *word = F::settled(*word);
    }
}

// The same in the field of that number.
pub(crate) fn settle_in(field: usize, words: &mut [u64])
    requires { (4 ≤ field) × (field ≤ 5) }
    ensures { (i : ℕ) → i < length words.old → Settled field (get_or words.old i 0) (get_or words.new i 0) }
{
    if field == 4 {
        settle::<F4>(words);
    } else {
        settle::<F5>(words);
    }
}

// A word v that an inverse leaves, as a residue: v / 2^rest and the offset, modulo 2^bits + 1. 2^rest is N² for a tile, and 1 / 2^rest is
// -2^(bits - rest). The offset is added so that the signed reading takes it away again, without a branch.
fn offset_residue(v: u64, bits: u32, rest: u32, offset: u64) -> u64
    requires { Reducible bits rest v × (offset ≡ 2 ^ bits / 2) }
    ensures { OffsetResidue bits rest v result }
{
    let top = 1u64 << bits;
    let cut = 1u64 << rest;
    let y = (v >> rest) + (top + 1 + offset) - ((v % cut) << (bits - rest));
    let q = y % top + (top + 1) - (y >> bits);
    let over = (q + (3 * top - 1)) >> (bits + 2);
    q - over * (top + 1)
}

// Each word that an inverse leaves as a residue, with the offset added.
pub fn offset_residues(words: &mut [u64], bits: u32, rest: u32, offset: u64)
    requires { (offset ≡ 2 ^ bits / 2) × ((i : ℕ) → i < length words.old → Reducible bits rest (get_or words.old i 0)) }
    ensures { (i : ℕ) → i < length words.old → OffsetResidue bits rest (get_or words.old i 0) (get_or words.new i 0) }
{
    for word in words.iter_mut() {
        *word = offset_residue(*word, bits, rest, offset);
    }
}
