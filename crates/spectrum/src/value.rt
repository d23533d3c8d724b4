// Signed values as words, and back. A value becomes a word that represents it; a residue that comes back has half of 2^bits added, its offset,
// so that its signed reading is one subtraction. Neither needs a branch.
ghost use Rattle.std.specs.Prelude.{◌≡◌, ◌≤◌};
ghost use Rattle.spectrum.specs.Value.{Word, offset_of, less_offset, Storable};

use fermat::field;

// The value and the modulus. It is not below 0, so no value needs a branch.
pub fn word(value: i16, modulus: u64) -> u64
    requires { (32768 ≤ modulus) × (modulus ≤ 4294967297) }
    ensures { Word modulus value result }
{
    (i64::from(value) + modulus as i64) as u64
}

// What the residues have added: 2^(bits − 1).
pub fn offset_of(field: usize) -> u64
    requires { field ≤ 5 }
    ensures { result ≡ offset_of field }
{
    (field::modulus_of(field) - 1) / 2
}

// A word less the offset.
pub fn value_of(word: u64, offset: u64) -> i32
    requires { (offset ≤ 2147483648) × Storable offset word }
    ensures { result ≡ less_offset offset word }
{
    (word as i64 - offset as i64) as i32
}
