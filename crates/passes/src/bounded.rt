// Words that stand for residues while a transform runs, reduced by nothing but bounded.
ghost use Rattle.std.specs.Prelude.{◌≡◌, ◌*◌, ◌^◌, ◌<◌, ◌≤◌};
ghost use Rattle.fermat.specs.Field.{modulus};
ghost use Rattle.passes.specs.Butterfly.{Bound};
ghost use Rattle.passes.specs.BoundLaws.{Bound-prop};

use fermat::field;

// What is known of the words of a buffer: the residues that they stand for are those modulo 2^bits + 1, and each word is at most `bound`,
// twice a multiple of the modulus.
#[derive(Clone, Copy, Debug)]
pub struct Residues {
    pub bits: u32,
    pub bound: u64,
    pub ghost bounded: { Bound bits bound } by { Bound-prop bits bound },
}

impl Residues {
    // Those of a field, in words of at most twice its modulus.
    pub fn of_field(field: usize) -> Residues
        requires { field ≤ 5 }
        ensures { (result.bits ≡ 2 ^ field) × (result.bound ≡ 2 * modulus field) }
    {
        Residues {
            bits: field::bits_of(field),
            bound: 2 * field::modulus_of(field),
        }
    }

    // The same residues in words of up to twice the bound, as one pass leaves them.
    pub fn doubled(self) -> Residues
        requires { self.bound < 4611686018427387904 }
        ensures { (result.bits ≡ self.bits) × (result.bound ≡ 2 * self.bound) }
    {
        Residues {
            bits: self.bits,
            bound: 2 * self.bound,
        }
    }
}
