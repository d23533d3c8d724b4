// What is known of the words of a field before its transforms, by its number.
ghost use Rattle.std.specs.Prelude.{◌≡◌, ◌^◌, ◌≤◌};
ghost use Rattle.spectrum.specs.Product.{settled_most};

use passes::Residues;

// Of words that are brought down. Loaded words are those of `Residues::of_field`.
pub fn settled(field: usize) -> Residues
    requires { field ≤ 5 }
    ensures { (result.bits ≡ 2 ^ field) × (result.bound ≡ settled_most field) }
{
    Residues::of_field(field).doubled()
}
