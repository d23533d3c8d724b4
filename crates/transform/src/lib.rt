// The transform pair: `transform` and `inverse` check the field and the words, and leave refused words as they were; each undoes the other.
#![tactic(auto)]

ghost use Rattle.std.specs.Prelude.{◌≡◌};
ghost use Rattle.base.specs.Refusals.{code_of};
ghost use Rattle.fermat.specs.Transform.{transform_in, inverse_in};
ghost use Rattle.transform.specs.Answer.{Operation, transform_code, answered, transformed, inverted, row, Accepted};

use base::rules::{Refusal, code_of, require};
use fermat::field;
use passes::{Forward, Inverse, Residues, order};

mod residues;

// The rules 2, 18 and 19.
fn check(field: usize, words: &[u64]) -> Result<(), Refusal>
    ensures { code_of result ≡ transform_code field words.now }
{
    require(Refusal::Field, (4..=5).contains(&field))?;
    require(
        Refusal::WordCount,
        words.len() == field::transform_length(field),
    )?;
    require(
        Refusal::Residues,
        residues::all_below(words, field::modulus_of(field)),
    )
}

// A transform of a row of N residues.
trait RowTransform {
    ghost operation: { Operation };

    // It takes the place of the accepted words.
    fn replace(field: usize, words: &mut [u64])
        requires { Accepted field words.old }
        ensures { words.new ≡ row operation field words.old };
}

// In passes, then from bit-reversed order to order, then to residues.
impl RowTransform for Forward {
    ghost operation = { transform_in };

    fn replace(field: usize, words: &mut [u64]) {
        let n = words.len();
        passes::forward(words, n, n, 1, 1, Residues::of_field(field));
        order::reorder(words, field::halvings_of(field));
        residues::scale(words, 1, field::modulus_of(field));
    }
}

// The same steps backwards, and the division by N.
impl RowTransform for Inverse {
    ghost operation = { inverse_in };

    fn replace(field: usize, words: &mut [u64]) {
        let n = words.len();
        order::reorder(words, field::halvings_of(field));
        passes::inverse(words, n, 1, 1, Residues::of_field(field));
        residues::scale(words, field::scale_of(field), field::modulus_of(field));
    }
}

// Refused words are left as they were.
fn checked<T: RowTransform>(field: usize, words: &mut [u64]) -> Result<(), Refusal>
    ensures { (code_of result ≡ transform_code field words.old) × (words.new ≡ answered T.operation field words.old) }
{
    check(field, words)?;
    T::replace(field, words);
    Ok(())
}

// The transform in the field of that number, 4 or 5, of N residues. Refused words are left as they were.
pub fn transform(field: usize, words: &mut [u64]) -> usize
    ensures { (result ≡ transform_code field words.old) × (words.new ≡ transformed field words.old) }
{
    code_of(checked::<Forward>(field, words))
}

// Its inverse.
pub fn inverse(field: usize, words: &mut [u64]) -> usize
    ensures { (result ≡ transform_code field words.old) × (words.new ≡ inverted field words.old) }
{
    code_of(checked::<Inverse>(field, words))
}

// The transform, then its inverse: the words come back.
pub fn there_and_back(field: usize, words: &mut [u64]) -> usize
    ensures { (result ≡ transform_code field words.old) × (words.new ≡ words.old) }
{
    let code = transform(field, words);
    inverse(field, words);
    code
}
