// The number that a word is.
ghost use Rattle.std.specs.Prelude.{◌≡◌, true, Bool, ℕ, List};
ghost use Rattle.std.specs.Option.{SomeIff};
ghost use Rattle.words.specs.Words.{is_figure, whole_value, is_value, signed_value};
ghost use Rattle.words.specs.Reading.{FigureRead, SignedRead};

// A number that a word may be.
pub trait Number: Copy {
    // whether a word is such a number, and what it stands for
    ghost is_number: { List ℕ → Bool };

    ghost value_of: { List ℕ → Self };

    fn from_word(word: &[u8]) -> Option<Self>
        ensures { SomeIff result (is_number word.now ≡ true) (value_of word.now) };
}

// A number of the header: 0 to 65,535.
impl Number for usize {
    ghost is_number = { is_figure };

    ghost value_of = { whole_value };

    fn from_word(word: &[u8]) -> Option<usize> {
        whole_number(word).map(usize::from)
    }
}

// A number of map or kernel: at most one minus sign, then digits; it fits 16 signed bits.
impl Number for i16 {
    ghost is_number = { is_value };

    ghost value_of = { signed_value };

    fn from_word(word: &[u8]) -> Option<i16> {
        signed_number(word)
    }
}

// The number of digits in base ten, where it is at most 65,535.
fn whole_number(word: &[u8]) -> Option<u16>
    ensures { FigureRead word.now result }
{
    if word.is_empty() {
        return None;
    }
    let mut value = 0u16;
    for byte in word {
        if !byte.is_ascii_digit() {
            return None;
        }
        value = value.checked_mul(10)?.checked_add(u16::from(*byte - b'0'))?;
    }
    Some(value)
}

// A number with at most one minus sign before it, where it fits 16 signed bits.
fn signed_number(word: &[u8]) -> Option<i16>
    ensures { SignedRead word.now result }
{
    match word.strip_prefix(b"-") {
        Some(digits) => i16::try_from(-i32::from(whole_number(digits)?)).ok(),
        None => i16::try_from(whole_number(word)?).ok(),
    }
}
