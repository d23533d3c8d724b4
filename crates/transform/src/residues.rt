// Words of a row: whether all are residues, and each one times a number, reduced.
ghost use Rattle.std.specs.Prelude.{◌≡◌, ℕ, ◌*◌, ◌%◌, ◌<◌, ◌≤◌, length, get_or};
ghost use Rattle.transform.specs.Answer.{all_below};

// Whether every word is below m.
pub(crate) fn all_below(words: &[u64], m: u64) -> bool
    ensures { result ≡ all_below m words.now }
{
    words.iter().all(|word| *word < m)
}

// Each word is multiplied by s and becomes its remainder by m. The product of s and a remainder fits a word.
pub(crate) fn scale(words: &mut [u64], s: u64, m: u64)
    requires { (0 < m) × (m ≤ 4294967297) × (s < 4294967296) }
    ensures { (i : ℕ) → i < length words.old → get_or words.new i 0 ≡ (s * get_or words.old i 0) % m }
{
    for word in words.iter_mut() {
        *word = (s * (*word % m)) % m;
    }
}
