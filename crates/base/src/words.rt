// Words set to 0.
ghost use Rattle.std.specs.Prelude.{◌-◌, ◌≤◌, length};
ghost use Rattle.algebra.specs.Places.{Written, Run};

// Sets the words from `from` up to `to` to 0.
pub fn clear(words: &mut [u64], from: usize, to: usize)
    requires { (from ≤ to) × (to ≤ length words.old) }
    ensures { Written 0 (Run from (to - from)) (λ _. 0) words.old words.new }
{
    words[from..to].fill(0);
}
