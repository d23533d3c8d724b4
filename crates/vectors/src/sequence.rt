// Numbers of a fixed sequence, and map values and weights drawn from it.
ghost use Rattle.std.specs.Prelude.{◌≡◌, ◌<◌, ◌≤◌, length};
ghost use Rattle.vectors.specs.Sequence.{next_number, number_after, values_drawn};

// The next number of the sequence.
pub fn next(seed: u64) -> u64
    ensures { (result ≡ next_number seed) × (result < 2147483648) }
{
    (seed % 2147483648 * 1103515245 + 12345) % 2147483648
}

// Fills the values with one number after another as a value from −peak to peak, and hands back the last number, to go on with.
pub fn draw_values(values: &mut [i16], peak: u64, seed: u64) -> u64
    requires { peak ≤ 16383 }
    ensures value { result ≡ number_after (length values.old) seed }
    ensures values_after { values.new ≡ values_drawn peak seed values.old }
{
    let mut state = seed;
    for value in values.iter_mut() {
        state = next(state);
        let drawn = (state % (2 * peak + 1)) as i16;
        *value = drawn - peak as i16;
    }
    state
}
