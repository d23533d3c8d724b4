// Noise from the sealed seed: `fill` fills a map with the values of one draw after another.
#![tactic(auto)]

ghost use Rattle.std.specs.Prelude.{◌≡◌};
ghost use Rattle.noise.specs.Draw.{noise_left, last_seed};

mod draw;

// Fills the map in order and returns the last seed; an empty map returns the seed. Every input is accepted.
#[tactic(auto, unfolding(crate::specs::Draw::seed_after))]
pub fn fill(seed: u32, map: &mut [i16]) -> u32
    ensures value { result ≡ last_seed seed map.old }
    ensures map_after { map.new ≡ noise_left seed map.old }
{
    let mut drawn = seed;
    for value in map.iter_mut() {
        drawn = draw::next_seed(drawn);
        *value = draw::value_of(drawn);
    }
    drawn
}
