// A map to show for a range refusal: one within the peak that makes an output of a CONV layer equal the greatest load, where the window of some
// cropped output lies whole inside the map.
#![tactic(auto)]

ghost use Rattle.std.specs.Prelude.{◌≡◌, length};
ghost use Rattle.worst.specs.Answer.{worst_code, worst_left};

use answer::check_worst;
use layer::shape::Layer;
use output::worst_output;
use values::write_map;

mod answer;
mod output;
mod values;
mod window;

// Writes the map that makes the cropped output of the first channel with the greatest load, at the first window that lies whole inside the map, equal
// that load. A refused map is left as it was.
pub fn worst_map(layer: Layer, kernel: &[i16], map: &mut [i16]) -> usize
    ensures value { result ≡ worst_code layer kernel.now (length map.old) }
    ensures map_after { map.new ≡ worst_left layer kernel.now map.old }
{
    match check_worst(layer, kernel, map.len()) {
        Ok(()) => {
            let output = worst_output(layer, kernel);
            write_map(layer, kernel, output, map);
            0
        }
        Err(refusal) => refusal.number(),
    }
}
