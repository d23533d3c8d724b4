// Two filters joined: one kernel for the second of two CONV layers over the first. `join` checks the layers, the lengths and every weight
// first, and leaves a refused kernel as it was.
#![tactic(auto)]

ghost use Rattle.std.specs.Prelude.{◌≡◌, true, length};
ghost use Rattle.layer.specs.Shape.{kernel_count};
ghost use Rattle.joined.specs.Joined.{joined_layer, joined_kernel};
ghost use Rattle.join.specs.Answer.{weights_fit, join_code, join_left};

use base::rules::code_of;
use joined::weight::Filters;
use layer::shape::Layer;

mod checks;

// Writes every weight; each was found to fit.
fn write_weights(filters: &Filters, joined: &mut [i16])
    requires joined_len { length joined.old ≡ kernel_count (joined_layer filters.now.first filters.now.second) }
    requires second_kernel_value { weights_fit filters.now.first filters.now.first_kernel.now filters.now.second filters.now.second_kernel.now ≡ true }
    ensures { joined.new ≡ joined_kernel filters.now.first filters.now.first_kernel.now filters.now.second filters.now.second_kernel.now }
{
    for (p, value) in joined.iter_mut().enumerate() {
        *value = filters.weight_at(p) as i16;
    }
}

// Writes the kernel of side K1 + K2 − 1 with which one layer does what the first and then the second do: CONV layers with S 1 and P 0, the
// second's C the first's M. A refused kernel is left as it was.
pub fn join(
    first: Layer,
    first_kernel: &[i16],
    second: Layer,
    second_kernel: &[i16],
    joined: &mut [i16],
) -> usize
    ensures value { result ≡ join_code first first_kernel.now second second_kernel.now (length joined.old) }
    ensures joined_after { joined.new ≡ join_left first first_kernel.now second second_kernel.now joined.old }
{
    let checked = checks::check_join(first, first_kernel, second, second_kernel, joined.len());
    if checked.is_ok() {
        let filters = Filters {
            first,
            first_kernel,
            second,
            second_kernel,
        };
        write_weights(&filters, joined);
    }
    code_of(checked)
}
