// The checks of `join`, in the order of its answers: 26 of each layer, 26 and 27 of the two, 28 of all weights.
ghost use Rattle.std.specs.Prelude.{◌≡◌, ◌≤◌, length};
ghost use Rattle.base.specs.Rules.{first_broken};
ghost use Rattle.base.specs.Refusals.{code_of};
ghost use Rattle.layer.specs.Shape.{kernel_count};
ghost use Rattle.joined.specs.Joined.{joined_layer};
ghost use Rattle.join.specs.Answer.{filter_rules, pair_rules, shape_rules, fits, weights_fit, join_code};

use base::rules::{Refusal, require};
use joined::places::joined_layer;
use joined::weight::Filters;
use layer::shape::Layer;
use layer::sizes;

// 26: the layer is CONV with S 1 and P 0, its figures are in range, and its weights are as many as its figures say.
#[tactic(auto, unfolding(base::specs::Refusals::required, base::specs::Rules::inside))]
fn check_filter(layer: Layer, weights: usize) -> Result<(), Refusal>
    ensures { code_of result ≡ first_broken (filter_rules layer weights) }
{
    // The kind's number, as the rule has it: any other is refused.
    require(Refusal::Filter, layer.kind == 0)?;
    require(Refusal::Filter, layer.stride == 1)?;
    require(Refusal::Filter, layer.padding == 0)?;
    require(Refusal::Filter, (1..=64).contains(&layer.inputs))?;
    require(Refusal::Filter, (1..=64).contains(&layer.outputs))?;
    require(Refusal::Filter, (1..=11).contains(&layer.side))?;
    require(Refusal::Filter, weights == sizes::kernel_count(layer))
}

// 26: the channels between the two are as many, and `joined` has the room that the joined kernel needs. 27: its side is at most 11.
#[tactic(auto, unfolding(base::specs::Refusals::required))]
fn check_pair(first: Layer, second: Layer, room: usize) -> Result<(), Refusal>
    requires { (first.inputs ≤ 64) × (second.outputs ≤ 64) × (1 ≤ first.side) × (first.side ≤ 11) × (second.side ≤ 11) }
    ensures { code_of result ≡ first_broken (pair_rules first second room) }
{
    let joined = joined_layer(first, second);
    require(Refusal::Filter, first.outputs == second.inputs)?;
    require(Refusal::Filter, room == sizes::kernel_count(joined))?;
    require(Refusal::JoinedSide, joined.side <= 11)
}

// 26 and 27, of both layers and of the pair.
fn check_shape(
    first: Layer,
    first_weights: usize,
    second: Layer,
    second_weights: usize,
    room: usize,
) -> Result<(), Refusal>
    ensures { code_of result ≡ first_broken (shape_rules first first_weights second second_weights room) }
{
    check_filter(first, first_weights)?;
    check_filter(second, second_weights)?;
    check_pair(first, second, room)
}

// Whether a weight fits 16 signed bits.
fn is_weight(value: i64) -> bool
    ensures { result ≡ fits value }
{
    i16::try_from(value).is_ok()
}

// Whether every weight of the joined kernel fits, `count` of them.
fn weights_fit(filters: &Filters, count: usize) -> bool
    requires { count ≡ kernel_count (joined_layer filters.now.first filters.now.second) }
    ensures { result ≡ weights_fit filters.now.first filters.now.first_kernel.now filters.now.second filters.now.second_kernel.now }
{
    (0..count).all(|p| is_weight(filters.weight_at(p)))
}

// 26, 27 and 28. `room` is the length of `joined`, whose contents no check reads.
pub(crate) fn check_join(
    first: Layer,
    first_kernel: &[i16],
    second: Layer,
    second_kernel: &[i16],
    room: usize,
) -> Result<(), Refusal>
    ensures { code_of result ≡ join_code first first_kernel.now second second_kernel.now room }
{
    check_shape(first, first_kernel.len(), second, second_kernel.len(), room)?;
    let filters = Filters {
        first,
        first_kernel,
        second,
        second_kernel,
    };
    require(Refusal::JoinedWeight, weights_fit(&filters, room))
}
