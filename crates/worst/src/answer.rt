// The checks of `worst_map`, in the order of its answers: 1 to 9 with 23 of the layer, 10, 11 and 14, then 24 and 29.
ghost use Rattle.std.specs.Prelude.{◌≡◌};
ghost use Rattle.base.specs.Rules.{first_broken};
ghost use Rattle.base.specs.Refusals.{code_of};
ghost use Rattle.layer.specs.Planned.{InRange, Planned};
ghost use Rattle.load.specs.Weights.{Weighted};
ghost use Rattle.worst.specs.Answer.{length_rules, shown_rules, worst_code};

use crate::window::has_window;
use base::rules::{Refusal, require};
use checks::method::Method;
use checks::planner::check_plan;
use layer::shape::Layer;
use layer::sizes;
use load::judge_channels;

// The rules 10, 11 and 14. `room` is the length of the map to be written.
#[tactic(auto, unfolding(base::specs::Refusals::required))]
fn check_lengths(layer: Layer, kernel: &[i16], room: usize) -> Result<(), Refusal>
    requires { InRange layer }
    ensures { code_of result ≡ first_broken (length_rules layer kernel.now room) }
{
    require(Refusal::MapLength, room == sizes::map_count(layer))?;
    require(
        Refusal::KernelLength,
        kernel.len() == sizes::kernel_count(layer),
    )?;
    require(Refusal::Peak, (1..=32767).contains(&layer.peak))
}

// The rules 24 and 29. Whether the loads fit is not asked: a layer that 16 refuses is what the map is for.
#[tactic(auto, unfolding(base::specs::Refusals::required))]
fn check_shown(layer: Layer, kernel: &[i16]) -> Result<(), Refusal>
    requires { Planned layer × Weighted layer kernel.now }
    ensures { code_of result ≡ first_broken (shown_rules layer kernel.now) }
{
    let judged = judge_channels(layer, kernel);
    require(Refusal::BlankChannel, judged.nonzero)?;
    require(Refusal::NoWindow, has_window(layer))
}

// All rules.
pub(crate) fn check_worst(layer: Layer, kernel: &[i16], room: usize) -> Result<(), Refusal>
    ensures { code_of result ≡ worst_code layer kernel.now room }
{
    check_plan(Method::Tiles, layer)?;
    check_lengths(layer, kernel, room)?;
    check_shown(layer, kernel)
}
