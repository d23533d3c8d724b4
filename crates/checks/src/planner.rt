// The planner: the rules 1 to 9 in table order, 23 after 7, and the figures of a layer that breaks none. It takes any sixteen numbers.
ghost use Rattle.std.specs.Prelude.{◌≡◌};
ghost use Rattle.base.specs.Rules.{first_broken};
ghost use Rattle.base.specs.Refusals.{code_of};
ghost use Rattle.layer.specs.Planned.{added_fits, has_output, crop_fits, InRange, ExtentInRange};
ghost use Rattle.checks.specs.Engine.{engine_of};
ghost use Rattle.checks.specs.Checks.{map_rules, kernel_rules, output_rules, plan_code, plan_of};

use crate::method::{Method, last_field, part_total, scratch_words};
use base::rules::{Refusal, code_of, require};
use layer::shape::{Kind, Layer, Plan};
use layer::sizes;

// The rules 1 to 4.
fn check_map_size(layer: Layer, last_field: usize) -> Result<(), Refusal>
    ensures { code_of result ≡ first_broken (map_rules last_field layer) }
{
    require(Refusal::Kind, (0..=1).contains(&layer.kind))?;
    require(Refusal::Field, (4..=last_field).contains(&layer.field))?;
    let channels = (1..=64).contains(&layer.inputs) & (1..=64).contains(&layer.outputs);
    require(Refusal::Channels, channels)?;
    let size = (1..=512).contains(&layer.height) & (1..=512).contains(&layer.width);
    require(Refusal::MapSize, size)
}

// Whether rule 23 holds of the rows or columns that are added.
fn added_fits(layer: Layer, added: usize) -> bool
    ensures { result ≡ added_fits layer added }
{
    match layer.kind_of() {
        Kind::Conv => added == 0 && added < layer.stride,
        Kind::Tconv => added < layer.stride,
    }
}

// The rules 5 to 7 and 23.
fn check_kernel(layer: Layer) -> Result<(), Refusal>
    ensures { code_of result ≡ first_broken (kernel_rules layer) }
{
    require(Refusal::KernelSide, (1..=11).contains(&layer.side))?;
    require(Refusal::Stride, (1..=4).contains(&layer.stride))?;
    require(Refusal::Padding, layer.padding < layer.side)?;
    let added = added_fits(layer, layer.below) & added_fits(layer, layer.beside);
    require(Refusal::Added, added)
}

// Whether rule 8 holds of the map's height or width and what is added. The sum is taken before the difference, which may be below 0.
fn has_output(layer: Layer, extent: usize, added: usize) -> bool
    requires { ExtentInRange layer extent added }
    ensures { result ≡ has_output layer extent added }
{
    match layer.kind_of() {
        Kind::Conv => layer.side <= extent + 2 * layer.padding,
        Kind::Tconv => 2 * layer.padding < (extent - 1) * layer.stride + layer.side + added,
    }
}

// Whether rule 9 holds of the rows or columns. The sum may not fit a word, so it is not taken.
#[tactic(auto, unfolding(layer::specs::Planned::crop_fits))]
fn crop_fits(first: usize, count: usize, full: usize) -> bool
    ensures { result ≡ crop_fits first count full }
{
    1 <= count && count <= full && first <= full - count
}

// The rules 8 and 9. The crop is held to a full output that is not below 1.
#[tactic(auto, unfolding(base::specs::Refusals::required))]
fn check_output(layer: Layer) -> Result<(), Refusal>
    requires { InRange layer }
    ensures { code_of result ≡ first_broken (output_rules layer) }
{
    let rows = has_output(layer, layer.height, layer.below);
    let columns = has_output(layer, layer.width, layer.beside);
    require(Refusal::Output, rows & columns)?;
    let height = sizes::full_size(layer, layer.height, layer.below);
    let width = sizes::full_size(layer, layer.width, layer.beside);
    let rows = crop_fits(layer.top, layer.rows, height);
    let columns = crop_fits(layer.left, layer.columns, width);
    require(Refusal::Crop, rows & columns)
}

// The rules 1 to 9 and 23.
pub fn check_plan(method: Method, layer: Layer) -> Result<(), Refusal>
    ensures { code_of result ≡ plan_code (engine_of method) layer }
{
    check_map_size(layer, last_field(method))?;
    check_kernel(layer)?;
    check_output(layer)
}

// The first of the rules 1 to 9 and 23 that is broken, or 0: what the crates above answer by number.
pub fn plan_code(method: Method, layer: Layer) -> usize
    ensures { result ≡ plan_code (engine_of method) layer }
{
    code_of(check_plan(method, layer))
}

// The answer to the rules 1 to 9 and 23, with E, F, the total of parts and the words of scratch; these are 0 where the layer is refused.
pub fn plan_by(method: Method, layer: Layer) -> Plan
    ensures { result ≡ plan_of (engine_of method) layer }
{
    match check_plan(method, layer) {
        Ok(()) => Plan {
            code: 0,
            height: sizes::full_size(layer, layer.height, layer.below),
            width: sizes::full_size(layer, layer.width, layer.beside),
            parts: part_total(method, layer),
            scratch: scratch_words(method, layer),
        },
        Err(refusal) => Plan {
            code: refusal.number(),
            height: 0,
            width: 0,
            parts: 0,
            scratch: 0,
        },
    }
}
