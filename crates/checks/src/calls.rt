// The checks of a call, in table order: those of the planner, 10 to 16 of what is lent with 25 and 24 before 16, 17 of the job's index.
ghost use Rattle.std.specs.Prelude.{◌≡◌, length};
ghost use Rattle.base.specs.Rules.{first_broken};
ghost use Rattle.base.specs.Refusals.{code_of};
ghost use Rattle.layer.specs.Planned.{Planned};
ghost use Rattle.layer.specs.Shape.{map_count};
ghost use Rattle.load.specs.Offender.{no_offender};
ghost use Rattle.load.specs.Weights.{Weighted};
ghost use Rattle.checks.specs.Engine.{engine_of};
ghost use Rattle.checks.specs.Checks.{lent_rules, map_value_rules, weight_rules, job_code, offender_with};
ghost use Rattle.checks.specs.Found.{found};

use crate::method::{Method, part_total, scratch_words};
use crate::planner::check_plan;
use base::rules::{Refusal, require};
use layer::shape::Layer;
use layer::sizes;
use load::judge_channels;
use load::offender::{Offender, first_offender};

// Why a call is refused, with the place that is told.
#[derive(Clone, Copy)]
pub struct Refused {
    pub refusal: Refusal,
    pub offender: Offender, // the first map value beyond the peak with 15 and 25; zeros with any other number
}

impl From<Refusal> for Refused {
    ghost from_gives = { λ refusal refused. (refused.refusal ≡ refusal) × (refused.offender ≡ no_offender) };

    fn from(refusal: Refusal) -> Refused {
        let offender = Offender::none();
        Refused { refusal, offender }
    }
}

// What checks find, as it is told. A number and zeros stay in place of a `Result`: callers in C read them, and the theorem of the told place speaks of
// the zeros.
#[derive(Clone, Copy)]
pub struct Checked {
    pub code: usize, // the number of the first rule broken, or 0
    pub offender: Offender, // the first map value beyond the peak with 15 and 25; zeros with any other number
}

impl Checked {
    // What is told of a check's answer.
    pub fn of(checked: Result<(), Refused>) -> Checked
        ensures { result ≡ found checked }
    {
        match checked {
            Ok(()) => Checked {
                code: 0,
                offender: Offender::none(),
            },
            Err(refused) => Checked {
                code: refused.refusal.number(),
                offender: refused.offender,
            },
        }
    }
}

// The rules 10 to 14. The lengths of output and scratch are given, not their contents.
#[tactic(auto, unfolding(base::specs::Refusals::required))]
fn check_lent(
    layer: Layer,
    words: usize,
    map: &[i16],
    kernel: &[i16],
    output: usize,
    scratch: usize,
) -> Result<(), Refusal>
    requires { Planned layer }
    ensures { code_of result ≡ first_broken (lent_rules words layer map.now kernel.now output scratch) }
{
    require(Refusal::MapLength, map.len() == sizes::map_count(layer))?;
    require(
        Refusal::KernelLength,
        kernel.len() == sizes::kernel_count(layer),
    )?;
    require(Refusal::OutputLength, output == sizes::output_count(layer))?;
    require(Refusal::ScratchLength, words <= scratch)?;
    require(Refusal::Peak, (1..=32767).contains(&layer.peak))
}

// The rules 15 and 25, by the first map value beyond the peak.
#[tactic(auto, unfolding(crate::specs::Checks::offender_with))]
pub fn check_map_values(layer: Layer, map: &[i16]) -> Result<(), Refused>
    requires { length map.now ≡ map_count layer }
    ensures code_value { (found result).code ≡ first_broken (map_value_rules layer map.now) }
    ensures offender_value { (found result).offender ≡ offender_with (found result).code layer map.now }
{
    let offender = first_offender(layer, map);
    match offender.side {
        1 => Err(Refused {
            refusal: Refusal::ValueAbove,
            offender,
        }),
        2 => Err(Refused {
            refusal: Refusal::ValueBelow,
            offender,
        }),
        _ => Ok(()),
    }
}

// The same as a number, with the place.
pub fn check_map(layer: Layer, map: &[i16]) -> Checked
    requires { length map.now ≡ map_count layer }
    ensures code_value { result.code ≡ first_broken (map_value_rules layer map.now) }
    ensures offender_value { result.offender ≡ offender_with result.code layer map.now }
{
    Checked::of(check_map_values(layer, map))
}

// The rules 24 and 16, answered together by the same sums.
#[tactic(auto, unfolding(base::specs::Refusals::required))]
pub fn check_weights(layer: Layer, kernel: &[i16]) -> Result<(), Refusal>
    requires { Weighted layer kernel.now }
    ensures { code_of result ≡ first_broken (weight_rules layer kernel.now) }
{
    let judged = judge_channels(layer, kernel);
    require(Refusal::BlankChannel, judged.nonzero)?;
    require(Refusal::Load, judged.fits)
}

// The rules of a job. Those that read all values come after every rule that reads none.
fn check_call(
    method: Method,
    layer: Layer,
    next: usize,
    map: &[i16],
    kernel: &[i16],
    output: usize,
    scratch: usize,
) -> Result<(), Refused>
    ensures code_value { (found result).code ≡ job_code (engine_of method) layer next map.now kernel.now output scratch }
    ensures offender_value { (found result).offender ≡ offender_with (found result).code layer map.now }
{
    check_plan(method, layer)?;
    let words = scratch_words(method, layer);
    check_lent(layer, words, map, kernel, output, scratch)?;
    check_map_values(layer, map)?;
    check_weights(layer, kernel)?;
    require(Refusal::Index, next <= part_total(method, layer))?;
    Ok(())
}

// The same as a number, with the place.
pub fn check_job(
    method: Method,
    layer: Layer,
    next: usize,
    map: &[i16],
    kernel: &[i16],
    output: usize,
    scratch: usize,
) -> Checked
    ensures code_value { result.code ≡ job_code (engine_of method) layer next map.now kernel.now output scratch }
    ensures offender_value { result.offender ≡ offender_with result.code layer map.now }
{
    Checked::of(check_call(method, layer, next, map, kernel, output, scratch))
}
