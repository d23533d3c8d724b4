// The check of the output channels: whether none is blank, and for each the load, which is the peak times the sum of the sizes of all weights that
// reach it, in TCONV times the greatest group's.
#![tactic(auto)]

ghost use Rattle.std.specs.Prelude.{◌≡◌, not, ◌*◌, ◌<◌, ◌≤◌, leb};
ghost use Rattle.load.specs.Load.{size_total, load, load_limit, loads_fit};
ghost use Rattle.load.specs.Blank.{blank, none_blank};
ghost use Rattle.load.specs.Weights.{Weighted};

use groups::{Group, greatest_group, group_total};
use layer::shape::{Kind, Layer};

pub mod groups;
pub mod offender;
pub mod values;

// What the check finds of one output channel, or of all of them.
#[derive(Clone, Copy)]
pub struct Judged {
    // a weight other than 0 reaches the channel, or each of them
    pub nonzero: bool,
    // the load of the channel, or of each of them, is within the limit
    pub fits: bool,
}

// The field's limit of a load.
pub(crate) fn load_limit(field: usize) -> u64
    ensures { result ≡ load_limit field }
{
    if field == 4 { 32768 } else { 2147483647 }
}

// Whether the load of output channel m is within the limit, where `total` is the sum of the sizes of all its weights. No group has more than that, so
// that groups are looked at only where all weights together are beyond the limit. The largest product, 64 × 121 × 32,768 × 32,767, fits 64 bits.
fn load_fits(layer: Layer, kernel: &[i16], m: usize, total: u64, limit: u64) -> bool
    requires weighted { Weighted layer kernel.now × (m < layer.outputs) }
    requires total_value { (total ≡ size_total layer kernel.now m) × (total ≤ 121 * 32768 * 64) }
    ensures { result ≡ leb (load layer kernel.now m) limit }
{
    let peak = layer.peak as u64;
    if peak * total <= limit {
        return true;
    }
    match layer.kind_of() {
        Kind::Conv => false,
        Kind::Tconv => peak * greatest_group(layer, kernel, m) <= limit,
    }
}

// The sum of the sizes of all weights that reach output channel m.
pub fn size_total(layer: Layer, kernel: &[i16], m: usize) -> u64
    requires { Weighted layer kernel.now × (m < layer.outputs) }
    ensures { (result ≡ size_total layer kernel.now m) × (result ≤ 121 * 32768 * 64) }
{
    let all = Group {
        step: 1,
        row: 0,
        column: 0,
    };
    group_total(layer, kernel, m, all)
}

// Both tests of output channel m. One sum of sizes tells whether it is blank, and the load is tested by it.
fn judge_channel(layer: Layer, kernel: &[i16], m: usize, limit: u64) -> Judged
    requires { Weighted layer kernel.now × (m < layer.outputs) }
    ensures nonzero_value { result.nonzero ≡ not (blank layer kernel.now m) }
    ensures fits_value { result.fits ≡ leb (load layer kernel.now m) limit }
{
    let total = size_total(layer, kernel, m);
    Judged {
        nonzero: total != 0,
        fits: load_fits(layer, kernel, m, total, limit),
    }
}

// Both tests of every output channel.
pub fn judge_channels(layer: Layer, kernel: &[i16]) -> Judged
    requires { Weighted layer kernel.now }
    ensures nonzero_value { result.nonzero ≡ none_blank layer kernel.now }
    ensures fits_value { result.fits ≡ loads_fit layer kernel.now }
{
    let limit = load_limit(layer.field);
    let mut nonzero = true;
    let mut fits = true;
    for m in 0..layer.outputs {
        let judged = judge_channel(layer, kernel, m, limit);
        nonzero &= judged.nonzero;
        fits &= judged.fits;
    }
    Judged { nonzero, fits }
}
