// Two lists of calls that are made, one of each kind, each by a method of its own: for paired layers the two product sums agree, by the theorem
// on lists of calls.
#![tactic(auto)]

ghost use Rattle.std.specs.Prelude.{◌≡◌, true, ◌&&◌, eqb, length};
ghost use Rattle.checks.specs.Engine.{engine_of};
ghost use Rattle.checks.specs.Checks.{run_code};
ghost use Rattle.engine.specs.Call.{output_left, scratch_left};
ghost use Rattle.product_sums.specs.ProductSums.{Paired, SumsAgree};
ghost use Rattle.product_sums.specs.CallsMade.{CallsMade};

use checks::method::Method;
use checks::planner::plan_by;
use engine::job::Job;
use layer::shape::Layer;

// Three calls of a layer's job: one with the budget, one that is lent no map value and thus is refused, one with the total. Whether the last
// one is accepted, which is whether a run is; they leave what a run leaves.
fn three_calls(
    method: Method,
    layer: Layer,
    budget: usize,
    map: &[i16],
    kernel: &[i16],
    output: &mut [i32],
    scratch: &mut [u64],
) -> bool
    ensures value { result ≡ eqb (run_code (engine_of method) layer map.now kernel.now (length output.old) (length scratch.old)) 0 }
    ensures output_after { output.new ≡ output_left (engine_of method) layer map.now kernel.now output.old (length scratch.old) }
    ensures scratch_after { scratch.new ≡ scratch_left (engine_of method) layer map.now kernel.now (length output.old) scratch.old }
    ensures calls_made { CallsMade (engine_of method) layer map.now kernel.now output.old output.new result }
{
    let plan = plan_by(method, layer);
    let mut job = Job::new(layer);
    let mut call = job.advance_by(method, budget, map, kernel, output, scratch);
    job = call.job;
    call = job.advance_by(method, budget, &map[0..0], kernel, output, scratch);
    job = call.job;
    call = job.advance_by(method, plan.parts, map, kernel, output, scratch);
    call.code == 0
}

// Both kinds, with one kernel: three calls of each, kept to its method. Whether both layers are accepted; then both lists reach their totals, and the two sums of
// paired layers agree. The outputs are left as by a run of each layer, and scratch as by one run after the other.
pub fn both_kinds(
    conv_method: Method,
    conv: Layer,
    tconv_method: Method,
    tconv: Layer,
    budget: usize,
    x: &[i16],
    y: &[i16],
    kernel: &[i16],
    u: &mut [i32],
    v: &mut [i32],
    scratch: &mut [u64],
) -> bool
    ensures value { result ≡ eqb (run_code (engine_of conv_method) conv x.now kernel.now (length u.old) (length scratch.old)) 0 && eqb (run_code (engine_of tconv_method) tconv y.now kernel.now (length v.old) (length scratch.old)) 0 }
    ensures u_after { u.new ≡ output_left (engine_of conv_method) conv x.now kernel.now u.old (length scratch.old) }
    ensures v_after { v.new ≡ output_left (engine_of tconv_method) tconv y.now kernel.now v.old (length scratch.old) }
    ensures scratch_after { scratch.new ≡ scratch_left (engine_of tconv_method) tconv y.now kernel.now (length v.old)
        (scratch_left (engine_of conv_method) conv x.now kernel.now (length u.old) scratch.old) }
    ensures sums_agree { Paired conv tconv → result ≡ true → SumsAgree conv x.now y.now u.new v.new }
{
    let forward = three_calls(conv_method, conv, budget, x, kernel, u, scratch);
    let backward = three_calls(tconv_method, tconv, budget, y, kernel, v, scratch);
    forward & backward
}
