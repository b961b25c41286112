// The steps of a run from an instruction on reals on: such instructions one after another, and the steps between them.
// The lists stay parameters of their own: behind a `&mut` struct each access would load a slice's address anew (tried: four loads a turn of a loop).
#![tactic(auto)]

ghost use Rattle.std.specs.Prelude.{◌≡◌, ◌<◌};
ghost use Rattle.run_steps.specs.Going.{Paused};
ghost use Rattle.run_reals.specs.Reckoning.{at_real?, AtReal, Reckoned, Rests};

use model::{PROCS_MOST, Regs};
use plan_meaning::Plan;
use run_steps::Pause;

// Whether the steps have paused before an instruction on reals.
pub fn at_real(pause: Pause) -> bool
    ensures { result ≡ at_real? pause.plan }
{
    matches!(pause.plan, Plan::Real(_))
}

// Where instructions on reals leave the machine: behind them, or before one whose result is not finite. Both have the same values, so that a flag tells them apart:
// with a variant for each they would stand twice.
#[derive(Clone, Copy)]
struct Past {
    finite: bool,
    regs: Regs,
    left: u32,
}

// The instructions on reals from here on, as far as the budget lasts and results are finite; body is the place behind the first one's code.
// They need the main stack alone, and so these steps have the processor's registers to themselves. `left` is counted down by hand, as in run_steps.
fn reckon(file: &[u8], main: &mut [u32], regs: Regs, body: usize, budget: u32) -> Past
    requires { AtReal file.now main.old regs body × (0 < budget) }
    ensures { Reckoned file.now main.old regs budget main.new result.regs result.left result.finite }
{
    let mut r = regs;
    let mut at = body;
    let mut left = budget;
    while 0 < left {
        let Some(next) = real_steps::step(file, main, r, at) else {
            return Past {
                finite: false,
                regs: r,
                left,
            };
        };
        r = next;
        left -= 1;
        let place = r.place;
        if !reals::is_real(file[place]) {
            return Past {
                finite: true,
                regs: r,
                left,
            };
        }
        at = place + 1;
    }
    Past {
        finite: true,
        regs: r,
        left,
    }
}

// From a pause before an instruction on reals on, as far as the budget lasts and no raise and no loop is needed. Two calls keep it a function of its own for the
// compiler: as a part of `run_on` it would take registers from the raises.
pub fn go_on(
    file: &[u8],
    table: &[usize; PROCS_MOST],
    main: &mut [u32],
    ptr: &mut [u32],
    ctl: &mut [u32],
    heap: &mut [u32],
    pause: Pause,
) -> Pause
    requires { Paused file.now table.now pause.left (record { regs = pause.regs; main = main.old; ptr = ptr.old; ctl = ctl.old; heap = heap.old })
        pause.left (record { regs = pause.regs; main = main.old; ptr = ptr.old; ctl = ctl.old; heap = heap.old }) pause.plan }
    ensures { Rests file.now table.now pause.left (record {
      regs = pause.regs;
      main = main.old;
      ptr = ptr.old;
      ctl = ctl.old;
      heap = heap.old;
    }) result.left (record {
      regs = result.regs;
      main = main.new;
      ptr = ptr.new;
      ctl = ctl.new;
      heap = heap.new;
    }) result.plan }
{
    let mut at = pause;
    while 0 < at.left {
        let Plan::Real(body) = at.plan else {
            return at;
        };
        let past = reckon(file, main, at.regs, body, at.left);
        let next = past.regs;
        if !past.finite {
            let behind = next.place + 1;
            return Pause {
                plan: Plan::Real(behind),
                regs: next,
                left: past.left,
            };
        }
        at = run_steps::go_on(file, table, main, ptr, ctl, heap, next, past.left);
    }
    at
}
