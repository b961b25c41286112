// The steps of a run that need no loop and no raise, one after another.
// The lists stay parameters of their own: behind a `&mut` struct each access would load a slice's address anew (tried: four loads a turn of a loop).
#![tactic(auto)]

ghost use Rattle.std.specs.Prelude.{◌≡◌};
ghost use Rattle.run_steps.specs.Going.{Runs, Paused};

use model::{PROCS_MOST, Regs};
use plan_meaning::Plan;

// Where the steps pause: before an instruction whose plan is settled apart, or with no step left of the budget.
// With none left the plan says nothing: `left` tells the two apart, and with a case for each the registers would stand twice.
#[derive(Clone, Copy)]
pub struct Pause {
    pub plan: Plan,
    pub regs: Regs,
    pub left: u32,
}

// Steps on, as far as the budget lasts and no raise and no loop is needed. It is called from more than one place, which keeps it a function of its own
// for the compiler: its registers are those of the steps alone. Soundness is what the loop keeps, so that no step tests what it gives.
// `unwrap_or` and no let-else: where nothing is given the registers are then those from before for the compiler too, which else kept both (tried: one to four
// instructions more for half of the codes).
// `left` is counted down by hand: where the steps pause, what is left goes on with them.
pub fn go_on(
    file: &[u8],
    table: &[usize; PROCS_MOST],
    main: &mut [u32],
    ptr: &mut [u32],
    ctl: &mut [u32],
    heap: &mut [u32],
    regs: Regs,
    budget: u32,
) -> Pause
    requires { Runs file.now table.now (record { regs = regs; main = main.old; ptr = ptr.old; ctl = ctl.old; heap = heap.old }) × (regs.state ≡ 1 → ⊥) }
    ensures { Paused file.now table.now budget (record {
      regs = regs;
      main = main.old;
      ptr = ptr.old;
      ctl = ctl.old;
      heap = heap.old;
    }) result.left (record {
      regs = result.regs;
      main = main.new;
      ptr = ptr.new;
      ctl = ctl.new;
      heap = heap.new;
    }) result.plan }
{
    let mut r = regs;
    let mut left = budget;
    while 0 < left {
        let plan = plan::plan_at(file, table, main, ptr, ctl, heap, r);
        let Plan::Write(put) = plan else {
            return Pause {
                plan,
                regs: r,
                left,
            };
        };
        let tried = apply::apply(file, main, ptr, ctl, heap, r, put);
        if tried.is_none() {
            return Pause {
                plan: Plan::Write(put),
                regs: r,
                left,
            };
        }
        r = tried.unwrap_or(r);
        left -= 1;
    }
    Pause {
        plan: Plan::Thrown,
        regs: r,
        left,
    }
}
