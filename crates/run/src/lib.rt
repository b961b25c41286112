// A run: steps until the machine is finished, the budget is spent, or an exception is not caught.
#![tactic(auto)]

ghost use Rattle.std.specs.Prelude.{◌≡◌};
ghost use Rattle.model.specs.Step.{ran, run_on};
ghost use Rattle.run_steps.specs.Going.{Runs};
ghost use Rattle.run.specs.Endings.{ended_with};

use model::{Answer, PROCS_MOST, Regs};

// An answer, with the registers then.
#[derive(Clone, Copy)]
pub struct Ended {
    pub answer: Answer,
    pub regs: Regs,
}

fn answered(answer: Answer, regs: Regs) -> Ended
    ensures { result ≡ ended_with answer regs }
{
    Ended { answer, regs }
}

// The table has the heads of the file's procedures. What a run pauses with is one variable, and registers are passed where they stand: in variables of their
// own they were copied at each pause and each end.
pub fn run_on(
    file: &[u8],
    table: &[usize; PROCS_MOST],
    main: &mut [u32],
    ptr: &mut [u32],
    ctl: &mut [u32],
    heap: &mut [u32],
    regs: Regs,
    budget: u32,
) -> Ended
    requires { Runs file.now table.now (record { regs = regs; main = main.old; ptr = ptr.old; ctl = ctl.old; heap = heap.old }) }
    ensures { ran result.answer (record { regs = result.regs; main = main.new; ptr = ptr.new; ctl = ctl.new; heap = heap.new })
        ≡ run_on file.now budget 0 (record {
          regs = regs;
          main = main.old;
          ptr = ptr.old;
          ctl = ctl.old;
          heap = heap.old;
        }) }
{
    if regs.state == 1 {
        return answered(Answer::Finished(0), regs);
    }
    let mut pause = run_steps::go_on(file, table, main, ptr, ctl, heap, regs, budget);
    if run_reals::at_real(pause) {
        pause = run_reals::go_on(file, table, main, ptr, ctl, heap, pause);
    }
    while 0 < pause.left {
        let after = pause.left - 1;
        let plan = pause.plan;
        let out = apply::step_with(file, table, main, ptr, ctl, heap, pause.regs, plan);
        if !out.on {
            let done = budget - pause.left;
            return answered(Answer::Uncaught(out.code, out.regs.place, done), out.regs);
        }
        if out.regs.state == 1 {
            let done = budget - after;
            return answered(Answer::Finished(done), out.regs);
        }
        pause = run_steps::go_on(file, table, main, ptr, ctl, heap, out.regs, after);
        if run_reals::at_real(pause) {
            pause = run_reals::go_on(file, table, main, ptr, ctl, heap, pause);
        }
    }
    answered(Answer::Spent(budget), pause.regs)
}
