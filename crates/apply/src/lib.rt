// What a plan comes to: its writes applied, or its exception raised, all in one step (Manual 4.25).
// The lists stay parameters of their own: behind a `&mut` struct each access would load a slice's address anew (tried: four loads a turn of a loop).
#![tactic(auto)]

ghost use Rattle.std.specs.Prelude.{◌≡◌, List, ℕ, ◌+◌, ◌*◌, ◌<◌, ◌≤◌, length, unwrap_or, is_some, IfSome, IfNone};
ghost use Rattle.model.specs.File.{operand, head_of};
ghost use Rattle.model.specs.Words.{cut};
ghost use Rattle.model.specs.Control.{frame_of, record_words};
ghost use Rattle.model.specs.Step.{raised};
ghost use Rattle.plan_meaning.specs.Settled.{applied, settle};
ghost use Rattle.laws.specs.Cuts.{Topped};
ghost use Rattle.apply_words.specs.Asks.{onwards};
ghost use Rattle.apply.specs.Applies.{Applies, Late, PutsNew, Lately, Later, applied_if};
ghost use Rattle.apply.specs.Ended.{Targets, Raises, RealRaises, Settles, ended_of, resumed, raised_by};
ghost use Rattle.model.specs.Calls.{main_most, ctl_most};

use control_stack::Handler;
use model::{PROCS_MOST, RECORD, Regs};
use plan_meaning::{Into, Plan, Put};

// What a step leads to: on with these registers, or an exception of this code that no handler catches. A struct: with a Result the run copied the registers before it went on, and
// raises took up to 1.2 times as long, vectors made in a loop up to 1.3 (tried).
#[derive(Clone, Copy)]
pub struct Outcome {
    pub on: bool,
    pub code: u32,
    pub regs: Regs,
}

// The registers after an instruction that leaves the control stack as it is.
fn onward(regs: Regs, put: Put) -> Regs
    ensures { result ≡ onwards put regs }
{
    Regs {
        place: put.place,
        mtop: put.mtop,
        ptop: put.ptop,
        ..regs
    }
}

// Applies the writes of a plan, as far as they need no loop: the steps of a run that go through here keep their registers. With no registers given it is left
// to `apply_late`, and nothing is touched.
#[tactic(auto, unfolding(plan_meaning::specs::Settled::applied, plan_meaning::specs::Settled::apply_into))]
pub fn apply(
    file: &[u8],
    main: &mut [u32],
    ptr: &mut [u32],
    ctl: &mut [u32],
    heap: &mut [u32],
    regs: Regs,
    put: Put,
) -> Option<Regs>
    requires { Applies file.now put (record { regs = regs; main = main.old; ptr = ptr.old; ctl = ctl.old; heap = heap.old }) }
    ensures state { record { regs = unwrap_or result regs; main = main.new; ptr = ptr.new; ctl = ctl.new; heap = heap.new }
        ≡ applied_if (is_some result) file.now put (record {
          regs = regs;
          main = main.old;
          ptr = ptr.old;
          ctl = ctl.old;
          heap = heap.old;
        }) }
    ensures running { IfSome result (λ r. r.state ≡ regs.state) }
    ensures undone { IfNone result (Late put.into regs) }
{
    match put.into {
        Into::Frame => Some(apply_records::call(file, ctl, regs, put)),
        Into::Return => {
            if regs.frame == 1 {
                return None;
            }
            Some(apply_records::leave(ctl, regs, put))
        }
        Into::Handler => Some(apply_records::open(ctl, regs, put)),
        Into::Close => Some(apply_records::close(ctl, regs, put)),
        Into::View | Into::WordVector | Into::PtrVector => None,
        _ => {
            if apply_words::plain(main, ptr, heap, regs, put) {
                return Some(onward(regs, put));
            }
            None
        }
    }
}

// 36, 80 and 81: a new object in the place of what is popped, and its index on the pointer stack.
fn put_new(main: &mut [u32], ptr: &mut [u32], heap: &mut [u32], regs: Regs, put: Put)
    requires { PutsNew main.old ptr.old heap.old regs put }
    ensures { (f ctl : List ℕ) → record { regs = onwards put regs; main = main.new; ptr = ptr.new; ctl = ctl; heap = heap.new }
        ≡ applied f put (record { regs = regs; main = main.old; ptr = ptr.old; ctl = ctl; heap = heap.old }) }
{
    let at = put.at;
    apply_objects::make(main, ptr, heap, regs, put);
    apply_words::cut_to(main, put.mtop, regs.mtop);
    apply_words::cut_to(ptr, put.ptop, regs.ptop);
    ptr[at] = put.word;
}

// Applies what `apply` leaves: a new object, a retract of many words, the end of a run.
#[tactic(auto, unfolding(plan_meaning::specs::Settled::applied, plan_meaning::specs::Settled::apply_into))]
fn apply_late(
    main: &mut [u32],
    ptr: &mut [u32],
    ctl: &mut [u32],
    heap: &mut [u32],
    regs: Regs,
    put: Put,
) -> Regs
    requires { Lately put (record { regs = regs; main = main.old; ptr = ptr.old; ctl = ctl.old; heap = heap.old }) }
    ensures { (f : List ℕ) → record { regs = result; main = main.new; ptr = ptr.new; ctl = ctl.new; heap = heap.new }
        ≡ applied f put (record { regs = regs; main = main.old; ptr = ptr.old; ctl = ctl.old; heap = heap.old }) }
{
    let next = onward(regs, put);
    match put.into {
        Into::View | Into::WordVector | Into::PtrVector => {
            put_new(main, ptr, heap, regs, put);
            next
        }
        Into::Return => apply_words::finish(ctl, regs),
        _ => {
            apply_words::drop_all(main, ptr, regs, put);
            next
        }
    }
}

// Where a 160's operand leads: it counts from the head of the procedure whose frame is given.
fn target(file: &[u8], table: &[usize; PROCS_MOST], ctl: &[u32], at: usize, frame: usize) -> usize
    requires { Targets file.now table.now ctl.now at frame }
    ensures { result ≡ head_of file.now (frame_of ctl.now frame).proc + operand file.now at }
{
    let proc = control_stack::frame_of(ctl, frame).proc;
    table[proc] + code_file::operand(file, at)
}

// The registers in the handler: the code lies on its main top, and its record is gone.
fn resume(guard: Handler, place: usize, handler: usize, state: usize) -> Regs
    requires { (guard.main_top < main_most) × (1 ≤ handler) × (handler ≤ ctl_most) }
    ensures { result ≡ resumed guard place handler state }
{
    Regs {
        place,
        frame: guard.frame,
        handler: guard.outer,
        mtop: guard.main_top + 1,
        ptop: guard.ptr_top,
        ctop: RECORD * (handler - 1),
        state,
    }
}

// A handler's record and those above it go. The topmost goes by itself: often it is the only one, and needs no loop.
fn unwind(ctl: &mut [u32], under: usize, top: usize)
    requires { Topped top ctl.old × (under + record_words ≤ top) }
    ensures { ctl.new ≡ cut under ctl.old }
{
    let rest = top - RECORD;
    control_stack::clear_record(ctl, rest);
    apply_words::cut_to(ctl, under, rest);
}

// Raises an exception, all in one step: frames and the handler's record go, both stacks are cut to its tops, the code is pushed.
pub fn raise(
    file: &[u8],
    table: &[usize; PROCS_MOST],
    main: &mut [u32],
    ptr: &mut [u32],
    ctl: &mut [u32],
    regs: Regs,
    code: u32,
) -> Outcome
    requires { Raises file.now table.now regs main.old ptr.old ctl.old }
    ensures { (heap : List ℕ) → record {
      on = result.on;
      code = result.code;
      state = record {
        regs = result.regs;
        main = main.new;
        ptr = ptr.new;
        ctl = ctl.new;
        heap = heap;
      };
    } ≡ ended_of (raised file.now (record {
      regs = regs;
      main = main.old;
      ptr = ptr.old;
      ctl = ctl.old;
      heap = heap;
    }) code) }
{
    let handler = regs.handler;
    if handler == 0 {
        return Outcome {
            on: false,
            code,
            regs,
        };
    }
    let guard = control_stack::handler_at(ctl, handler - 1);
    let place = target(file, table, ctl, guard.opened, guard.frame);
    let top = guard.main_top;
    let under = RECORD * (handler - 1);
    apply_words::cut_to(main, top, regs.mtop);
    apply_words::cut_to(ptr, guard.ptr_top, regs.ptop);
    unwind(ctl, under, regs.ctop);
    main[top] = code;
    let next = resume(guard, place, handler, regs.state);
    Outcome {
        on: true,
        code: 0,
        regs: next,
    }
}

// The code of the exception that a plan raises.
#[tactic(auto, unfolding(crate::specs::Ended::raised_by))]
pub fn code_of(plan: Plan, main: &[u32], mtop: usize) -> u32
    requires { (mtop ≤ length main.now) × (plan ≡ Plan.Thrown → 1 ≤ mtop) }
    ensures { result ≡ raised_by main.now mtop plan }
{
    match plan {
        Plan::Write(_) => 0, // raises nothing: let-else has taken it out before
        Plan::OutOfRange => 1,
        Plan::NilObject => 2,
        Plan::NoSuchWord => 3,
        Plan::HeapFull => 4,
        Plan::NoRoom => 5,
        Plan::VectorFault => 6,
        Plan::Thrown => main[mtop - 1],
        Plan::Real(_) => 1,
    }
}

// What a plan comes to that `apply` left, or that is no write and so raises. An instruction on reals comes here only if its result is not finite.
pub fn step_with(
    file: &[u8],
    table: &[usize; PROCS_MOST],
    main: &mut [u32],
    ptr: &mut [u32],
    ctl: &mut [u32],
    heap: &mut [u32],
    regs: Regs,
    plan: Plan,
) -> Outcome
    requires { Settles file.now table.now (record { regs = regs; main = main.old; ptr = ptr.old; ctl = ctl.old; heap = heap.old }) plan × Later regs plan
        × RealRaises file.now (record { regs = regs; main = main.old; ptr = ptr.old; ctl = ctl.old; heap = heap.old }) plan }
    ensures { record {
      on = result.on;
      code = result.code;
      state = record {
        regs = result.regs;
        main = main.new;
        ptr = ptr.new;
        ctl = ctl.new;
        heap = heap.new;
      };
    } ≡ ended_of (settle file.now (record {
      regs = regs;
      main = main.old;
      ptr = ptr.old;
      ctl = ctl.old;
      heap = heap.old;
    }) plan) }
{
    let Plan::Write(put) = plan else {
        let code = code_of(plan, main, regs.mtop);
        return raise(file, table, main, ptr, ctl, regs, code);
    };
    let next = apply_late(main, ptr, ctl, heap, regs, put);
    Outcome {
        on: true,
        code: 0,
        regs: next,
    }
}
