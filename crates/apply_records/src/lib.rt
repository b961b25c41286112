// Records of the control stack, pushed and taken away. The stack, the registers and the writes stay parameters of their own: this runs at each
// step, and behind a struct each access would load the slice's address anew.
#![tactic(auto)]

ghost use Rattle.std.specs.Prelude.{◌≡◌, List, ℕ, ◌+◌, ◌*◌, ◌<◌, ◌≤◌, length};
ghost use Rattle.model.specs.File.{after, file_most};
ghost use Rattle.model.specs.Control.{record_words};
ghost use Rattle.plan_meaning.specs.Settled.{called_by, returned, opened, closed};
ghost use Rattle.laws.specs.Cuts.{Topped};
ghost use Rattle.apply_records.specs.Asks.{PushesRecord};
ghost use Rattle.model.specs.Calls.{main_most, ptr_most};

use control_stack::{Frame, Handler};
use model::{RECORD, Regs};
use plan_meaning::Put;

// 72: a new frame. The operand is its procedure, the return place is behind it.
pub fn call(file: &[u8], ctl: &mut [u32], regs: Regs, put: Put) -> Regs
    requires { PushesRecord regs ctl.old × (regs.place + 2 < length file.now) × (after file.now regs.place ≡ regs.place + 3) × (put.at ≤ file_most) }
    ensures { (main ptr heap : List ℕ) → record { regs = result; main = main; ptr = ptr; ctl = ctl.new; heap = heap }
        ≡ called_by file.now put (record { regs = regs; main = main; ptr = ptr; ctl = ctl.old; heap = heap }) }
{
    let place = regs.place;
    let top = regs.ctop;
    let frame = Frame {
        main_base: put.at,
        ptr_base: put.word as usize,
        proc: code_file::operand(file, place),
        returns: place + 3,
        caller: regs.frame,
    };
    control_stack::put_record(ctl, top, frame.words());
    Regs {
        place: put.place,
        frame: top / RECORD + 1,
        mtop: put.mtop,
        ptop: put.ptop,
        ctop: top + RECORD,
        ..regs
    }
}

// 73: the frame's record goes.
pub fn leave(ctl: &mut [u32], regs: Regs, put: Put) -> Regs
    requires { Topped regs.ctop ctl.old × (1 ≤ regs.frame) × (record_words * regs.frame ≤ regs.ctop) }
    ensures { (main ptr heap : List ℕ) → record { regs = result; main = main; ptr = ptr; ctl = ctl.new; heap = heap }
        ≡ returned put (record { regs = regs; main = main; ptr = ptr; ctl = ctl.old; heap = heap }) }
{
    let rest = regs.ctop - RECORD;
    let caller = control_stack::frame_of(ctl, regs.frame).caller;
    control_stack::clear_record(ctl, rest);
    Regs {
        place: put.place,
        frame: caller,
        ctop: rest,
        ..regs
    }
}

// 160: a handler's record.
pub fn open(ctl: &mut [u32], regs: Regs, put: Put) -> Regs
    requires { PushesRecord regs ctl.old × (regs.mtop ≤ main_most) × (regs.ptop ≤ ptr_most) }
    ensures { (main ptr heap : List ℕ) → record { regs = result; main = main; ptr = ptr; ctl = ctl.new; heap = heap }
        ≡ opened put (record { regs = regs; main = main; ptr = ptr; ctl = ctl.old; heap = heap }) }
{
    let top = regs.ctop;
    let handler = Handler {
        opened: regs.place,
        main_top: regs.mtop,
        ptr_top: regs.ptop,
        frame: regs.frame,
        outer: regs.handler,
    };
    control_stack::put_record(ctl, top, handler.words());
    Regs {
        place: put.place,
        handler: top / RECORD + 1,
        ctop: top + RECORD,
        ..regs
    }
}

// 161: the innermost handler's record goes, the topmost one. It is read where the top is: by the handler's number it took longer (docs/PERFORMANCE.md).
pub fn close(ctl: &mut [u32], regs: Regs, put: Put) -> Regs
    requires { Topped regs.ctop ctl.old × (1 ≤ regs.handler) × (record_words * regs.handler ≡ regs.ctop) }
    ensures { (main ptr heap : List ℕ) → record { regs = result; main = main; ptr = ptr; ctl = ctl.new; heap = heap }
        ≡ closed put (record { regs = regs; main = main; ptr = ptr; ctl = ctl.old; heap = heap }) }
{
    let under = regs.ctop - RECORD;
    let outer = control_stack::outer_at(ctl, under);
    control_stack::clear_record(ctl, under);
    Regs {
        place: put.place,
        handler: outer,
        ctop: under,
        ..regs
    }
}
