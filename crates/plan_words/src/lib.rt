// Manual 4: what an instruction is about to do that works on words of the frame, on literals or on
// plain words. Nothing is written here. Codes of one family share a function.
#![tactic(auto)]

ghost use Rattle.std.specs.Prelude.{◌≡◌, List, ◌⊎◌, ℕ, suc, ◌+◌, ◌<◌, ◌≤◌};
ghost use Rattle.model.specs.File as model;
ghost use Rattle.model.specs.Control.{Machine, frame_of, set_regs, set_main, set_ptr, set_ctl};
ghost use Rattle.plan_meaning.specs.Planned.{write, plan_value, planned};
ghost use Rattle.plan_meaning.specs.Asked.{Body, TopWithin};
ghost use Rattle.control_stack.specs.Layout.{Numbered};
ghost use Rattle.model.specs.File.{file_most};
ghost use Rattle.model.specs.Calls.{main_most};

use model::Regs;
use plan_meaning::{Into, Plan, writes};

// 20 and 22: word s of the frame.
fn main_locals(file: &[u8], main: &[u32], ctl: &[u32], regs: Regs, kind: u8) -> Plan
    requires { Body file.now regs.place 2 × TopWithin main.now regs.mtop × Numbered ctl.now regs.frame
        × ((frame_of ctl.now regs.frame).main_base + model.operand file.now regs.place < regs.mtop) × ((kind ≡ 20) ⊎ (kind ≡ 22)) }
    ensures { (m : Machine) → result ≡ planned file.now (set_regs regs (set_main main.now (set_ctl ctl.now m))) 3 kind }
{
    let place = regs.place;
    let top = regs.mtop;
    let at = control_stack::frame_of(ctl, regs.frame).main_base + code_file::operand(file, place);
    match kind {
        20 => writes(Into::Push, place + 3, top + 1, regs.ptop, top, main[at]),
        _ => {
            let rest = top - 1;
            writes(Into::Main, place + 3, rest, regs.ptop, at, main[rest])
        }
    }
}

// 54 and 56: a literal.
fn literals(file: &[u8], regs: Regs, kind: u8) -> Plan
    requires { Body file.now regs.place (model.body_of kind) × (regs.mtop ≤ main_most) × ((kind ≡ 54) ⊎ (kind ≡ 56)) }
    ensures { (m : Machine) → result ≡ planned file.now (set_regs regs m) (suc (model.body_of kind)) kind }
{
    let place = regs.place;
    let top = regs.mtop;
    match kind {
        54 => {
            let at = place + 1;
            let word = code_file::signed_byte(file[at]);
            writes(Into::Push, place + 2, top + 1, regs.ptop, top, word)
        }
        _ => writes(
            Into::Push,
            place + 5,
            top + 1,
            regs.ptop,
            top,
            code_file::operand4(file, place),
        ),
    }
}

// 20, 22, 54 and 56: a word of the frame or a literal, on the main stack.
pub fn main_words(file: &[u8], main: &[u32], ctl: &[u32], regs: Regs, kind: u8) -> Plan
    requires { Body file.now regs.place (model.body_of kind) × TopWithin main.now regs.mtop × Numbered ctl.now regs.frame
        × ((kind ≡ 20) ⊎ (kind ≡ 22) → (frame_of ctl.now regs.frame).main_base + model.operand file.now regs.place < regs.mtop)
        × ((kind ≡ 20) ⊎ ((kind ≡ 22) ⊎ ((kind ≡ 54) ⊎ (kind ≡ 56)))) }
    ensures { (m : Machine) → result ≡ planned file.now (set_regs regs (set_main main.now (set_ctl ctl.now m))) (suc (model.body_of kind)) kind }
{
    match kind {
        20 => main_locals(file, main, ctl, regs, 20),
        22 => main_locals(file, main, ctl, regs, 22),
        54 => literals(file, regs, 54),
        _ => literals(file, regs, 56),
    }
}

// 21 and 23: the same on the pointer stack. Apart: the writes are others, and one function for both would be handed a stack, a base, a top and the cases of `Into`.
pub fn ptr_locals(file: &[u8], ptr: &[u32], ctl: &[u32], regs: Regs, kind: u8) -> Plan
    requires { Body file.now regs.place 2 × TopWithin ptr.now regs.ptop × Numbered ctl.now regs.frame
        × ((frame_of ctl.now regs.frame).ptr_base + model.operand file.now regs.place < regs.ptop) × ((kind ≡ 21) ⊎ (kind ≡ 23)) }
    ensures { (m : Machine) → result ≡ planned file.now (set_regs regs (set_ptr ptr.now (set_ctl ctl.now m))) 3 kind }
{
    let place = regs.place;
    let top = regs.ptop;
    let at = control_stack::frame_of(ctl, regs.frame).ptr_base + code_file::operand(file, place);
    match kind {
        21 => writes(Into::Pointer, place + 3, regs.mtop, top + 1, top, ptr[at]),
        _ => {
            let rest = top - 1;
            writes(Into::Pointer, place + 3, regs.mtop, rest, at, ptr[rest])
        }
    }
}

// An operation's word on the main stack, or exception 1.
fn result(into: Into, value: Option<u32>, place: usize, mtop: usize, ptop: usize, at: usize) -> Plan
    ensures { result ≡ plan_value value (λ w. write into place mtop ptop at w) }
{
    match value {
        Some(w) => writes(into, place, mtop, ptop, at, w),
        None => Plan::OutOfRange,
    }
}

// 130, 195, 198, 201 and 204.
pub fn compares(main: &[u32], regs: Regs, kind: u8) -> Plan
    requires { (regs.place < file_most) × TopWithin main.now regs.mtop × (2 ≤ regs.mtop)
        × ((kind ≡ 130) ⊎ ((kind ≡ 195) ⊎ ((kind ≡ 198) ⊎ ((kind ≡ 201) ⊎ (kind ≡ 204))))) }
    ensures { (f : List ℕ) (m : Machine) → result ≡ planned f (set_regs regs (set_main main.now m)) 1 kind }
{
    let top = regs.mtop - 1;
    let at = regs.mtop - 2;
    let a = main[at];
    let b = main[top];
    let word = match kind {
        130 => arithmetic::eq_w(a, b),
        195 => arithmetic::lt(a, b),
        198 => arithmetic::le(a, b),
        201 => arithmetic::gt(a, b),
        _ => arithmetic::ge(a, b),
    };
    writes(Into::Main, regs.place + 1, top, regs.ptop, at, word)
}

// 140 to 143 and 145.
pub fn operations(main: &[u32], regs: Regs, kind: u8) -> Plan
    requires { (regs.place < file_most) × TopWithin main.now regs.mtop × (2 ≤ regs.mtop)
        × ((kind ≡ 140) ⊎ ((kind ≡ 141) ⊎ ((kind ≡ 142) ⊎ ((kind ≡ 143) ⊎ (kind ≡ 145))))) }
    ensures { (f : List ℕ) (m : Machine) → result ≡ planned f (set_regs regs (set_main main.now m)) 1 kind }
{
    let top = regs.mtop - 1;
    let at = regs.mtop - 2;
    let a = main[at];
    let b = main[top];
    let value = match kind {
        140 => arithmetic::narrow(arithmetic::plus(a, b)),
        141 => arithmetic::narrow(arithmetic::times(a, b)),
        142 => arithmetic::narrow(arithmetic::minus(a, b)),
        143 => arithmetic::div(a, b),
        _ => arithmetic::rem(a, b),
    };
    result(Into::Main, value, regs.place + 1, top, regs.ptop, at)
}

// 144 and 146.
pub fn unaries(main: &[u32], regs: Regs, kind: u8) -> Plan
    requires { (regs.place < file_most) × TopWithin main.now regs.mtop × (1 ≤ regs.mtop) × ((kind ≡ 144) ⊎ (kind ≡ 146)) }
    ensures { (f : List ℕ) (m : Machine) → result ≡ planned f (set_regs regs (set_main main.now m)) 1 kind }
{
    let at = regs.mtop - 1;
    let a = main[at];
    let value = match kind {
        144 => arithmetic::neg(a),
        _ => Some(arithmetic::not(a)),
    };
    result(Into::Push, value, regs.place + 1, regs.mtop, regs.ptop, at)
}
