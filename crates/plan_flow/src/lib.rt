// Manual 4: what an instruction is about to do that leads elsewhere, or opens or closes a record of
// the control stack. Nothing is written here. Codes of one family share a function.
#![tactic(auto)]

ghost use Rattle.std.specs.Prelude.{◌≡◌, List, ◌⊎◌, ℕ, ◌<◌, ◌≤◌};
ghost use Rattle.model.specs.Control.{Machine, set_regs, set_main, set_ptr, set_ctl};
ghost use Rattle.plan_meaning.specs.Planned.{planned};
ghost use Rattle.plan_meaning.specs.Asked.{Body, TopWithin};
ghost use Rattle.control_stack.specs.Layout.{Numbered};
ghost use Rattle.plan_flow.specs.Given.{Callee};
ghost use Rattle.model.specs.File.{file_most};
ghost use Rattle.model.specs.Calls.{ctl_most};

use model::{HEAD_SIZE, PROCS_MOST, RECORD, Regs};
use plan_meaning::{Into, Plan, writes};

// 1 and 3: forwards, backwards.
pub fn jumps(file: &[u8], regs: Regs, kind: u8) -> Plan
    requires { Body file.now regs.place 2 × ((kind ≡ 1) ⊎ (kind ≡ 3)) }
    ensures { (m : Machine) → result ≡ planned file.now (set_regs regs m) 3 kind }
{
    let target = match kind {
        1 => code_file::forwards(file, regs.place),
        _ => code_file::backwards(file, regs.place),
    };
    writes(Into::Nothing, target, regs.mtop, regs.ptop, 0, 0)
}

// 2 and 5: forwards where the word is false; 5 keeps it then. One function with `on_true` would ask for the code three times.
pub fn on_false(file: &[u8], main: &[u32], regs: Regs, kind: u8) -> Plan
    requires { Body file.now regs.place 2 × TopWithin main.now regs.mtop × (1 ≤ regs.mtop) × ((kind ≡ 2) ⊎ (kind ≡ 5)) }
    ensures { (m : Machine) → result ≡ planned file.now (set_regs regs (set_main main.now m)) 3 kind }
{
    let place = regs.place;
    let top = regs.mtop - 1;
    if main[top] != 0 {
        return writes(Into::Pop, place + 3, top, regs.ptop, 0, 0);
    }
    let target = code_file::forwards(file, place);
    match kind {
        2 => writes(Into::Pop, target, top, regs.ptop, 0, 0),
        _ => writes(Into::Nothing, target, regs.mtop, regs.ptop, 0, 0),
    }
}

// 4 and 6: where the word is true, 4 backwards, 6 forwards and keeps it.
pub fn on_true(file: &[u8], main: &[u32], regs: Regs, kind: u8) -> Plan
    requires { Body file.now regs.place 2 × TopWithin main.now regs.mtop × (1 ≤ regs.mtop) × ((kind ≡ 4) ⊎ (kind ≡ 6)) }
    ensures { (m : Machine) → result ≡ planned file.now (set_regs regs (set_main main.now m)) 3 kind }
{
    let place = regs.place;
    let top = regs.mtop - 1;
    if main[top] == 0 {
        return writes(Into::Pop, place + 3, top, regs.ptop, 0, 0);
    }
    match kind {
        4 => {
            let target = code_file::backwards(file, place);
            writes(Into::Pop, target, top, regs.ptop, 0, 0)
        }
        _ => {
            let target = code_file::forwards(file, place);
            writes(Into::Nothing, target, regs.mtop, regs.ptop, 0, 0)
        }
    }
}

// 72: the callee's frame begins with its parameters.
fn calls(
    file: &[u8],
    table: &[usize; PROCS_MOST],
    main: &[u32],
    ptr: &[u32],
    ctl: &[u32],
    regs: Regs,
) -> Plan
    requires { Body file.now regs.place 2 × TopWithin main.now regs.mtop × TopWithin ptr.now regs.ptop
        × (regs.ctop ≤ ctl_most) × Callee file.now table.now regs }
    ensures { (m : Machine) → result ≡ planned file.now (set_regs regs (set_main main.now (set_ptr ptr.now (set_ctl ctl.now m)))) 3 72 }
{
    let s = code_file::operand(file, regs.place);
    let h = table[s];
    let head = code_file::head_at(file, h);
    let m = regs.mtop - head.a;
    let q = regs.ptop - head.b;
    if main.len() < m + head.x {
        return Plan::NoRoom;
    }
    if ptr.len() < q + head.y {
        return Plan::NoRoom;
    }
    if ctl.len() < regs.ctop + RECORD {
        return Plan::NoRoom;
    }
    writes(
        Into::Frame,
        h + HEAD_SIZE,
        regs.mtop,
        regs.ptop,
        m,
        q as u32,
    )
}

// 160: a handler's record.
fn enters(ctl: &[u32], regs: Regs) -> Plan
    requires { (regs.place < file_most) × (regs.ctop ≤ ctl_most) }
    ensures { (f : List ℕ) (m : Machine) → result ≡ planned f (set_regs regs (set_ctl ctl.now m)) 3 160 }
{
    if ctl.len() < regs.ctop + RECORD {
        return Plan::NoRoom;
    }
    writes(Into::Handler, regs.place + 3, regs.mtop, regs.ptop, 0, 0)
}

// 72 and 160: a record is opened.
pub fn opens(
    file: &[u8],
    table: &[usize; PROCS_MOST],
    main: &[u32],
    ptr: &[u32],
    ctl: &[u32],
    regs: Regs,
    kind: u8,
) -> Plan
    requires { Body file.now regs.place 2 × TopWithin main.now regs.mtop × TopWithin ptr.now regs.ptop
        × (regs.ctop ≤ ctl_most) × (kind ≡ 72 → Callee file.now table.now regs) × ((kind ≡ 72) ⊎ (kind ≡ 160)) }
    ensures { (m : Machine) → result ≡ planned file.now (set_regs regs (set_main main.now (set_ptr ptr.now (set_ctl ctl.now m)))) 3 kind }
{
    match kind {
        72 => calls(file, table, main, ptr, ctl, regs),
        _ => enters(ctl, regs),
    }
}

// 73: back to the return place.
fn leaves(ctl: &[u32], regs: Regs) -> Plan
    requires { Numbered ctl.now regs.frame }
    ensures { (f : List ℕ) (m : Machine) → result ≡ planned f (set_regs regs (set_ctl ctl.now m)) 1 73 }
{
    let place = control_stack::frame_of(ctl, regs.frame).returns;
    writes(Into::Return, place, regs.mtop, regs.ptop, 0, 0)
}

// 161: the innermost handler's record goes.
fn exits(regs: Regs) -> Plan
    requires { regs.place < file_most }
    ensures { (f : List ℕ) (m : Machine) → result ≡ planned f (set_regs regs m) 1 161 }
{
    writes(Into::Close, regs.place + 1, regs.mtop, regs.ptop, 0, 0)
}

// 73 and 161: a record is closed.
pub fn closes(ctl: &[u32], regs: Regs, kind: u8) -> Plan
    requires { (regs.place < file_most) × Numbered ctl.now regs.frame × ((kind ≡ 73) ⊎ (kind ≡ 161)) }
    ensures { (f : List ℕ) (m : Machine) → result ≡ planned f (set_regs regs (set_ctl ctl.now m)) 1 kind }
{
    match kind {
        73 => leaves(ctl, regs),
        _ => exits(regs),
    }
}
