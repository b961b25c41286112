// Manual 4: what an instruction is about to do that works on objects or pointers, or drops words of both
// stacks. Nothing is written here. Codes of one family share a function.
#![tactic(auto)]

ghost use Rattle.std.specs.Prelude.{◌≡◌, List, ◌⊎◌, ℕ, ◌+◌, ◌-◌, ◌<◌, ◌≤◌, length};
ghost use Rattle.model.specs.Words.{word_at};
ghost use Rattle.model.specs.File as model;
ghost use Rattle.model.specs.Control.{Machine, set_regs, set_main, set_ptr, set_heap};
ghost use Rattle.plan_meaning.specs.Planned.{write, planned};
ghost use Rattle.plan_meaning.specs.Asked.{Body, TopWithin};
ghost use Rattle.heap.specs.Stores.{Lies};
ghost use Rattle.model.specs.File.{file_most};
ghost use Rattle.model.specs.Calls.{main_most, ptr_most};

use model::Regs;
use plan_meaning::{Into, Plan, writes};

// 30 and 32: a plain word of an object.
pub fn plain_fields(
    file: &[u8],
    main: &[u32],
    ptr: &[u32],
    heap: &[u32],
    regs: Regs,
    kind: u8,
) -> Plan
    requires { Body file.now regs.place 2 × TopWithin main.now regs.mtop × TopWithin ptr.now regs.ptop × (1 ≤ regs.ptop)
        × ((word_at ptr.now (regs.ptop - 1) ≡ 0) ⊎ Lies heap.now (word_at ptr.now (regs.ptop - 1)))
        × (kind ≡ 32 → 1 ≤ regs.mtop) × ((kind ≡ 30) ⊎ (kind ≡ 32)) }
    ensures { (m : Machine) → result ≡ planned file.now (set_regs regs (set_main main.now (set_ptr ptr.now (set_heap heap.now m)))) 3 kind }
{
    let place = regs.place;
    let top = regs.ptop - 1;
    let object = ptr[top] as usize;
    if object == 0 {
        return Plan::NilObject; // before the field is looked for: 2, not 3
    }
    let s = code_file::operand(file, place);
    let at = object + s;
    match kind {
        30 => {
            if !heap::in_plain(heap, object, s) {
                return Plan::NoSuchWord;
            }
            writes(
                Into::Read,
                place + 3,
                regs.mtop + 1,
                top,
                regs.mtop,
                heap[at],
            )
        }
        _ => {
            if !heap::may_set_plain(heap, object, s) {
                return Plan::NoSuchWord;
            }
            let value = regs.mtop - 1;
            writes(Into::Store, place + 3, value, top, at, main[value])
        }
    }
}

// 31 and 33: a pointer word of an object. Apart from `plain_fields`: one test serves both codes here, and 33 takes its value from the other stack.
pub fn ptr_fields(file: &[u8], ptr: &[u32], heap: &[u32], regs: Regs, kind: u8) -> Plan
    requires { Body file.now regs.place 2 × TopWithin ptr.now regs.ptop × (1 ≤ regs.ptop)
        × ((word_at ptr.now (regs.ptop - 1) ≡ 0) ⊎ Lies heap.now (word_at ptr.now (regs.ptop - 1)))
        × (kind ≡ 33 → 2 ≤ regs.ptop) × ((kind ≡ 31) ⊎ (kind ≡ 33)) }
    ensures { (m : Machine) → result ≡ planned file.now (set_regs regs (set_ptr ptr.now (set_heap heap.now m))) 3 kind }
{
    let place = regs.place;
    let top = regs.ptop - 1;
    let object = ptr[top] as usize;
    if object == 0 {
        return Plan::NilObject;
    }
    let s = code_file::operand(file, place);
    if !heap::in_ptrs(heap, object, s) {
        return Plan::NoSuchWord;
    }
    let slot = object + s;
    match kind {
        31 => writes(
            Into::Pointer,
            place + 3,
            regs.mtop,
            regs.ptop,
            top,
            heap[slot],
        ),
        _ => {
            let value = regs.ptop - 2;
            writes(Into::Heap, place + 3, regs.mtop, value, slot, ptr[value])
        }
    }
}

// A pointer pushed by an instruction of one byte.
fn pushes(regs: Regs, word: u32) -> Plan
    requires { (regs.place < file_most) × (regs.ptop ≤ ptr_most) }
    ensures { result ≡ write Into.Pointer (regs.place + 1) regs.mtop (regs.ptop + 1) regs.ptop word }
{
    writes(
        Into::Pointer,
        regs.place + 1,
        regs.mtop,
        regs.ptop + 1,
        regs.ptop,
        word,
    )
}

// 57: nil.
pub fn push_nil(regs: Regs) -> Plan
    requires { (regs.place < file_most) × (regs.ptop ≤ ptr_most) }
    ensures { (f : List ℕ) (m : Machine) → result ≡ planned f (set_regs regs m) 1 57 }
{
    pushes(regs, 0)
}

// 58: the root.
pub fn push_root(heap: &[u32], regs: Regs) -> Plan
    requires { (regs.place < file_most) × (regs.ptop ≤ ptr_most) × (2 ≤ length heap.now) }
    ensures { (f : List ℕ) (m : Machine) → result ≡ planned f (set_regs regs (set_heap heap.now m)) 1 58 }
{
    pushes(regs, heap[1])
}

// 59: into the root.
pub fn set_root(ptr: &[u32], regs: Regs) -> Plan
    requires { (regs.place < file_most) × TopWithin ptr.now regs.ptop × (1 ≤ regs.ptop) }
    ensures { (f : List ℕ) (m : Machine) → result ≡ planned f (set_regs regs (set_ptr ptr.now m)) 1 59 }
{
    let top = regs.ptop - 1;
    writes(Into::Heap, regs.place + 1, regs.mtop, top, 1, ptr[top])
}

// 36: a new view.
fn forms(file: &[u8], heap: &[u32], regs: Regs) -> Plan
    requires { Body file.now regs.place 4 × (model.operand file.now regs.place ≤ regs.mtop)
        × (model.operand2 file.now regs.place ≤ regs.ptop) × (regs.mtop ≤ main_most) × (regs.ptop ≤ ptr_most) × (2 ≤ length heap.now) }
    ensures { (m : Machine) → result ≡ planned file.now (set_regs regs (set_heap heap.now m)) 5 36 }
{
    let place = regs.place;
    let plain = code_file::operand(file, place);
    let ptrs = code_file::operand2(file, place);
    let mark = heap[0];
    if heap.len() < mark as usize + (2 + plain + ptrs) {
        return Plan::HeapFull;
    }
    let at = regs.ptop - ptrs;
    writes(Into::View, place + 5, regs.mtop - plain, at + 1, at, mark)
}

// 60, 62 and 64: drops words under the one set aside.
fn retracts(file: &[u8], main: &[u32], ptr: &[u32], regs: Regs, kind: u8) -> Plan
    requires { Body file.now regs.place 4 × TopWithin main.now regs.mtop × TopWithin ptr.now regs.ptop
        × (model.operand file.now regs.place ≤ regs.mtop) × (model.operand2 file.now regs.place ≤ regs.ptop)
        × (kind ≡ 60 → model.operand file.now regs.place < regs.mtop)
        × (kind ≡ 62 → model.operand2 file.now regs.place < regs.ptop) × ((kind ≡ 60) ⊎ ((kind ≡ 62) ⊎ (kind ≡ 64))) }
    ensures { (m : Machine) → result ≡ planned file.now (set_regs regs (set_main main.now (set_ptr ptr.now m))) 5 kind }
{
    let place = regs.place;
    let m = regs.mtop - code_file::operand(file, place);
    let q = regs.ptop - code_file::operand2(file, place);
    match kind {
        60 => {
            let top = regs.mtop - 1;
            writes(Into::DropMain, place + 5, m, q, m - 1, main[top])
        }
        62 => {
            let top = regs.ptop - 1;
            writes(Into::DropPointer, place + 5, m, q, q - 1, ptr[top])
        }
        _ => writes(Into::Drop, place + 5, m, q, 0, 0),
    }
}

// 36, 60, 62 and 64: as many words of both stacks go as the operands say.
pub fn takes(file: &[u8], main: &[u32], ptr: &[u32], heap: &[u32], regs: Regs, kind: u8) -> Plan
    requires { Body file.now regs.place 4 × TopWithin main.now regs.mtop × TopWithin ptr.now regs.ptop × (2 ≤ length heap.now)
        × (model.operand file.now regs.place ≤ regs.mtop) × (model.operand2 file.now regs.place ≤ regs.ptop)
        × (kind ≡ 60 → model.operand file.now regs.place < regs.mtop)
        × (kind ≡ 62 → model.operand2 file.now regs.place < regs.ptop)
        × ((kind ≡ 36) ⊎ ((kind ≡ 60) ⊎ ((kind ≡ 62) ⊎ (kind ≡ 64)))) }
    ensures { (m : Machine) → result ≡ planned file.now (set_regs regs (set_main main.now (set_ptr ptr.now (set_heap heap.now m)))) 5 kind }
{
    match kind {
        36 => forms(file, heap, regs),
        60 => retracts(file, main, ptr, regs, 60),
        62 => retracts(file, main, ptr, regs, 62),
        _ => retracts(file, main, ptr, regs, 64),
    }
}

// 131: two pointers are the same.
pub fn same_ptr(ptr: &[u32], regs: Regs) -> Plan
    requires { (regs.place < file_most) × (regs.mtop ≤ main_most) × TopWithin ptr.now regs.ptop × (2 ≤ regs.ptop) }
    ensures { (f : List ℕ) (m : Machine) → result ≡ planned f (set_regs regs (set_ptr ptr.now m)) 1 131 }
{
    let second = regs.ptop - 1;
    let first = regs.ptop - 2;
    let word = arithmetic::eq_w(ptr[first], ptr[second]);
    writes(
        Into::Read,
        regs.place + 1,
        regs.mtop + 1,
        first,
        regs.mtop,
        word,
    )
}
