// Manual 4.29 and 4.30: what an instruction is about to do that reads an element of a vector or stores in one. Nothing is written here. Words and pointers
// have functions of their own, since their vectors lie otherwise in the heap, and each must take the reads in the order that its vector asks for.
#![tactic(auto)]

ghost use Rattle.std.specs.Prelude.{◌≡◌, List, ◌⊎◌, ℕ, ◌-◌, ◌<◌, ◌≤◌, ◌-ℤ◌, IfSome};
ghost use Rattle.model.specs.Words.{signed, word_at};
ghost use Rattle.model.specs.Vectors.{element_in};
ghost use Rattle.plan_elements.specs.Sought.{place};
ghost use Rattle.model.specs.File.{file_most};
ghost use Rattle.model.specs.Control.{Machine, set_regs, set_main, set_ptr, set_heap};
ghost use Rattle.plan_meaning.specs.Planned.{planned};
ghost use Rattle.plan_meaning.specs.Asked.{TopWithin};
ghost use Rattle.heap.specs.Stores.{Lies};

use model::{ObjectKind, Regs};
use plan_meaning::{Into, Plan, writes};

// How far behind the first an element lies: its index less the vector's lower bound, where there are so many elements.
fn distance(index: u32, bound: u32, elements: usize) -> Option<usize>
    ensures place { (first : ℕ) → element_in first elements (signed index -ℤ signed bound) ≡ place first result }
    ensures within { IfSome result (λ far. far < elements) }
{
    if arithmetic::under(index, bound) {
        return None;
    }
    let far = arithmetic::distance(index, bound);
    if elements <= far {
        return None;
    }
    Some(far)
}

// 82 and 84: an element of a vector of words. The elements begin behind the lower bound, in word 3.
pub fn word_elements(main: &[u32], ptr: &[u32], heap: &[u32], regs: Regs, kind: u8) -> Plan
    requires { (regs.place < file_most) × TopWithin main.now regs.mtop × TopWithin ptr.now regs.ptop × (1 ≤ regs.mtop) × (1 ≤ regs.ptop)
        × ((word_at ptr.now (regs.ptop - 1) ≡ 0) ⊎ Lies heap.now (word_at ptr.now (regs.ptop - 1)))
        × (kind ≡ 84 → 2 ≤ regs.mtop) × ((kind ≡ 82) ⊎ (kind ≡ 84)) }
    ensures { (f : List ℕ) (m : Machine) → result ≡ planned f (set_regs regs (set_main main.now (set_ptr ptr.now (set_heap heap.now m)))) 1 kind }
{
    let top = regs.ptop - 1;
    let last = regs.mtop - 1;
    let object = ptr[top] as usize;
    if object == 0 {
        return Plan::NilObject; // before its kind is looked at: 2, not 6
    }
    if heap::kind_of(heap, object) != Some(ObjectKind::WordVector) {
        return Plan::VectorFault;
    }
    let elements = heap::size_at(heap, object) - 3;
    let bound = heap[object + 2];
    let Some(far) = distance(main[last], bound, elements) else {
        return Plan::VectorFault;
    };
    let at = object + 3 + far;
    match kind {
        82 => writes(Into::Read, regs.place + 1, regs.mtop, top, last, heap[at]),
        _ => {
            let value = regs.mtop - 2;
            writes(Into::StoreWord, regs.place + 1, value, top, at, main[value])
        }
    }
}

// 83 and 85: an element of a vector of pointers. The elements begin in word 2, and the lower bound lies behind them, in the last word. Each read here waits
// for the one before it. So the number of elements is had from the size, which needs no mask, and words are counted from the object, which needs no sum.
pub fn ptr_elements(main: &[u32], ptr: &[u32], heap: &[u32], regs: Regs, kind: u8) -> Plan
    requires { (regs.place < file_most) × TopWithin main.now regs.mtop × TopWithin ptr.now regs.ptop × (1 ≤ regs.mtop) × (1 ≤ regs.ptop)
        × ((word_at ptr.now (regs.ptop - 1) ≡ 0) ⊎ Lies heap.now (word_at ptr.now (regs.ptop - 1)))
        × (kind ≡ 85 → 2 ≤ regs.ptop) × ((kind ≡ 83) ⊎ (kind ≡ 85)) }
    ensures { (f : List ℕ) (m : Machine) → result ≡ planned f (set_regs regs (set_main main.now (set_ptr ptr.now (set_heap heap.now m)))) 1 kind }
{
    let top = regs.ptop - 1;
    let last = regs.mtop - 1;
    let object = ptr[top] as usize;
    if object == 0 {
        return Plan::NilObject;
    }
    if heap::kind_of(heap, object) != Some(ObjectKind::PtrVector) {
        return Plan::VectorFault;
    }
    let size = heap::size_at(heap, object);
    let elements = size - 3;
    let vector = &heap[object..];
    let bound = vector[size - 1];
    let Some(far) = distance(main[last], bound, elements) else {
        return Plan::VectorFault;
    };
    let element = 2 + far;
    match kind {
        83 => writes(
            Into::ReadPointer,
            regs.place + 1,
            last,
            regs.ptop,
            top,
            vector[element],
        ),
        _ => {
            let value = regs.ptop - 2;
            writes(
                Into::StorePointer,
                regs.place + 1,
                last,
                value,
                object + element,
                ptr[value],
            )
        }
    }
}
