// Manual 4.28: what an instruction is about to do that makes a vector. Nothing is written here.
#![tactic(auto)]

ghost use Rattle.std.specs.Prelude.{◌≡◌, List, ℕ, ◌+◌, ◌<◌, ◌≤◌, ◌-◌, leb, length};
ghost use Rattle.model.specs.File.{file_most};
ghost use Rattle.model.specs.Calls.{ptr_most};
ghost use Rattle.model.specs.Heap.{mark_of};
ghost use Rattle.model.specs.Control.{Machine, set_regs, set_main, set_heap};
ghost use Rattle.model.specs.Words.{word_at};
ghost use Rattle.plan_meaning.specs.Planned.{plan_new, plan_length, planned};
ghost use Rattle.plan_meaning.specs.Asked.{TopWithin};

use model::Regs;
use plan_meaning::{Into, Plan, writes};

// The free words suffice for a vector of so many elements: header, size and lower bound come to them.
fn has_room(heap: &[u32], elements: u32) -> bool
    requires { 1 ≤ length heap.now }
    ensures { result ≡ leb (mark_of heap.now + (3 + elements)) (length heap.now) }
{
    let end = heap[0] as usize + (3 + elements as usize);
    end <= heap.len()
}

// A vector in the place of WORDS words and POINTERS pointers. Its length is the word next above the lowest of those words, the lower bound.
fn make<const WORDS: usize, const POINTERS: usize>(
    into: Into,
    main: &[u32],
    heap: &[u32],
    regs: Regs,
) -> Plan
    requires { (regs.place < file_most) × TopWithin main.now regs.mtop × (2 ≤ WORDS) × (WORDS ≤ regs.mtop) × (POINTERS ≤ regs.ptop)
        × (regs.ptop ≤ ptr_most) × (1 ≤ length heap.now) }
    ensures { (m : Machine) → let n = word_at main.now (regs.mtop - (WORDS - 1)) in
        result ≡ plan_length n (plan_new (set_regs regs (set_heap heap.now m)) (regs.place + 1) into (3 + n) WORDS POINTERS) }
{
    let elements = main[regs.mtop - (WORDS - 1)];
    if elements.cast_signed() < 0 {
        return Plan::VectorFault; // a negative length, before the heap is looked at: 6, not 4
    }
    if !has_room(heap, elements) {
        return Plan::HeapFull;
    }
    let at = regs.ptop - POINTERS;
    writes(into, regs.place + 1, regs.mtop - WORDS, at + 1, at, heap[0])
}

// 80: a vector of words. From the top: the initial value, the length, the lower bound.
pub fn make_words(main: &[u32], heap: &[u32], regs: Regs) -> Plan
    requires { (regs.place < file_most) × TopWithin main.now regs.mtop × (3 ≤ regs.mtop) × (regs.ptop ≤ ptr_most) × (1 ≤ length heap.now) }
    ensures { (f : List ℕ) (m : Machine) → result ≡ planned f (set_regs regs (set_main main.now (set_heap heap.now m))) 1 80 }
{
    make::<3, 0>(Into::WordVector, main, heap, regs)
}

// 81: a vector of pointers. The initial value is the topmost pointer; from the top of the main stack the length, the lower bound.
pub fn make_pointers(main: &[u32], heap: &[u32], regs: Regs) -> Plan
    requires { (regs.place < file_most) × TopWithin main.now regs.mtop × (2 ≤ regs.mtop) × (1 ≤ regs.ptop) × (regs.ptop ≤ ptr_most)
        × (1 ≤ length heap.now) }
    ensures { (f : List ℕ) (m : Machine) → result ≡ planned f (set_regs regs (set_main main.now (set_heap heap.now m))) 1 81 }
{
    make::<2, 1>(Into::PtrVector, main, heap, regs)
}
