// New objects in the heap: a view of words that are popped, and vectors (Manual 4.11, 4.28). All of them begin by one function, which alone
// writes the mark. Lists, registers and writes stay parameters of their own, as in apply.
#![tactic(auto)]

ghost use Rattle.std.specs.Prelude.{◌≡◌, List, [], ◌∷◌, ℕ, ◌+◌, ◌-◌, ◌≤◌, length, replicate};
ghost use Rattle.std.proofs.lemmas.List.Edits.{sets};
ghost use Rattle.std.proofs.Math.Seq.{slice};
ghost use Rattle.model.specs.Words.{word_at};
ghost use Rattle.model.specs.Heap.{mark_of, view_kind, word_vector_kind, ptr_vector_kind, made};
ghost use Rattle.model.specs.ObjectKinds.{kind_number};
ghost use Rattle.plan_meaning.specs.Settled.{applied};
ghost use Rattle.apply_objects.specs.Asks.{Begins, Room, WordsRoom, PointersRoom, Making, begun};

use model::{ObjectKind, Regs};
use plan_meaning::{Into, Put};

// The words, copied to a place of the heap. With `copy_from_slice`, a call of memmove, a small view takes up to a third longer.
fn copy(heap: &mut [u32], to: usize, words: &[u32])
    requires { to + length words.now ≤ length heap.old }
    ensures { heap.new ≡ sets heap.old to words.now }
{
    for (i, word) in words.iter().enumerate() {
        heap[to + i] = *word;
    }
}

// The same word, count times, from a place of the heap on. With `fill`, which writes the last word apart, a vector takes up to a fifth longer.
fn fill(heap: &mut [u32], from: usize, count: usize, word: u32)
    requires { from + count ≤ length heap.old }
    ensures { heap.new ≡ sets heap.old from (replicate count word) }
{
    for i in from..from + count {
        heap[i] = word;
    }
}

// A new object at the mark, which rises: its header and its size; the index of the word behind them.
fn begin(heap: &mut [u32], kind: ObjectKind, pointers: usize, words: usize) -> usize
    requires { Begins heap.old (kind_number kind) pointers words }
    ensures first { result ≡ mark_of heap.old + 2 }
    ensures begun { heap.new ≡ begun (kind_number kind) pointers words heap.old }
{
    let mark = heap[0] as usize;
    let size = 2 + (pointers + words);
    let end = mark + size;
    let head = kind as usize * 16777216 + pointers;
    heap[mark] = head as u32;
    heap[mark + 1] = size as u32;
    heap[0] = end as u32;
    mark + 2
}

// 36: a view of the words popped; pointers first.
fn form(main: &[u32], ptr: &[u32], heap: &mut [u32], regs: Regs, put: Put)
    requires { Room (length main.now) (length ptr.now) heap.old regs put }
    ensures { heap.new ≡ made view_kind (slice put.at regs.ptop ptr.now) (slice put.mtop regs.mtop main.now) heap.old }
{
    let at = put.at;
    let low = put.mtop;
    let pointers = regs.ptop - at;
    let words = regs.mtop - low;
    let first = begin(heap, ObjectKind::View, pointers, words);
    copy(heap, first, &ptr[at..regs.ptop]);
    copy(heap, first + pointers, &main[low..regs.mtop]);
}

// 80: a vector of words: the lower bound, then the elements. From the top: the initial value, the length, the lower bound. A vector of pointers
// has a function of its own: its operands and its parts lie otherwise, and what both share is `begin` and `fill`.
fn word_vector(main: &[u32], heap: &mut [u32], regs: Regs)
    requires { WordsRoom main.now heap.old regs }
    ensures { heap.new ≡ made word_vector_kind [] (word_at main.now (regs.mtop - 3)
        ∷ replicate (word_at main.now (regs.mtop - 2)) (word_at main.now (regs.mtop - 1))) heap.old }
{
    let top = regs.mtop;
    let value = main[top - 1];
    let count = main[top - 2] as usize;
    let bound = main[top - 3];
    let first = begin(heap, ObjectKind::WordVector, 0, 1 + count);
    heap[first] = bound;
    fill(heap, first + 1, count, value);
}

// 81: a vector of pointers: the elements, then the lower bound. The initial value is the topmost pointer; from the top of the main stack the
// length, the lower bound.
fn ptr_vector(main: &[u32], ptr: &[u32], heap: &mut [u32], regs: Regs)
    requires { PointersRoom main.now ptr.now heap.old regs }
    ensures { heap.new ≡ made ptr_vector_kind (replicate (word_at main.now (regs.mtop - 1)) (word_at ptr.now (regs.ptop - 1)))
        (word_at main.now (regs.mtop - 2) ∷ []) heap.old }
{
    let top = regs.mtop;
    let above = regs.ptop - 1;
    let value = ptr[above];
    let count = main[top - 1] as usize;
    let bound = main[top - 2];
    let first = begin(heap, ObjectKind::PtrVector, count, 1);
    fill(heap, first, count, value);
    let last = first + count;
    heap[last] = bound;
}

// 36, 80 and 81: the heap with the new object. What is popped is still on the stacks.
pub fn make(main: &[u32], ptr: &[u32], heap: &mut [u32], regs: Regs, put: Put)
    requires { Making main.now ptr.now heap.old regs put }
    ensures { (f ctl : List ℕ) → heap.new ≡ (applied f put (record {
      regs = regs;
      main = main.now;
      ptr = ptr.now;
      ctl = ctl;
      heap = heap.old;
    })).heap }
{
    let into = put.into;
    match into {
        Into::View => {
            form(main, ptr, heap, regs, put);
        }
        Into::WordVector => {
            word_vector(main, heap, regs);
        }
        _ => {
            ptr_vector(main, ptr, heap, regs);
        }
    }
}
