// The writes of a plan into the stacks and into a heap word: words popped, and a word stored. Also the end of a run.
// Lists, registers and writes stay parameters of their own, as in apply_records.
#![tactic(auto)]

ghost use Rattle.std.specs.Prelude.{◌≡◌, false, List, ℕ, ◌+◌, ◌<◌, ◌≤◌, length};
ghost use Rattle.model.specs.Words.{cut};
ghost use Rattle.model.specs.Control.{Machine};
ghost use Rattle.model.specs.Moves.{finished};
ghost use Rattle.laws.specs.Cuts.{Topped};
ghost use Rattle.apply_words.specs.Asks.{Plain, Retract, Dropping, InMain, InPtr, onwards, plain_write, tried_write, tried_on};

use model::Regs;
use plan_meaning::{Into, Put};

// The stack cut to its new top, with no loop: a loop among the steps of a run takes the registers that these need. A caller takes the function whose bound on
// the words that go it knows, and so the fewest tests. No const parameter makes one of them: that of the halves would have to be computed, which the language
// does not do, and a trait with a type for each bound is longer than what it would save.

// Where exactly one goes: no test.
fn pop_last(l: &mut [u32], new: usize, old: usize)
    requires { Topped old l.old × (old ≡ new + 1) }
    ensures { l.new ≡ cut new l.old }
{
    l[new] = 0;
}

// Where one or two go: no test; a single one is zeroed twice.
fn pop_some(l: &mut [u32], new: usize, old: usize)
    requires { Topped old l.old × (new < old) × (old ≤ new + 2) }
    ensures { l.new ≡ cut new l.old }
{
    let last = old - 1;
    l[last] = 0;
    l[new] = 0;
}

// Where at most one goes.
fn pop_one(l: &mut [u32], new: usize, old: usize)
    requires { Topped old l.old × (old ≤ new + 1) }
    ensures { l.new ≡ cut new l.old }
{
    if old <= new {
        return;
    }
    pop_last(l, new, old);
}

// Where at most two go.
fn pop_two(l: &mut [u32], new: usize, old: usize)
    requires { Topped old l.old × (old ≤ new + 2) }
    ensures { l.new ≡ cut new l.old }
{
    if old <= new {
        return;
    }
    pop_some(l, new, old);
}

// Where at most four go.
fn pop_four(l: &mut [u32], new: usize, old: usize)
    requires { Topped old l.old × (new ≤ old) × (old ≤ new + 4) }
    ensures { l.new ≡ cut new l.old }
{
    if old - new <= 2 {
        pop_two(l, new, old);
        return;
    }
    let middle = old - 2;
    pop_two(l, middle, old);
    pop_two(l, new, middle);
}

// Where at most eight go.
fn pop_eight(l: &mut [u32], new: usize, old: usize)
    requires { Topped old l.old × (new ≤ old) × (old ≤ new + 8) }
    ensures { l.new ≡ cut new l.old }
{
    if old - new <= 4 {
        pop_four(l, new, old);
        return;
    }
    let middle = old - 4;
    pop_four(l, middle, old);
    pop_four(l, new, middle);
}

// The same however many words go; few of them without a loop.
pub fn cut_to(l: &mut [u32], new: usize, old: usize)
    requires { Topped old l.old }
    ensures { l.new ≡ cut new l.old }
{
    if old <= new {
        return;
    }
    if old - new <= 8 {
        pop_eight(l, new, old);
        return;
    }
    l[new..old].fill(0);
}

// 73 in the first frame: the run is finished.
pub fn finish(ctl: &mut [u32], regs: Regs) -> Regs
    requires { Topped regs.ctop ctl.old }
    ensures { (main ptr heap : List ℕ) → record { regs = result; main = main; ptr = ptr; ctl = ctl.new; heap = heap }
        ≡ finished (record { regs = regs; main = main; ptr = ptr; ctl = ctl.old; heap = heap }) }
{
    cut_to(ctl, 0, regs.ctop);
    Regs {
        place: 0,
        frame: 0,
        handler: 0,
        ctop: 0,
        state: 1,
        ..regs
    }
}

// 60, 62 and 64: the word set aside is put back.
fn put_back(main: &mut [u32], ptr: &mut [u32], put: Put)
    requires { Retract put.into × InMain (length main.old) put × InPtr (length ptr.old) put }
    ensures { (m : Machine) → main.old ≡ cut put.mtop m.main → ptr.old ≡ cut put.ptop m.ptr
        → record { regs = onwards put m.regs; main = main.new; ptr = ptr.new; ctl = m.ctl; heap = m.heap }
        ≡ plain_write put.into put m }
{
    match put.into {
        Into::DropMain => main[put.at] = put.word,
        Into::DropPointer => ptr[put.at] = put.word,
        _ => {}
    }
}

// 60, 62 and 64, however many words go.
pub fn drop_all(main: &mut [u32], ptr: &mut [u32], regs: Regs, put: Put)
    requires { Dropping main.old ptr.old regs put }
    ensures { (ctl heap : List ℕ) → record { regs = onwards put regs; main = main.new; ptr = ptr.new; ctl = ctl; heap = heap }
        ≡ plain_write put.into put (record { regs = regs; main = main.old; ptr = ptr.old; ctl = ctl; heap = heap }) }
{
    cut_to(main, put.mtop, regs.mtop);
    cut_to(ptr, put.ptop, regs.ptop);
    put_back(main, ptr, put);
}

// The same where at most four words of each stack go; where more would, nothing is done. The pointer stack comes first: the other way round retracts took
// 2 to 3 percent longer, with as many instructions.
fn drop_few(main: &mut [u32], ptr: &mut [u32], regs: Regs, put: Put) -> bool
    requires { Dropping main.old ptr.old regs put }
    ensures { (ctl heap : List ℕ) → record { regs = tried_on result put regs; main = main.new; ptr = ptr.new; ctl = ctl; heap = heap }
        ≡ tried_write result put.into put (record { regs = regs; main = main.old; ptr = ptr.old; ctl = ctl; heap = heap }) }
{
    if 4 < regs.ptop - put.ptop {
        return false;
    }
    if 4 < regs.mtop - put.mtop {
        return false;
    }
    pop_four(ptr, put.ptop, regs.ptop);
    pop_four(main, put.mtop, regs.mtop);
    put_back(main, ptr, put);
    true
}

// The stacks are cut, and a word, or none, is written into one of them or into the heap; or nothing is done, where many words would be dropped.
// Each arm pops by itself: a plan made with a known `into` then jumps to its arm, which looks at no stack that its instructions leave alone.
// All but `Pointer` and the retracts ask nothing: how many words go is known, or that one or two go.
// `ReadPointer` writes before it pops: of the writes that arms end with the compiler makes one store, and the next read of the pointer waits less if it
// has its own.
pub fn plain(main: &mut [u32], ptr: &mut [u32], heap: &mut [u32], regs: Regs, put: Put) -> bool
    requires { Plain (length heap.old) main.old ptr.old regs put }
    ensures state { (ctl : List ℕ) → record {
      regs = tried_on result put regs;
      main = main.new;
      ptr = ptr.new;
      ctl = ctl;
      heap = heap.new;
    } ≡ tried_write result put.into put (record { regs = regs; main = main.old; ptr = ptr.old; ctl = ctl; heap = heap.old }) }
    ensures undone { result ≡ false → Retract put.into }
{
    let at = put.at;
    match put.into {
        Into::Nothing => true,
        Into::Pop => {
            pop_last(main, put.mtop, regs.mtop);
            true
        }
        Into::Push => {
            main[at] = put.word;
            true
        }
        Into::Main => {
            pop_last(main, put.mtop, regs.mtop);
            main[at] = put.word;
            true
        }
        Into::Pointer => {
            pop_one(ptr, put.ptop, regs.ptop);
            ptr[at] = put.word;
            true
        }
        Into::Heap => {
            pop_some(ptr, put.ptop, regs.ptop);
            heap[at] = put.word;
            true
        }
        Into::Read => {
            pop_some(ptr, put.ptop, regs.ptop);
            main[at] = put.word;
            true
        }
        Into::ReadPointer => {
            ptr[at] = put.word;
            pop_last(main, put.mtop, regs.mtop);
            true
        }
        Into::Store => {
            pop_last(main, put.mtop, regs.mtop);
            pop_last(ptr, put.ptop, regs.ptop);
            heap[at] = put.word;
            true
        }
        Into::StoreWord => {
            pop_some(main, put.mtop, regs.mtop);
            pop_last(ptr, put.ptop, regs.ptop);
            heap[at] = put.word;
            true
        }
        Into::StorePointer => {
            pop_last(main, put.mtop, regs.mtop);
            pop_some(ptr, put.ptop, regs.ptop);
            heap[at] = put.word;
            true
        }
        _ => drop_few(main, ptr, regs, put),
    }
}
