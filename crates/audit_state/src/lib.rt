// Refusal 12: registers, stacks and control records against a passed file and its map.
// Manual 6.10 to 6.12. The records are read from the top downwards, each once.
// That registers are words is asked here, and no fact of their type: each step would have to show it anew.
#![tactic(auto)]

ghost use Rattle.std.specs.Prelude.{◌≡◌, List, ℕ, ◌*◌, ◌≤◌, length, drop};
ghost use Rattle.model.specs.Heap.{objects_of};
ghost use Rattle.model.specs.Choice.{all};
ghost use Rattle.model.specs.Control.{Machine, set_regs, down, record_words};
ghost use Rattle.model.specs.Sound.{zeros, stack?, stack_tests, topmost, sound?};
ghost use Rattle.audit_words.specs.Table.{Marks};
ghost use Rattle.registers.specs.Registers.{RegsWords};
ghost use Rattle.audit_records.specs.Records.{the_look};
ghost use Rattle.audit_state.specs.Audit.{tops_ok, done_ok};

use audit_places::Passed;
use audit_records::{Audited, Look};
use code_file::Head;
use model::{RECORD, Regs};
use std::ops::ControlFlow;

// The topmost `count` records, from the top downwards.
fn records_right(audited: &Audited, count: usize, top: Look) -> bool
    requires { record_words * count ≤ length audited.now.ctl.now }
    ensures { result ≡ stack? audited.now.passed.file.now audited.now.passed.map.now (length audited.now.main.now) (length audited.now.ptr.now)
        (down audited.now.ctl.now count) (the_look top) }
{
    let mut look = top;
    for left in (0..count).rev() {
        match audited.read_record(left, look) {
            ControlFlow::Break(right) => return right,
            ControlFlow::Continue(next) => look = next,
        }
    }
    false
}

// The words from the top on are 0.
fn zeros_from(words: &[u32], top: usize) -> bool
    ensures { result ≡ zeros (drop top words.now) }
{
    audit_words::all_zero(words, top, words.len())
}

// The words of the stacks: 0 above the tops, pointers on the pointer stack.
fn words_right(audited: &Audited, marks: &[bool], regs: Regs) -> bool
    ensures { (heap : List ℕ) → Marks (objects_of heap) marks.now →
        result ≡ all (stack_tests (record { regs = regs; main = audited.now.main.now; ptr = audited.now.ptr.now; ctl = audited.now.ctl.now; heap = heap })) }
{
    zeros_from(audited.main, regs.mtop)
        && zeros_from(audited.ptr, regs.ptop)
        && zeros_from(audited.ctl, regs.ctop)
        && audit_words::audit_pointers(audited.ptr, regs.ptop, marks)
}

// The registers of a running state: the tops fit the records and the map.
fn tops_right(audited: &Audited, regs: Regs) -> bool
    requires { RegsWords regs }
    ensures { result ≡ tops_ok audited.now.passed.map.now regs (length audited.now.ctl.now) }
{
    let here = audited.passed.at(regs.place);
    regs.state == 0
        && regs.ctop % RECORD == 0
        && regs.ctop <= audited.ctl.len()
        && here.main <= regs.mtop
        && here.ptr <= regs.ptop
}

// The registers of a finished state; `head` is procedure 0's.
fn done_right(head: Head, regs: Regs) -> bool
    ensures { result ≡ done_ok head.r head.s regs }
{
    let done = Regs {
        place: 0,
        frame: 0,
        handler: 0,
        mtop: head.r,
        ptop: head.s,
        ctop: 0,
        ..regs
    };
    regs == done
}

// What the registers tell of the topmost frame.
fn top_frame(passed: &Passed, regs: Regs) -> Look
    requires { RegsWords regs }
    ensures { (m : Machine) → the_look result ≡ topmost passed.now.map.now (set_regs regs m) }
{
    let here = passed.at(regs.place);
    Look {
        inner: here.inner,
        place: regs.place,
        frame: regs.frame,
        handler: regs.handler,
        main_base: regs.mtop.saturating_sub(here.main),
        ptr_base: regs.ptop.saturating_sub(here.ptr),
    }
}

// The state is sound, beside the heap whose objects are marked.
pub fn sound_state(audited: &Audited, marks: &[bool], regs: Regs) -> bool
    requires { RegsWords regs }
    ensures { (heap : List ℕ) → Marks (objects_of heap) marks.now →
        result ≡ sound? audited.now.passed.file.now audited.now.passed.map.now (record {
          regs = regs;
          main = audited.now.main.now;
          ptr = audited.now.ptr.now;
          ctl = audited.now.ctl.now;
          heap = heap;
        }) }
{
    if regs.state == 1 {
        let head = audited.passed.head_of(0);
        return done_right(head, regs) && words_right(audited, marks, regs);
    }
    let top = top_frame(&audited.passed, regs);
    tops_right(audited, regs)
        && records_right(audited, regs.ctop / RECORD, top)
        && words_right(audited, marks, regs)
}
