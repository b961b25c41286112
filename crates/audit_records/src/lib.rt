// One control record against a passed file and its map: its tests, and what it tells of the records below.
// Manual 6.11.
#![tactic(auto)]

ghost use Rattle.std.specs.Prelude.{◌≡◌, List, ℕ, ◌+◌, ◌*◌, ◌<◌, ◌≤◌, length};
ghost use Rattle.model.specs.Calls.{main_most, ptr_most};

use audit_places::Passed;
use code_file::Head;
use control_stack::{Frame, Handler};
use model::NONE_OPEN;
use std::ops::ControlFlow;

const CALL: usize = 72;

const CALL_SIZE: usize = 3;

// What the records above tell of the frame that is still to be read. What indexes the map, or is added to, is a word.
#[derive(Clone, Copy)]
pub struct Look {
    pub inner: usize, // its innermost handler that is still to be read, or 65,535, as the map has it
    pub place: usize, // its place, or the call that it waits for
    pub frame: usize, // the number of its record
    pub handler: usize, // the number of the nearest handler's record
    pub main_base: usize,
    pub ptr_base: usize,
    pub ghost inner_word: { inner < 4294967296 },
    pub ghost place_word: { place < 4294967296 },
    pub ghost main_word: { main_base < 4294967296 },
    pub ghost ptr_word: { ptr_base < 4294967296 },
}

// The stacks of a state, and the passed file against which they are audited.
#[derive(Clone, Copy)]
pub struct Audited<'a> {
    pub passed: Passed<'a>,
    pub main: &'a [u32],
    pub ptr: &'a [u32],
    pub ctl: &'a [u32],
    pub ghost main_fits: { length main.now ≤ main_most },
    pub ghost ptr_fits: { length ptr.now ≤ ptr_most },
}

impl Audited<'_> {
    ghost use Rattle.model.specs.Choice.{all};
    ghost use Rattle.model.specs.File.{ins_at};
    ghost use Rattle.model.specs.Checker.{Effect, effect_of, none};
    ghost use Rattle.model.specs.Control.{Rec, rec_at, down, record_words};
    ghost use Rattle.model.specs.Sound.{frame_tests, first_tests, caller_tests, caller, handler_tests, outside};
    ghost use Rattle.audit_places.specs.Places.{HeadFor};
    ghost use Rattle.control_stack.specs.Layout.{the_frame, the_handler};
    ghost use Rattle.audit_records.specs.Records.{the_look, BasesFit, PopsParams, RecordTells};

    // The tests of a frame's record, on top of `left` others.
    fn frame_right(&self, left: usize, frame: Frame, look: Look) -> bool
        requires { record_words * left + 4 < length self.now.ctl.now }
        ensures { (rs : List Rec) → length rs ≡ left → result ≡ all (frame_tests self.now.passed.file.now self.now.passed.map.now
            (length self.now.main.now) (length self.now.ptr.now) (the_frame frame) rs (the_look look)) }
    {
        if !self.passed.within(frame.proc, look.place) {
            return false;
        }
        let head = self.passed.head_of(frame.proc);
        look.frame == left + 1
            && frame.main_base == look.main_base
            && frame.ptr_base == look.ptr_base
            && look.main_base + head.x <= self.main.len()
            && look.ptr_base + head.y <= self.ptr.len()
    }

    // The tests of the first frame's record.
    fn first_right(frame: Frame, look: Look) -> bool
        ensures { (f map : List ℕ) (lm lp : ℕ) → result ≡ all (first_tests f map lm lp (the_frame frame) (the_look look)) }
    {
        let first = Frame {
            main_base: 0,
            ptr_base: 0,
            proc: 0,
            returns: 0,
            caller: 0,
        };
        frame == first && look.handler == 0
    }

    // The frame was called at `call`; `head` is its procedure's. That an instruction starts at `call` is not asked: elsewhere the map's depth is
    // 65,535, more than any caller has.
    fn caller_right(&self, frame: Frame, head: Head, call: usize) -> bool
        requires { HeadFor self.now.passed.file.now frame.proc head × BasesFit frame × (call < 4294967296) }
        ensures { (lm lp : ℕ) → result ≡ all (caller_tests self.now.passed.file.now self.now.passed.map.now lm lp (the_frame frame) call
            (effect_of self.now.passed.file.now (ins_at self.now.passed.file.now call))) }
    {
        let here = self.passed.at(call);
        self.passed.byte_at(call) == CALL
            && self.passed.operand(call) == frame.proc
            && frame.returns == call + CALL_SIZE
            && here.main <= frame.main_base + head.a
            && here.ptr <= frame.ptr_base + head.b
    }

    // What a frame's record tells of its caller: with the parameters, which the call popped, the caller's depths reach up to the frame's
    // bases.
    fn caller_of(&self, frame: Frame, look: Look, head: Head, call: usize) -> Look
        requires { BasesFit frame × (head.a < 256) × (head.b < 256) × (call < 4294967296) }
        ensures { (f : List ℕ) (lm lp : ℕ) (e : Effect) → PopsParams e head →
            the_look result ≡ caller f self.now.passed.map.now lm lp (the_frame frame) (the_look look) call e }
    {
        let here = self.passed.at(call);
        Look {
            inner: here.inner,
            place: call,
            frame: frame.caller,
            handler: look.handler,
            main_base: (frame.main_base + head.a).saturating_sub(here.main),
            ptr_base: (frame.ptr_base + head.b).saturating_sub(here.ptr),
        }
    }

    // The tests of a handler's record, on top of `left` others.
    fn handler_right(&self, left: usize, handler: Handler, look: Look) -> bool
        requires { record_words * left + 4 < length self.now.ctl.now }
        ensures { (f : List ℕ) (lm lp : ℕ) (rs : List Rec) → length rs ≡ left →
            result ≡ all (handler_tests f self.now.passed.map.now lm lp (the_handler handler) rs (the_look look)) }
    {
        let here = self.passed.at(look.inner);
        let opened = Handler {
            opened: look.inner,
            main_top: look.main_base + here.main,
            ptr_top: look.ptr_base + here.ptr,
            frame: look.frame,
            ..handler
        };
        look.handler == left + 1 && handler == opened
    }

    // What a handler's record tells of the records below: the next outer handler of its frame, or the frame.
    fn outside_of(&self, handler: Handler, look: Look) -> Look
        ensures { (f : List ℕ) (lm lp : ℕ) → the_look result ≡ outside f self.now.passed.map.now lm lp (the_handler handler) (the_look look) }
    {
        Look {
            inner: self.passed.at(look.inner).inner,
            place: look.place,
            frame: look.frame,
            handler: handler.outer,
            main_base: look.main_base,
            ptr_base: look.ptr_base,
        }
    }

    // A handler's record, on top of `left` others, leads to the next outer one of its frame, or to the frame.
    fn read_handler(&self, left: usize, look: Look) -> ControlFlow<bool, Look>
        requires { record_words * left + 4 < length self.now.ctl.now }
        ensures { (f : List ℕ) (lm lp : ℕ) → (look.inner ≡ none → ⊥) →
            RecordTells f self.now.passed.map.now lm lp (rec_at self.now.ctl.now left) (down self.now.ctl.now left) (the_look look) result }
    {
        let handler = control_stack::handler_at(self.ctl, left);
        if !self.handler_right(left, handler, look) {
            return ControlFlow::Break(false);
        }
        ControlFlow::Continue(self.outside_of(handler, look))
    }

    // A frame's record, on top of `left` others: the first frame ends the reading, any other leads to its caller.
    fn read_frame(&self, left: usize, look: Look) -> ControlFlow<bool, Look>
        requires { (record_words * left + 4 < length self.now.ctl.now) × (look.inner ≡ none) }
        ensures { RecordTells self.now.passed.file.now self.now.passed.map.now (length self.now.main.now) (length self.now.ptr.now)
            (rec_at self.now.ctl.now left) (down self.now.ctl.now left) (the_look look) result }
    {
        let frame = control_stack::frame_at(self.ctl, left);
        if !self.frame_right(left, frame, look) {
            return ControlFlow::Break(false);
        }
        if look.frame == 1 {
            return ControlFlow::Break(Self::first_right(frame, look));
        }
        let head = self.passed.head_of(frame.proc);
        let call = frame.returns.saturating_sub(CALL_SIZE); // where no call ends there, the tests of the call fail
        if !self.caller_right(frame, head, call) {
            return ControlFlow::Break(false);
        }
        ControlFlow::Continue(self.caller_of(frame, look, head, call))
    }

    // The record on top of `left` others: a handler's as long as one of the frame's is still to be read, else the frame's. It gives the verdict,
    // or what to read on with.
    // `left` stays beside `look`, as the counter of the loop: a value of both would be made anew for each record, and say no more.
    pub fn read_record(&self, left: usize, look: Look) -> ControlFlow<bool, Look>
        requires { record_words * left + 4 < length self.now.ctl.now }
        ensures { RecordTells self.now.passed.file.now self.now.passed.map.now (length self.now.main.now) (length self.now.ptr.now)
            (rec_at self.now.ctl.now left) (down self.now.ctl.now left) (the_look look) result }
    {
        if look.inner == NONE_OPEN {
            self.read_frame(left, look)
        } else {
            self.read_handler(left, look)
        }
    }
}
