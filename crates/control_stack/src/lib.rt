// The five words of a control record, read and written by name (Manual 2.10 to 2.12).
#![tactic(auto)]

ghost use Rattle.std.specs.Prelude.{◌≡◌, ℕ, ◌+◌, ◌*◌, ◌/◌, ◌<◌, ◌≤◌, length};
ghost use Rattle.model.specs.Words.{word_at, cut};
ghost use Rattle.model.specs.Control.{frame_rec, handler_rec, as_handler, rec_at, put_rec, frame_of, record_words};
ghost use Rattle.control_stack.specs.Layout.{the_frame, the_handler, rec_of, IsFrame, FrameIs, FrameWords, HandlerWords, Numbered, Onto};

use model::RECORD;

// A frame's record.
#[derive(Clone, Copy, PartialEq, Eq)]
pub struct Frame {
    pub main_base: usize,
    pub ptr_base: usize,
    pub proc: usize,
    pub returns: usize, // the return place; 0 for the first frame
    pub caller: usize, // the caller's record
}

// A handler's record.
#[derive(Clone, Copy, PartialEq, Eq)]
pub struct Handler {
    pub opened: usize, // the place of its 160
    pub main_top: usize, // the tops then
    pub ptr_top: usize,
    pub frame: usize, // its frame's record
    pub outer: usize, // the next outer handler's record
}

// The words of a record in their order, here and below; each record has names of its own for them (Manual 2.11, 2.12).
impl From<[u32; RECORD]> for Frame {
    ghost from_gives = { λ words frame. IsFrame (rec_of words) frame };

    fn from(words: [u32; RECORD]) -> Frame {
        let [main_base, ptr_base, proc, returns, caller] = words;
        Frame {
            main_base: main_base as usize,
            ptr_base: ptr_base as usize,
            proc: proc as usize,
            returns: returns as usize,
            caller: caller as usize,
        }
    }
}

impl From<[u32; RECORD]> for Handler {
    ghost from_gives = { λ words handler. the_handler handler ≡ as_handler (rec_of words) };

    fn from(words: [u32; RECORD]) -> Handler {
        let [opened, main_top, ptr_top, frame, outer] = words;
        Handler {
            opened: opened as usize,
            main_top: main_top as usize,
            ptr_top: ptr_top as usize,
            frame: frame as usize,
            outer: outer as usize,
        }
    }
}

impl Frame {
    pub fn words(self) -> [u32; RECORD]
        requires { FrameWords self }
        ensures { rec_of result ≡ frame_rec (the_frame self) }
    {
        [
            self.main_base as u32,
            self.ptr_base as u32,
            self.proc as u32,
            self.returns as u32,
            self.caller as u32,
        ]
    }
}

impl Handler {
    pub fn words(self) -> [u32; RECORD]
        requires { HandlerWords self }
        ensures { rec_of result ≡ handler_rec (the_handler self) }
    {
        [
            self.opened as u32,
            self.main_top as u32,
            self.ptr_top as u32,
            self.frame as u32,
            self.outer as u32,
        ]
    }
}

// The record that starts at `at`.
fn record_at(ctl: &[u32], at: usize) -> [u32; RECORD]
    requires { at + record_words ≤ length ctl.now }
    ensures { (k : ℕ) → at ≡ record_words * k → rec_of result ≡ rec_at ctl.now k }
{
    <[u32; RECORD]>::try_from(&ctl[at..at + RECORD]).unwrap()
}

// The record on top of `left` others, a frame's. Apart from a handler's: of a frame it is promised, too, that its fields are words.
pub fn frame_at(ctl: &[u32], left: usize) -> Frame
    requires { record_words * left + 4 < length ctl.now }
    ensures { FrameIs ctl.now left result }
{
    Frame::from(record_at(ctl, RECORD * left))
}

// The record on top of `left` others, a handler's.
pub fn handler_at(ctl: &[u32], left: usize) -> Handler
    requires { record_words * left + 4 < length ctl.now }
    ensures { the_handler result ≡ as_handler (rec_at ctl.now left) }
{
    Handler::from(record_at(ctl, RECORD * left))
}

// Frame number `n`. Of the words only those that the caller looks at are loaded.
pub fn frame_of(ctl: &[u32], n: usize) -> Frame
    requires { Numbered ctl.now n }
    ensures { the_frame result ≡ frame_of ctl.now n }
{
    frame_at(ctl, n - 1)
}

// The next outer handler, from the handler's record that starts at `at`.
pub fn outer_at(ctl: &[u32], at: usize) -> usize
    requires { at + record_words ≤ length ctl.now }
    ensures { (k : ℕ) → at ≡ record_words * k → result ≡ (as_handler (rec_at ctl.now k)).outer }
{
    Handler::from(record_at(ctl, at)).outer
}

// A record on top of those under `top`. By `copy_from_slice` four instructions that do nothing are left.
pub fn put_record(ctl: &mut [u32], top: usize, words: [u32; RECORD])
    requires { Onto ctl.old top }
    ensures { ctl.new ≡ put_rec ctl.old (top / record_words) (rec_of words) }
{
    for (i, word) in words.iter().enumerate() {
        ctl[top + i] = *word;
    }
}

// The topmost record, which starts at `at`, goes, and is zeroed.
pub fn clear_record(ctl: &mut [u32], at: usize)
    requires { (at + record_words ≤ length ctl.old) × ((i : ℕ) → at + record_words ≤ i → word_at ctl.old i ≡ 0) }
    ensures { ctl.new ≡ cut at ctl.old }
{
    ctl[at..at + RECORD].fill(0);
}
