// Lists lent to start and run, and the bench's line for what they answer.
#![tactic(auto)]

mod line;

ghost use Rattle.std.specs.Prelude.{◌≡◌};
ghost use Rattle.model.specs.Calls.{answers, start_of, run_of};
ghost use Rattle.std.specs.Fn.{FnOnceReturnsAtMut};
ghost use Rattle.show.specs.declared.Lists.{Lists};
ghost use Rattle.show.specs.Calls.{IsBench, lent, begin_of, shown_words};

pub use line::Line;
use model::{Answer, FILE_MOST, REGISTER_BYTES};

// The lists that start and run work on (Manual 6.1), but for the file.
#[derive(Drop)]
pub struct Lists<'a> {
    pub map: &'a mut [u16],
    pub main: &'a mut [u32],
    pub ptr: &'a mut [u32],
    pub ctl: &'a mut [u32],
    pub heap: &'a mut [u32],
    pub registers: &'a mut [u8],
}

impl Lists<'_> {
    pub fn start(&mut self, file: &[u8]) -> Answer
        ensures { answers result (lent file.now self.new) ≡ start_of (lent file.now self.old) }
    {
        calls::start(
            file,
            self.map,
            self.main,
            self.ptr,
            self.ctl,
            &mut *self.heap,
            self.registers,
        )
    }

    pub fn run(&mut self, file: &[u8], budget: u32) -> Answer
        ensures { answers result (lent file.now self.new) ≡ run_of budget (lent file.now self.old) }
    {
        calls::run(
            file,
            self.map,
            self.main,
            self.ptr,
            self.ctl,
            self.heap,
            self.registers,
            budget,
        )
    }

    // Starts, and runs if that was ready.
    pub fn begin(&mut self, file: &[u8], budget: u32) -> Answer
        ensures { answers result (lent file.now self.new) ≡ begin_of budget (lent file.now self.old) }
    {
        match self.start(file) {
            Answer::Ready => self.run(file, budget),
            answer => answer,
        }
    }

    // The line for an answer, with the words below the main top; with none where the registers have another length.
    pub fn line(&self, answer: Answer) -> Line<'_>
        ensures told { result.answer ≡ answer }
        ensures words { result.main.now ≡ shown_words self.now }
    {
        let top = if self.registers.len() == REGISTER_BYTES {
            registers::regs_from(self.registers).mtop
        } else {
            0
        };
        Line {
            answer,
            main: &self.main[..top.min(self.main.len())],
        }
    }
}

// Works on the bench's lists (Manual 7.3): stacks of 256, 256 and 250 words, and an empty heap of 1,024.
pub fn on_bench<R, F: FnOnce(&mut Lists) -> R>(work: F) -> R
    requires { F.IsAlwaysCallable work }
    ensures { (given : Lists) × (left : Lists) × IsBench given × FnOnceReturnsAtMut F.FnOnce work given result left }
{
    let mut lists = Lists {
        map: &mut [0; 3 * FILE_MOST],
        main: &mut [0; 256],
        ptr: &mut [0; 256],
        ctl: &mut [0; 250],
        heap: &mut [0; 1024],
        registers: &mut [0; REGISTER_BYTES],
    };
    lists.heap[0] = 2;
    work(&mut lists)
}
