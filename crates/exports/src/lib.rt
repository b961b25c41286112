// The calls that firmware reaches: check, start and run on numbers and lists, each list a parameter, as C lends it. An answer travels as four numbers.
// C calls them by the same names, which the crate exports_c defines.
#![tactic(auto)]

ghost use Rattle.std.specs.Prelude.{◌≡◌};
ghost use Rattle.model.specs.Calls.{check_of, start_of, run_of};
ghost use Rattle.exports.specs.Replies.{replies, replies_to, checks, checks_to};

use model::Answer;

// Which answer it is (Manual 7.1); a reply has it as a number, the same as the enum of c/yalgovim.h.
#[derive(Clone, Copy)]
enum Kind {
    Passed = 0,
    Ready = 1,
    Finished = 2,
    Spent = 3,
    Uncaught = 4,
    Refused = 5,
}

// Four numbers, since an enum with fields cannot be handed to C.
#[repr(C)]
#[derive(Clone, Copy)]
pub struct Reply {
    pub kind: u32, // a Kind
    pub number: u32, // the number of a refusal, the code of an uncaught exception, else 0
    pub place: usize, // the place of either, else 0
    pub steps: u32, // the steps done, of an answer to run that is no refusal, else 0
}

// An answer in numbers (Manual 7.1).
impl From<Answer> for Reply {
    ghost use Rattle.model.specs.Calls.{told_of};
    ghost use Rattle.exports.specs.Replies.{as_told};

    ghost from_gives = { λ answer reply. as_told reply ≡ told_of answer };

    #[tactic(auto, unfolding(model::specs::Calls::told_of))]
    fn from(answer: Answer) -> Reply {
        let (kind, number, place, steps) = match answer {
            Answer::Passed => (Kind::Passed, 0, 0, 0),
            Answer::Ready => (Kind::Ready, 0, 0, 0),
            Answer::Finished(steps) => (Kind::Finished, 0, 0, steps),
            Answer::Spent(steps) => (Kind::Spent, 0, 0, steps),
            Answer::Uncaught(code, place, steps) => (Kind::Uncaught, code, place, steps),
            Answer::Refused(number, place) => (Kind::Refused, number, place, 0),
        };
        Reply {
            kind: kind as u32,
            number,
            place,
            steps,
        }
    }
}

pub fn yalgovim_check(file: &[u8], map: &mut [u16]) -> Reply
    ensures { checks result map.new
        ≡ checks_to (check_of file.now map.old) }
{
    checker::check(file, map).into()
}

pub fn yalgovim_start(
    file: &[u8],
    map: &mut [u16],
    main: &mut [u32],
    ptr: &mut [u32],
    ctl: &mut [u32],
    heap: &[u32],
    registers: &mut [u8],
) -> Reply
    ensures { replies result (record {
      file = file.now;
      map = map.new;
      main = main.new;
      ptr = ptr.new;
      ctl = ctl.new;
      heap = heap.now;
      bytes = registers.new;
    })
        ≡ replies_to (start_of (record {
          file = file.now;
          map = map.old;
          main = main.old;
          ptr = ptr.old;
          ctl = ctl.old;
          heap = heap.now;
          bytes = registers.old;
        })) }
{
    calls::start(file, map, main, ptr, ctl, heap, registers).into()
}

pub fn yalgovim_run(
    file: &[u8],
    map: &mut [u16],
    main: &mut [u32],
    ptr: &mut [u32],
    ctl: &mut [u32],
    heap: &mut [u32],
    registers: &mut [u8],
    budget: u32,
) -> Reply
    ensures { replies result (record {
      file = file.now;
      map = map.new;
      main = main.new;
      ptr = ptr.new;
      ctl = ctl.new;
      heap = heap.new;
      bytes = registers.new;
    })
        ≡ replies_to (run_of budget (record {
          file = file.now;
          map = map.old;
          main = main.old;
          ptr = ptr.old;
          ctl = ctl.old;
          heap = heap.old;
          bytes = registers.old;
        })) }
{
    calls::run(file, map, main, ptr, ctl, heap, registers, budget).into()
}
