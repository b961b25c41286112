// start and run over lent lists, each a parameter, as exports has it from C.
#![tactic(auto)]

ghost use Rattle.std.specs.Prelude.{◌≡◌};
ghost use Rattle.model.specs.Calls.{answers, start_of, run_of};

use model::{Answer, HEAD_SIZE, PROCS_MOST, RECORD, Regs};

// At the first instruction of procedure 0, in its frame, with empty stacks.
const FIRST: Regs = Regs {
    place: HEAD_SIZE,
    frame: 1,
    handler: 0,
    mtop: 0,
    ptop: 0,
    ctop: RECORD,
    state: 0,
};

// Start's tests, then the state at the first instruction of procedure 0, with the file's sums.
pub fn start(
    file: &[u8],
    map: &mut [u16],
    main: &mut [u32],
    ptr: &mut [u32],
    ctl: &mut [u32],
    heap: &[u32],
    bytes: &mut [u8],
) -> Answer
    ensures { answers result (record {
      file = file.now;
      map = map.new;
      main = main.new;
      ptr = ptr.new;
      ctl = ctl.new;
      heap = heap.now;
      bytes = bytes.new;
    })
        ≡ start_of (record {
          file = file.now;
          map = map.old;
          main = main.old;
          ptr = ptr.old;
          ctl = ctl.old;
          heap = heap.now;
          bytes = bytes.old;
        }) }
{
    let mut table = [0usize; PROCS_MOST];
    if let Err(refused) = call_tests::admit(file, map, &mut table, main, ptr, ctl, heap, bytes) {
        return Answer::from(refused);
    }
    main.fill(0);
    ptr.fill(0);
    ctl.fill(0);
    registers::put_regs(bytes, FIRST);
    registers::put_sums(bytes, file_sums::sums_of(file));
    Answer::Ready
}

// Run's tests, then the run. The sums stay in the registers' bytes: no step has to do with them.
pub fn run(
    file: &[u8],
    map: &mut [u16],
    main: &mut [u32],
    ptr: &mut [u32],
    ctl: &mut [u32],
    heap: &mut [u32],
    bytes: &mut [u8],
    budget: u32,
) -> Answer
    ensures { answers result (record {
      file = file.now;
      map = map.new;
      main = main.new;
      ptr = ptr.new;
      ctl = ctl.new;
      heap = heap.new;
      bytes = bytes.new;
    })
        ≡ run_of budget (record {
          file = file.now;
          map = map.old;
          main = main.old;
          ptr = ptr.old;
          ctl = ctl.old;
          heap = heap.old;
          bytes = bytes.old;
        }) }
{
    let mut table = [0usize; PROCS_MOST];
    match call_tests::test_for_run(file, map, &mut table, main, ptr, ctl, heap, bytes) {
        Err(refused) => Answer::from(refused),
        Ok(sound) => {
            let ended = run::run_on(file, &table, main, ptr, ctl, heap, sound.regs, budget);
            registers::put_regs(bytes, ended.regs);
            ended.answer
        }
    }
}
