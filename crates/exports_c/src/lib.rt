// What C links: the crate exports' three calls under their C names (c/yalgovim.h), each with the same contract.
// A crate is a library or what C links, not both; so the three stand twice.
#![tactic(auto)]

ghost use Rattle.std.specs.Prelude.{◌≡◌};
ghost use Rattle.model.specs.Calls.{check_of, start_of, run_of};
ghost use Rattle.exports.specs.Replies.{replies, replies_to, checks, checks_to};

use exports::Reply;

#[unsafe(no_mangle)]
pub extern "C" fn yalgovim_check(file: &[u8], map: &mut [u16]) -> Reply
    ensures { checks result map.new
        ≡ checks_to (check_of file.now map.old) }
{
    exports::yalgovim_check(file, map)
}

#[unsafe(no_mangle)]
pub extern "C" fn yalgovim_start(
    file: &[u8],
    map: &mut [u16],
    main: &mut [u32],
    ptr: &mut [u32],
    ctl: &mut [u32],
    heap: &[u32],
    registers: &mut [u8],
) -> Reply
    ensures { replies result (record {
      file = file.now;
      map = map.new;
      main = main.new;
      ptr = ptr.new;
      ctl = ctl.new;
      heap = heap.now;
      bytes = registers.new;
    })
        ≡ replies_to (start_of (record {
          file = file.now;
          map = map.old;
          main = main.old;
          ptr = ptr.old;
          ctl = ctl.old;
          heap = heap.now;
          bytes = registers.old;
        })) }
{
    exports::yalgovim_start(file, map, main, ptr, ctl, heap, registers)
}

#[unsafe(no_mangle)]
pub extern "C" fn yalgovim_run(
    file: &[u8],
    map: &mut [u16],
    main: &mut [u32],
    ptr: &mut [u32],
    ctl: &mut [u32],
    heap: &mut [u32],
    registers: &mut [u8],
    budget: u32,
) -> Reply
    ensures { replies result (record {
      file = file.now;
      map = map.new;
      main = main.new;
      ptr = ptr.new;
      ctl = ctl.new;
      heap = heap.new;
      bytes = registers.new;
    })
        ≡ replies_to (run_of budget (record {
          file = file.now;
          map = map.old;
          main = main.old;
          ptr = ptr.old;
          ctl = ctl.old;
          heap = heap.old;
          bytes = registers.old;
        })) }
{
    exports::yalgovim_run(file, map, main, ptr, ctl, heap, registers, budget)
}
