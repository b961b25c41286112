// What start and run test: refusals 1 to 9, 13, 10 and 11; then, for run, the state.
// The lists stay parameters of their own: in a struct of all the register list would be handed to `admit_with`, too, and each access would load a slice's address anew.
#![tactic(auto)]

ghost use Rattle.std.specs.Prelude.{◌≡◌, List, ℕ, replicate};
ghost use Rattle.model.specs.Choice.{Test};
ghost use Rattle.model.specs.File.{procs_most};
ghost use Rattle.call_lists.specs.Lists.{belong_list};
ghost use Rattle.call_tests.specs.Admit.{Asks, Tables, Started, AdmittedMarks};
ghost use Rattle.call_tests.specs.Tested.{TestedAs};

use audit_places::Passed;
use audit_records::Audited;
use model::{HEAP_MOST, PROCS_MOST, REGISTER_BYTES, Refusal, RefusedAt, Regs};

// A heap of so many words at most is short.
const FEW: usize = 2048;

// Marks for any heap.
const MANY: usize = HEAP_MOST;

// Refusals 1 to 9, 13, 10 and 11, for any tests for 13 whose outcome is `its`: start and run have each their own. They make them ahead, so that
// this function need not be handed the register list, which made the audit of deep stacks slower (docs/PERFORMANCE.md). Where there is no
// refusal, the table has the heads of so many procedures, and the heap's objects are marked.
fn admit_with(
    its: bool,
    file: &[u8],
    map: &mut [u16],
    table: &mut [usize; PROCS_MOST],
    marks: &mut [bool],
    main: &[u32],
    ptr: &[u32],
    ctl: &[u32],
    heap: &[u32],
) -> Result<usize, RefusedAt>
    requires { Tables table.old marks.old heap.now }
    ensures { (ts : List Test) (bytes : List ℕ) → Asks ts file.now its → AdmittedMarks ts (record {
      file = file.now;
      map = map.old;
      main = main.now;
      ptr = ptr.now;
      ctl = ctl.now;
      heap = heap.now;
      bytes = bytes;
    }) map.new table.new marks.new result }
{
    let procedures = checker::check_with(file, map, table)?;
    if !its {
        return Err(Refusal::OtherFile.at(0));
    }
    let head = code_file::head_at(file, 0);
    if !call_lists::lengths_right(head, main.len(), ptr.len(), ctl.len(), heap.len()) {
        return Err(Refusal::ListLengths.at(0));
    }
    audit_heap::audit_heap(heap, marks)?;
    Ok(procedures)
}

// The same for start, with marks of its own. A short heap is given a short table: to clear the long one takes longer than to test a short
// heap.
// Two branches, here and in `test_for_run`: a function with the table's length as a const parameter would have all these parameters and the contract once more.
pub fn admit(
    file: &[u8],
    map: &mut [u16],
    table: &mut [usize; PROCS_MOST],
    main: &[u32],
    ptr: &[u32],
    ctl: &[u32],
    heap: &[u32],
    bytes: &[u8],
) -> Result<usize, RefusedAt>
    requires { table.old ≡ replicate procs_most 0 }
    ensures { Started (record {
      file = file.now;
      map = map.old;
      main = main.now;
      ptr = ptr.now;
      ctl = ctl.now;
      heap = heap.now;
      bytes = bytes.now;
    }) map.new table.new result }
{
    let its = bytes.len() == REGISTER_BYTES; // refusal 13 in start: the length alone
    if heap.len() <= FEW {
        let mut few = [false; FEW];
        return admit_with(its, file, map, table, &mut few, main, ptr, ctl, heap);
    }
    let mut marks = [false; MANY];
    admit_with(its, file, map, table, &mut marks, main, ptr, ctl, heap)
}

// What the tests of a run find where there is no refusal: the registers of a sound state, and how many procedures its file has.
#[derive(Clone, Copy)]
pub struct Sound {
    pub procedures: usize,
    pub regs: Regs,
}

// All that run tests; `its` says whether its tests for 13 hold.
fn test_with<'a>(
    its: bool,
    file: &'a [u8],
    map: &mut [u16],
    table: &mut [usize; PROCS_MOST],
    marks: &mut [bool],
    main: &'a [u32],
    ptr: &'a [u32],
    ctl: &'a [u32],
    heap: &[u32],
    bytes: &[u8],
) -> Result<Sound, RefusedAt>
    requires { Tables table.old marks.old heap.now × Asks (belong_list file.now bytes.now) file.now its }
    ensures { TestedAs (record {
      file = file.now;
      map = map.old;
      main = main.now;
      ptr = ptr.now;
      ctl = ctl.now;
      heap = heap.now;
      bytes = bytes.now;
    }) map.new table.new result }
{
    let procedures = admit_with(its, file, map, table, marks, main, ptr, ctl, heap)?;
    let regs = registers::regs_from(bytes);
    let passed = Passed {
        file,
        map,
        heads: table,
        count: procedures,
    };
    let audited = Audited {
        passed,
        main,
        ptr,
        ctl,
    };
    if audit_state::sound_state(&audited, marks, regs) {
        Ok(Sound { procedures, regs })
    } else {
        Err(Refusal::State.at(0))
    }
}

// The same with marks of its own.
pub fn test_for_run(
    file: &[u8],
    map: &mut [u16],
    table: &mut [usize; PROCS_MOST],
    main: &[u32],
    ptr: &[u32],
    ctl: &[u32],
    heap: &[u32],
    bytes: &[u8],
) -> Result<Sound, RefusedAt>
    requires { table.old ≡ replicate procs_most 0 }
    ensures { TestedAs (record {
      file = file.now;
      map = map.old;
      main = main.now;
      ptr = ptr.now;
      ctl = ctl.now;
      heap = heap.now;
      bytes = bytes.now;
    }) map.new table.new result }
{
    let its = call_lists::belongs(file, bytes);
    if heap.len() <= FEW {
        let mut few = [false; FEW];
        return test_with(its, file, map, table, &mut few, main, ptr, ctl, heap, bytes);
    }
    let mut marks = [false; MANY];
    test_with(
        its, file, map, table, &mut marks, main, ptr, ctl, heap, bytes,
    )
}
