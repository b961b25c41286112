// Manual 4: what the instruction at the machine's place is about to do. Nothing is written here.
// The lists stay parameters of their own: in a struct that a caller lends, each access would load a slice's address anew.
// What is asked of lists and registers stands at each family's function: each asks for what it reads alone, and a type for all would ask more of callers.
#![tactic(auto)]

ghost use Rattle.std.specs.Prelude.{◌≡◌};
ghost use Rattle.plan_meaning.specs.Planned.{plan_at};
ghost use Rattle.plan.specs.Ready.{StepReady};

use model::{PROCS_MOST, Regs};
use plan_meaning::Plan;

// The plan of the instruction at the machine's place; table holds the procedures' heads. One match decides by the code's number, and each
// family's function matches its own codes again. The compiler makes one jump table of all these matches, as long as a family that shares an arm
// has codes that begin differently: of codes that begin alike it would first do what they share, and then ask for the code a second time. So these have
// an arm each, and the family's function gets the code as a constant. Neighbours share no arm: together they would be a test of a range.
// The last arm is that of 53, 150 to 153, 155 and 156: the file has passed and the state is sound, and so a code stands here. With these codes in arms of their own
// every step had four to eight instructions more, and with one number more in the arms than now each was slower: the compiler seems to take each arm for unlikely and
// to put the families' functions in too late. With a last arm for what is no code a step would have two more.
pub fn plan_at(
    file: &[u8],
    table: &[usize; PROCS_MOST],
    main: &[u32],
    ptr: &[u32],
    ctl: &[u32],
    heap: &[u32],
    regs: Regs,
) -> Plan
    requires { StepReady file.now table.now (record { regs = regs; main = main.now; ptr = ptr.now; ctl = ctl.now; heap = heap.now }) }
    ensures { result ≡ plan_at file.now (record { regs = regs; main = main.now; ptr = ptr.now; ctl = ctl.now; heap = heap.now }) }
{
    let place = regs.place;
    let kind = file[place];
    match kind {
        1 => plan_flow::jumps(file, regs, 1), // jumps
        3 => plan_flow::jumps(file, regs, 3),
        2 => plan_flow::on_false(file, main, regs, 2),
        5 => plan_flow::on_false(file, main, regs, 5),
        4 => plan_flow::on_true(file, main, regs, 4),
        6 => plan_flow::on_true(file, main, regs, 6),
        72 | 160 => plan_flow::opens(file, table, main, ptr, ctl, regs, kind),
        73 | 161 => plan_flow::closes(ctl, regs, kind),
        20 | 22 | 54 | 56 => plan_words::main_words(file, main, ctl, regs, kind),
        21 => plan_words::ptr_locals(file, ptr, ctl, regs, 21),
        23 => plan_words::ptr_locals(file, ptr, ctl, regs, 23),
        130 => plan_words::compares(main, regs, 130),
        195 => plan_words::compares(main, regs, 195),
        198 => plan_words::compares(main, regs, 198),
        201 => plan_words::compares(main, regs, 201),
        204 => plan_words::compares(main, regs, 204),
        140 => plan_words::operations(main, regs, 140),
        141 => plan_words::operations(main, regs, 141),
        142 => plan_words::operations(main, regs, 142),
        143 => plan_words::operations(main, regs, 143),
        145 => plan_words::operations(main, regs, 145),
        144 => plan_words::unaries(main, regs, 144),
        146 => plan_words::unaries(main, regs, 146),
        30 => plan_objects::plain_fields(file, main, ptr, heap, regs, 30),
        32 => plan_objects::plain_fields(file, main, ptr, heap, regs, 32),
        31 => plan_objects::ptr_fields(file, ptr, heap, regs, 31),
        33 => plan_objects::ptr_fields(file, ptr, heap, regs, 33),
        36 | 60 | 62 | 64 => plan_objects::takes(file, main, ptr, heap, regs, kind),
        57 => plan_objects::push_nil(regs),
        58 => plan_objects::push_root(heap, regs),
        59 => plan_objects::set_root(ptr, regs),
        131 => plan_objects::same_ptr(ptr, regs),
        80 => plan_vectors::make_words(main, heap, regs),
        81 => plan_vectors::make_pointers(main, heap, regs),
        82 => plan_elements::word_elements(main, ptr, heap, regs, 82),
        84 => plan_elements::word_elements(main, ptr, heap, regs, 84),
        0 | 83 => plan_elements::ptr_elements(main, ptr, heap, regs, 83), // 0 is no code: with it the table of jumps begins at 0
        85 => plan_elements::ptr_elements(main, ptr, heap, regs, 85),
        162 => Plan::Thrown,
        _ => Plan::Real(place + 1),
    }
}
