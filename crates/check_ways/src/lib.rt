// Refusals 5 to 9 for one instruction: what it leads to, a function for each way, in the part of the map that is the file's. The file and that
// part stay parameters of their own: behind a struct each access would load the slice's address anew.
#![tactic(auto)]

ghost use Rattle.std.specs.Prelude.{◌≡◌, ◌+◌, ◌*◌, ◌<◌, ◌≤◌, ◌∷◌, [], length};
ghost use Rattle.model.specs.Choice.{when◌then◌else◌};
ghost use Rattle.model.specs.File.{file_most};
ghost use Rattle.model.specs.Refusals.{fault_of};
ghost use Rattle.laws_file.specs.Kinds.{NoneOf};
ghost use Rattle.check_rows.specs.Shape.{Jump, Open, Close, Return};
ghost use Rattle.check_rows.specs.Site.{Table};
ghost use Rattle.check_rows.specs.Kinds.{NoJump, elsewhere};
ghost use Rattle.check_rows.specs.Tests.{as_state};
ghost use Rattle.check_ways.specs.Takes.{own_in, pass_one_in, pass_all_in, take_in};
ghost use Rattle.check_ways.specs.Faults.{take_ans, StateIs, ReachedState, OuterIs, HandlerIn, Fitting};
ghost use Rattle.check_ways.specs.Ways.{leads_to, branch_way, Led, Among, Took};

use check_rows::{Instruction, Procedure, State};
use check_scan::UNREACHED_DEPTH;
use model::{NONE, NONE_OPEN, Refusal};

// The three numbers at q.
fn state_in(m: &[u16], q: usize) -> State
    requires { (3 * q + 2 < length m.now) × (q < file_most) }
    ensures { StateIs m.now q result }
{
    let i = 3 * q;
    State {
        main: m[i] as usize,
        ptr: m[i + 1] as usize,
        inner: m[i + 2] as usize,
    }
}

// The state at p, if one has come there. Refusal 6.
fn reached(m: &[u16], p: usize) -> Result<State, Refusal>
    requires { (3 * p + 2 < length m.now) × (p < file_most) }
    ensures { ReachedState m.now p result }
{
    let s = state_in(m, p);
    if s.main < UNREACHED_DEPTH {
        Ok(s)
    } else {
        Err(Refusal::Reach)
    }
}

// An instruction of the procedure starts at q.
fn own(m: &[u16], procedure: Procedure, q: usize) -> bool
    requires { (3 * procedure.end ≤ length m.now) × (procedure.end ≤ file_most) }
    ensures { result ≡ own_in m.now procedure.head procedure.end q }
{
    procedure.head < q && (q < procedure.end && m[3 * q] != NONE)
}

// The state at the innermost open handler.
fn outer_of(m: &[u16], s: State) -> State
    requires { HandlerIn m.now s.inner }
    ensures { OuterIs m.now (as_state s) result }
{
    let inner = s.inner;
    if inner == NONE_OPEN {
        return State {
            main: 0,
            ptr: 0,
            inner: NONE_OPEN,
        };
    }
    state_in(m, inner)
}

// A state passed to q: it is the first there, or the same as the one there. Refusal 9.
fn pass_one(m: &mut [u16], q: usize, s: State) -> Result<(), Refusal>
    requires { Fitting m.old q (as_state s) }
    ensures { take_ans (fault_of result) m.new ≡ pass_one_in m.old q (as_state s) }
{
    let t = state_in(m, q);
    if UNREACHED_DEPTH <= t.main {
        check_scan::put(m, q, s.main as u16, s.ptr as u16, s.inner as u16);
        return Ok(());
    }
    if t == s {
        Ok(())
    } else {
        Err(Refusal::Meeting)
    }
}

// A state passed to the next instruction, then one to a target.
fn pass_both(m: &mut [u16], next: usize, s: State, target: usize, t: State) -> Result<(), Refusal>
    requires { Fitting m.old next (as_state s) × Fitting m.old target (as_state t) }
    ensures { take_ans (fault_of result) m.new ≡ pass_all_in ((next, as_state s) ∷ (target, as_state t) ∷ []) m.old }
{
    pass_one(m, next, s)?;
    pass_one(m, target, t)
}

// 1 and 3: to the target alone. The depths stay, so that nothing is asked of them.
fn jump(
    file: &[u8],
    m: &mut [u16],
    procedure: Procedure,
    p: usize,
    target: usize,
) -> Result<(), Refusal>
    requires { Led file.now m.old p 3 procedure (leads_to Jump 0 target) }
    ensures { take_ans (fault_of result) m.new ≡ take_in file.now p m.old }
{
    if !own(m, procedure, target) {
        return Err(Refusal::Target);
    }
    let s = reached(m, p)?;
    pass_one(m, target, s)
}

// The state at the target of a branch: 5 and 6 keep the word there.
fn at_target(keep: bool, before: State, popped: State) -> State
    ensures { as_state result ≡ (when keep then as_state before else as_state popped) }
{
    if keep { before } else { popped }
}

// 2, 4, 5 and 6: a word is popped, and the state passes to the next instruction and to the target.
fn branch(
    file: &[u8],
    m: &mut [u16],
    procedure: Procedure,
    p: usize,
    target: usize,
    keep: bool,
) -> Result<(), Refusal>
    requires { Led file.now m.old p 3 procedure (leads_to (branch_way keep) 1 target) }
    ensures { take_ans (fault_of result) m.new ≡ take_in file.now p m.old }
{
    let next = p + 3;
    if !own(m, procedure, target) {
        return Err(Refusal::Target);
    }
    let s = reached(m, p)?;
    if procedure.end <= next {
        return Err(Refusal::Reach);
    }
    let o = outer_of(m, s);
    let at = Instruction {
        place: p,
        state: s,
        outer: o,
        procedure,
    };
    if !at.depths_ok(check_rows::effect(1, 0, 0, 0)) {
        return Err(Refusal::Depths);
    }
    let then = State {
        main: s.main - 1,
        ptr: s.ptr,
        inner: s.inner,
    };
    pass_both(m, next, then, target, at_target(keep, s, then))
}

// 160: the handler gets the depths before it and one main word more.
pub fn open(
    file: &[u8],
    m: &mut [u16],
    procedure: Procedure,
    p: usize,
    target: usize,
) -> Result<(), Refusal>
    requires { Led file.now m.old p 3 procedure (leads_to Open 0 target) }
    ensures { take_ans (fault_of result) m.new ≡ take_in file.now p m.old }
{
    let next = p + 3;
    if !own(m, procedure, target) {
        return Err(Refusal::Target);
    }
    if target <= p {
        return Err(Refusal::Target);
    }
    let s = reached(m, p)?;
    if procedure.end <= next {
        return Err(Refusal::Reach);
    }
    if procedure.x <= s.main {
        return Err(Refusal::Depths);
    }
    let then = State {
        main: s.main,
        ptr: s.ptr,
        inner: p,
    };
    let caught = State {
        main: s.main + 1,
        ptr: s.ptr,
        inner: s.inner,
    };
    pass_both(m, next, then, target, caught)
}

// 161: the innermost handler is closed.
pub fn close(file: &[u8], m: &mut [u16], procedure: Procedure, p: usize) -> Result<(), Refusal>
    requires { Led file.now m.old p 1 procedure (leads_to Close 0 0) }
    ensures { take_ans (fault_of result) m.new ≡ take_in file.now p m.old }
{
    let next = p + 1;
    let s = reached(m, p)?;
    if procedure.end <= next {
        return Err(Refusal::Reach);
    }
    if s.inner == NONE_OPEN {
        return Err(Refusal::Handlers);
    }
    let o = outer_of(m, s);
    pass_one(
        m,
        next,
        State {
            main: s.main,
            ptr: s.ptr,
            inner: o.inner,
        },
    )
}

// 73: the state passes nowhere.
pub fn leave(file: &[u8], m: &[u16], procedure: Procedure, p: usize) -> Result<(), Refusal>
    requires { Led file.now m.now p 1 procedure (leads_to Return 0 0) }
    ensures { take_ans (fault_of result) m.now ≡ take_in file.now p m.now }
{
    let h = code_file::head_at(file, procedure.head);
    let s = reached(m, p)?;
    if s.main != h.r {
        return Err(Refusal::Handlers);
    }
    if s.ptr != h.s {
        return Err(Refusal::Handlers);
    }
    if s.inner != NONE_OPEN {
        return Err(Refusal::Handlers);
    }
    Ok(())
}

// 1 to 6. 0 is no code; in an arm it makes the compiler lay out the jumps better (docs/PERFORMANCE.md).
pub fn jumps(
    file: &[u8],
    m: &mut [u16],
    procedure: Procedure,
    p: usize,
    kind: u8,
) -> Result<(), Refusal>
    requires { Among file.now m.old p procedure kind × (1 ≤ kind) × (kind ≤ 6) }
    ensures { take_ans (fault_of result) m.new ≡ take_in file.now p m.old }
{
    match kind {
        1 => jump(file, m, procedure, p, code_file::forwards(file, p)),
        3 => jump(file, m, procedure, p, code_file::backwards(file, p)),
        2 => branch(file, m, procedure, p, code_file::forwards(file, p), false),
        0 | 4 => branch(file, m, procedure, p, code_file::backwards(file, p), false),
        _ => branch(file, m, procedure, p, code_file::forwards(file, p), true),
    }
}

// An instruction that leads to the next one alone, or nowhere. The place behind it.
pub fn plain(
    file: &[u8],
    heads: &[usize],
    m: &mut [u16],
    procedure: Procedure,
    p: usize,
    kind: u8,
) -> Result<usize, Refusal>
    requires { Table file.now heads.now (length heads.now) × Among file.now m.old p procedure kind × NoJump kind × NoneOf elsewhere kind }
    ensures { Took file.now p m.old m.new result }
{
    let s = state_in(m, p);
    let o = outer_of(m, s);
    let at = Instruction {
        place: p,
        state: s,
        outer: o,
        procedure,
    };
    let to = at.comes_to(file, heads, kind)?;
    if to.goes {
        pass_one(
            m,
            to.next,
            State {
                main: to.depths.main,
                ptr: to.depths.ptr,
                inner: s.inner,
            },
        )?;
    }
    Ok(to.next)
}
