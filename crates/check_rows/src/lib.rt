// What an instruction makes of the state before it that leads to the next one alone, or nowhere: the tests of 5, 6 and 7, and the depths
// behind it. Each has a row of its own with its length, pops and pushes: the compiler makes of each row only the tests that it needs.
#![tactic(auto)]

ghost use Rattle.std.specs.Prelude.{◌≡◌, List, ◌⊎◌, ℕ, suc, ◌+◌, ◌<◌, ◌≤◌, length};
ghost use Rattle.model.specs.File as model;
ghost use Rattle.laws_file.specs.Kinds.{OneOf, NoneOf};
ghost use Rattle.check_rows.specs.Shape.{shape_of, Next, Raise};
ghost use Rattle.check_rows.specs.Site.{Table, Site};
ghost use Rattle.check_rows.specs.Kinds.{NoJump, elsewhere, pops_reals};
ghost use Rattle.check_rows.specs.Tests.{as_state, stack_ok, stacks_ok};
ghost use Rattle.check_rows.specs.Rows.{row, row_shape, plainly, Bounded, PushesFew};
ghost use Rattle.model.specs.File.{file_most};
ghost use Rattle.check_scan.specs.Marks.{unreached};

use check_scan::UNREACHED_DEPTH;
use model::Refusal;

// The depths before an instruction, and the place of the innermost open 160 or 65,535: as the map has it, so that nothing is taken apart
// and put together again where a state passes on.
#[derive(Clone, Copy, PartialEq, Eq)]
pub struct State {
    pub main: usize, // 65,534 or more where no state has come yet: asked in its turn, behind refusal 5
    pub ptr: usize,
    pub inner: usize,
}

// What holds throughout a procedure: where its head stands, where it ends, and its greatest depths.
#[derive(Clone, Copy)]
pub struct Procedure {
    pub head: usize,
    pub end: usize,
    pub x: usize,
    pub y: usize,
}

// What an instruction pops and pushes.
#[derive(Clone, Copy)]
pub struct Row {
    pub popm: usize, // words popped from the main stack
    pub popp: usize, // and from the pointer stack
    pub pushm: usize, // words pushed on the main stack
    pub pushp: usize,
    pub wordm: usize, // main words that must be left after the pops: s + 1 for a frame word s, else 0
    pub wordp: usize,
}

// An instruction as the checker comes to it: where it starts, the state before it, and the state at the innermost open 160.
#[derive(Clone, Copy)]
pub struct Instruction {
    pub place: usize,
    pub state: State,
    pub outer: State,
    pub procedure: Procedure,
    ghost low: { place < file_most },
    ghost bounded: { Bounded (as_state state) (as_state outer) procedure },
}

// The depths behind an instruction.
#[derive(Clone, Copy)]
pub struct Depths {
    pub main: usize,
    pub ptr: usize,
}

// What an instruction comes to that is not refused: the place behind it, the depths there, and whether the state passes on. No Option: 162's depths
// are told, too.
#[derive(Clone, Copy)]
pub struct Onward {
    pub next: usize,
    pub depths: Depths,
    pub goes: bool,
}

// A row that names no frame word.
pub fn effect(popm: usize, popp: usize, pushm: usize, pushp: usize) -> Row
    ensures { result ≡ row popm popp pushm pushp 0 0 }
{
    frame(popm, popp, pushm, pushp, 0, 0)
}

fn frame(popm: usize, popp: usize, pushm: usize, pushp: usize, wordm: usize, wordp: usize) -> Row
    ensures { result ≡ row popm popp pushm pushp wordm wordp }
{
    Row {
        popm,
        popp,
        pushm,
        pushp,
        wordm,
        wordp,
    }
}

// Refusal 7 on one stack. A depth that does not rise stays within the greatest.
fn stack_ok(have: usize, floor: usize, pop: usize, push: usize, word: usize, most: usize) -> bool
    requires { (floor ≤ have) × (have ≤ most) × (most < 256) × (push < 256) }
    ensures { result ≡ stack_ok have floor pop push word most }
{
    if have - floor < pop {
        return false;
    }
    let rest = have - pop;
    word <= rest && (push <= pop || rest + push <= most)
}

impl Instruction {
    // Refusal 7, of a state that is known.
    pub fn depths_ok(self, row: Row) -> bool
        requires { PushesFew row × (self.state.main < unreached) }
        ensures { result ≡ stacks_ok (row_shape Next row) (as_state self.state) (as_state self.outer) self.procedure.x self.procedure.y }
    {
        stack_ok(
            self.state.main,
            self.outer.main,
            row.popm,
            row.pushm,
            row.wordm,
            self.procedure.x,
        ) && stack_ok(
            self.state.ptr,
            self.outer.ptr,
            row.popp,
            row.pushp,
            row.wordp,
            self.procedure.y,
        )
    }

    // The state passes to the instruction at next.
    fn moves(self, next: usize, row: Row) -> Result<Onward, Refusal>
        requires { PushesFew row }
        ensures { result ≡ plainly (as_state self.state) (as_state self.outer) self.procedure next (row_shape Next row) }
    {
        if UNREACHED_DEPTH <= self.state.main {
            return Err(Refusal::Reach);
        }
        if self.procedure.end <= next {
            return Err(Refusal::Reach);
        }
        if self.depths_ok(row) {
            let main = self.state.main - row.popm + row.pushm;
            let ptr = self.state.ptr - row.popp + row.pushp;
            return Ok(Onward {
                next,
                depths: Depths { main, ptr },
                goes: true,
            });
        }
        Err(Refusal::Depths)
    }

    // The same with no frame word, for an instruction of so many bytes.
    fn step(
        self,
        size: usize,
        popm: usize,
        popp: usize,
        pushm: usize,
        pushp: usize,
    ) -> Result<Onward, Refusal>
        requires { (size < 256) × (pushm < 256) × (pushp < 256) }
        ensures { result ≡ plainly (as_state self.state) (as_state self.outer) self.procedure (self.place + size) (row_shape Next (row popm popp pushm pushp 0 0)) }
    {
        self.moves(self.place + size, effect(popm, popp, pushm, pushp))
    }

    // 162: a word is popped, and the state passes nowhere.
    fn raises(self) -> Result<Onward, Refusal>
        ensures { result ≡ plainly (as_state self.state) (as_state self.outer) self.procedure (self.place + 1) (row_shape Raise (row 1 0 0 0 0 0)) }
    {
        if UNREACHED_DEPTH <= self.state.main {
            return Err(Refusal::Reach);
        }
        if self.depths_ok(effect(1, 0, 0, 0)) {
            let main = self.state.main - 1;
            let ptr = self.state.ptr;
            return Ok(Onward {
                next: self.place + 1,
                depths: Depths { main, ptr },
                goes: false,
            });
        }
        Err(Refusal::Depths)
    }

    // 20 to 23
    fn locals(self, file: &[u8], kind: u8) -> Result<Onward, Refusal>
        requires { (self.place + 2 < length file.now) × (20 ≤ kind) × (kind ≤ 23) }
        ensures { result ≡ plainly (as_state self.state) (as_state self.outer) self.procedure (self.place + 3) (shape_of file.now self.place (model.ins_of file.now self.place kind)) }
    {
        let next = self.place + 3;
        let word = code_file::operand(file, self.place) + 1;
        match kind {
            20 => self.moves(next, frame(0, 0, 1, 0, word, 0)),
            22 => self.moves(next, frame(1, 0, 0, 0, word, 0)),
            21 => self.moves(next, frame(0, 0, 0, 1, 0, word)),
            _ => self.moves(next, frame(0, 1, 0, 0, 0, word)),
        }
    }

    // 36, 60, 62, 64
    fn blocks(self, file: &[u8], kind: u8) -> Result<Onward, Refusal>
        requires { (self.place + 4 < length file.now) × ((kind ≡ 36) ⊎ ((kind ≡ 60) ⊎ ((kind ≡ 62) ⊎ (kind ≡ 64)))) }
        ensures { result ≡ plainly (as_state self.state) (as_state self.outer) self.procedure (self.place + 5) (shape_of file.now self.place (model.ins_of file.now self.place kind)) }
    {
        let k = code_file::operand(file, self.place);
        let n = code_file::operand2(file, self.place);
        match kind {
            36 => self.step(5, k, n, 0, 1),
            60 => self.step(5, 1 + k, n, 1, 0),
            62 => self.step(5, k, 1 + n, 0, 1),
            _ => self.step(5, k, n, 0, 0),
        }
    }

    // 72
    fn calls(self, file: &[u8], heads: &[usize]) -> Result<Onward, Refusal>
        requires { Table file.now heads.now (length heads.now) × (self.place + 2 < length file.now) }
        ensures { result ≡ plainly (as_state self.state) (as_state self.outer) self.procedure (self.place + 3) (shape_of file.now self.place (model.call (model.operand file.now self.place))) }
    {
        let n = code_file::operand(file, self.place);
        if heads.len() <= n {
            return Err(Refusal::Target);
        }
        let head = code_file::head_at(file, heads[n]);
        self.step(3, head.a, head.b, head.r, head.s)
    }

    // 150 to 153, 155 and 156
    fn reals(self, kind: u8) -> Result<Onward, Refusal>
        requires { OneOf pops_reals kind }
        ensures { (f : List ℕ) → result
            ≡ plainly (as_state self.state) (as_state self.outer) self.procedure (self.place + suc (model.body_of kind)) (shape_of f self.place (model.ins_of f self.place kind)) }
    {
        match kind {
            155 => self.step(1, 4, 0, 1, 0),
            156 => self.step(1, 10, 0, 4, 0),
            _ => self.step(1, 4, 0, 2, 0),
        }
    }

    // By the kind; one that has no row here pops reals: with an arm for each of these the compiler kept other things in registers, and every
    // instruction of a file took two or three machine instructions more.
    // 57 and 58, and 140 to 143, share no arm, though their rows are the same: neighbours together would be a test of a range.
    pub fn comes_to(self, file: &[u8], heads: &[usize], kind: u8) -> Result<Onward, Refusal>
        requires { Table file.now heads.now (length heads.now) × Site file.now self.place × (model.byte_at file.now self.place ≡ kind) × NoJump kind × NoneOf elsewhere kind }
        ensures { result ≡ plainly (as_state self.state) (as_state self.outer) self.procedure (model.after file.now self.place) (shape_of file.now self.place (model.ins_at file.now self.place)) }
    {
        match kind {
            20..=23 => self.locals(file, kind),
            30 => self.step(3, 0, 1, 1, 0),
            31 => self.step(3, 0, 1, 0, 1),
            32 => self.step(3, 1, 1, 0, 0),
            33 => self.step(3, 0, 2, 0, 0),
            36 | 60 | 62 | 64 => self.blocks(file, kind),
            54 => self.step(2, 0, 0, 1, 0),
            56 => self.step(5, 0, 0, 1, 0),
            57 => self.step(1, 0, 0, 0, 1),
            58 => self.step(1, 0, 0, 0, 1),
            59 => self.step(1, 0, 1, 0, 0),
            72 => self.calls(file, heads),
            80 => self.step(1, 3, 0, 0, 1),
            81 => self.step(1, 2, 1, 0, 1),
            82 => self.step(1, 1, 1, 1, 0),
            83 => self.step(1, 1, 1, 0, 1),
            84 => self.step(1, 2, 1, 0, 0),
            85 => self.step(1, 1, 2, 0, 0),
            131 => self.step(1, 0, 2, 1, 0),
            144 | 146 => self.step(1, 1, 0, 1, 0),
            130 | 140 | 142 | 145 | 195 | 198 | 201 | 204 => self.step(1, 2, 0, 1, 0),
            141 | 143 => self.step(1, 2, 0, 1, 0),
            53 => self.step(9, 0, 0, 2, 0),
            162 => self.raises(),
            _ => self.reals(kind),
        }
    }
}
