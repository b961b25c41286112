// Manual 4.31 to 4.34: the instructions on reals, done: the result worked out and tested, then words popped and its words pushed. Each gives the registers
// after it, or nothing where its result is not finite: then nothing is touched.
#![tactic(auto)]

ghost use Rattle.std.specs.Prelude.{◌≡◌, true, List, ◌⊎◌, ℕ, ◌+◌, ◌<◌, ◌≤◌, length, IfNone, IfSome};
ghost use Rattle.std.specs.Float.Ieee.Scale.{finite};
ghost use Rattle.model.specs.File as model;
ghost use Rattle.model.specs.Calls.{main_most};
ghost use Rattle.laws.specs.Cuts.{Topped};
ghost use Rattle.reals.specs.Given.{as_point};
ghost use Rattle.real_steps.specs.Does.{real_at, point_at, put_real, moved_on, Does, RealStepped, RealHere};

use model::Regs;
use reals::Point;

// On to the next place, with another top of the main stack.
fn goes_on(regs: Regs, next: usize, top: usize) -> Regs
    ensures { result ≡ moved_on regs next top }
{
    Regs {
        place: next,
        mtop: top,
        ..regs
    }
}

// The real whose high word is at i.
fn real_at(main: &[u32], i: usize) -> f64
    requires { i + 1 < length main.now }
    ensures { result ≡ real_at main.now i }
{
    let high = main[i];
    let low = main[i + 1];
    reals::real_of(high, low)
}

// The point whose lower real is there.
fn point_at(main: &[u32], i: usize) -> Point
    requires { i + 3 < length main.now }
    ensures { as_point result ≡ point_at main.now i }
{
    let across = real_at(main, i);
    let along = real_at(main, i + 2);
    Point { across, along }
}

// The words of a real, the high word at i.
fn put_real(main: &mut [u32], i: usize, x: f64)
    requires { (finite x ≡ true) × (i + 1 < length main.old) }
    ensures { main.new ≡ put_real main.old i x }
{
    main[i] = reals::high_word(x);
    main[i + 1] = reals::low_word(x);
}

// 53: no f64 is made of its words, so that every pattern stays as it is.
fn literal(file: &[u8], main: &mut [u32], regs: Regs, next: usize) -> Option<Regs>
    requires { (regs.place + 8 < length file.now) × (regs.mtop + 1 < length main.old) }
    ensures { RealStepped main.old regs next result main.new (model.ins_of file.now regs.place 53) }
{
    let top = regs.mtop;
    main[top] = code_file::operand4(file, regs.place);
    main[top + 1] = code_file::operand_low(file, regs.place);
    Some(goes_on(regs, next, top + 2))
}

// 150 to 153.
fn operation(main: &mut [u32], regs: Regs, next: usize, kind: u8) -> Option<Regs>
    requires { Topped regs.mtop main.old × (4 ≤ regs.mtop) × ((kind ≡ 150) ⊎ ((kind ≡ 151) ⊎ ((kind ≡ 152) ⊎ (kind ≡ 153)))) }
    ensures { (f : List ℕ) (p : ℕ) → RealStepped main.old regs next result main.new (model.ins_of f p kind) }
{
    let at = regs.mtop - 4;
    let x = reals::operate(kind, real_at(main, at), real_at(main, at + 2));
    if !x.is_finite() {
        return None;
    }
    apply_words::cut_to(main, at, regs.mtop);
    put_real(main, at, x);
    Some(goes_on(regs, next, at + 2))
}

// 155.
fn less(main: &mut [u32], regs: Regs, next: usize) -> Option<Regs>
    requires { Topped regs.mtop main.old × (4 ≤ regs.mtop) }
    ensures { RealStepped main.old regs next result main.new (model.basic model.real_less) }
{
    let at = regs.mtop - 4;
    let word = reals::less(real_at(main, at), real_at(main, at + 2));
    apply_words::cut_to(main, at, regs.mtop);
    main[at] = word;
    Some(goes_on(regs, next, at + 1))
}

// 156.
fn hoop(main: &mut [u32], regs: Regs, next: usize) -> Option<Regs>
    requires { Topped regs.mtop main.old × (10 ≤ regs.mtop) × (length main.old ≤ main_most) }
    ensures { RealStepped main.old regs next result main.new (model.basic model.hoop) }
{
    let at = regs.mtop - 10;
    let shift = point_at(main, at + 4);
    let scale = real_at(main, at + 8);
    let point = point_at(main, at) * scale + shift;
    if !point.is_finite() {
        return None;
    }
    apply_words::cut_to(main, at, regs.mtop);
    put_real(main, at, point.across);
    put_real(main, at + 2, point.along);
    Some(goes_on(regs, next, at + 4))
}

// The instruction on reals at the machine's place; body is the place behind its code.
pub fn step(file: &[u8], main: &mut [u32], regs: Regs, body: usize) -> Option<Regs>
    requires { RealHere file.now main.old regs × (body ≡ regs.place + 1) }
    ensures does { Does main.old regs (model.after file.now regs.place) result main.new (model.ins_at file.now regs.place) }
    ensures kept { IfNone result (main.new ≡ main.old) }
    ensures running { IfSome result (λ r. r.state ≡ regs.state) }
{
    let place = regs.place;
    let kind = file[place];
    match kind {
        53 => literal(file, main, regs, body + 8),
        155 => less(main, regs, body),
        156 => hoop(main, regs, body),
        _ => operation(main, regs, body, kind),
    }
}
