// Refusals 5 to 9: the flow of depths and open handlers through the instructions of a file, in the part of the map that is its.
// File and part stay parameters of their own, as in check_ways.
#![tactic(auto)]

ghost use Rattle.std.specs.Prelude.{◌≡◌, ◌+◌, ◌<◌, length};
ghost use Rattle.model.specs.File.{head_kind};
ghost use Rattle.check_rows.specs.Site.{Table};
ghost use Rattle.check_ways.specs.Ways.{Among, Bounds, Took};
ghost use Rattle.check_flow.specs.Flowing.{Begun, Flowed, end_in};

use check_rows::Procedure;
use model::{HEAD_KIND, HEAD_SIZE, Refusal, RefusedAt};

// The instruction of this kind at p. The place behind it.
fn take(
    file: &[u8],
    heads: &[usize],
    m: &mut [u16],
    procedure: Procedure,
    p: usize,
    kind: u8,
) -> Result<usize, Refusal>
    requires { Table file.now heads.now (length heads.now) × Among file.now m.old p procedure kind × (kind ≡ head_kind → ⊥) }
    ensures { Took file.now p m.old m.new result }
{
    match kind {
        1..=6 => {
            check_ways::jumps(file, m, procedure, p, kind)?;
            Ok(p + 3)
        }
        73 => {
            check_ways::leave(file, m, procedure, p)?;
            Ok(p + 1)
        }
        160 => {
            check_ways::open(
                file,
                m,
                procedure,
                p,
                procedure.head + code_file::operand(file, p),
            )?;
            Ok(p + 3)
        }
        161 => {
            check_ways::close(file, m, procedure, p)?;
            Ok(p + 1)
        }
        _ => check_ways::plain(file, heads, m, procedure, p, kind),
    }
}

// Where the procedure behind c heads ends, in a file of n bytes.
fn end_of(heads: &[usize], c: usize, n: usize) -> usize
    ensures { result ≡ end_in heads.now (length heads.now) c n }
{
    heads.get(c).copied().unwrap_or(n)
}

// What holds throughout the procedure with this head and this end.
fn procedure_of(file: &[u8], head: usize, end: usize) -> Procedure
    requires { head + 6 < length file.now }
    ensures { (result.head ≡ head) × (result.end ≡ end) × Bounds file.now head result }
{
    Procedure {
        head,
        end,
        x: file[head + 5] as usize,
        y: file[head + 6] as usize,
    }
}

// The instructions in file order, record by record. The number of procedures. A `while`: it steps by records.
pub fn flow(file: &[u8], m: &mut [u16], heads: &[usize]) -> Result<usize, RefusedAt>
    requires { Begun file.now m.old heads.now (length heads.now) }
    ensures { Flowed file.now m.new (length heads.now) result }
{
    let n = file.len();
    let mut p = 0;
    let mut c = 0;
    let mut procedure = procedure_of(file, 0, 0);
    while p < n {
        let kind = file[p];
        if kind == HEAD_KIND {
            c += 1;
            procedure = procedure_of(file, p, end_of(heads, c, n));
            p += HEAD_SIZE;
        } else {
            match take(file, heads, m, procedure, p, kind) {
                Ok(next) => p = next,
                Err(refusal) => return Err(refusal.at(p)),
            }
        }
    }
    Ok(heads.len())
}
