// Refusals 3 and 4: the records and the heads of a file, in the part of the map that is its.
#![tactic(auto)]

ghost use Rattle.std.specs.Prelude.{◌≡◌, ◌+◌, ◌*◌, ◌<◌, ◌≤◌, length, replicate, set};
ghost use Rattle.model.specs.File as model;
ghost use Rattle.model.specs.Checker.{state, none};
ghost use Rattle.check_scan.specs.Marks.{unreached, put_in};
ghost use Rattle.check_scan.specs.Scanning.{Scanned, broken_at, list_in, last_in};
ghost use Rattle.check_scan.specs.Heading.{head_ok, number_ok, within, starts_at, ScanMarked, Headed};
ghost use Rattle.model.specs.File.{file_most, head_size, procs_most};

use code_file::Head;
use model::{HEAD_KIND, HEAD_SIZE, NONE, PROCS_MOST, Refusal, RefusedAt};

// An instruction starts here that no state has reached yet; depths are at most 255. A number, since states lie in the lent map, the only memory for them.
const UNREACHED: u16 = 65534;

pub const UNREACHED_DEPTH: usize = UNREACHED as usize;

const UNKNOWN: usize = 255;

// What the scan of a file finds whose records are whole.
#[derive(Clone, Copy)]
pub struct Found {
    pub heads: usize, // their number
    pub later: usize, // the place of the 65th, if there is one: their number tells that, and an Option would say it again
}

// An instruction with b bytes behind its kind starts at p: it is marked. The place behind it.
fn mark(m: &mut [u16], p: usize, b: usize) -> usize
    requires { (3 * p < length m.old) × (p < file_most) × (b < 256) }
    ensures map { m.new ≡ set m.old (3 * p) unreached }
    ensures place { result ≡ p + 1 + b }
{
    m[3 * p] = UNREACHED;
    p + 1 + b
}

// Head k stands at p: the table has room for 64, and the place of the 65th is kept by itself.
fn list(table: &mut [usize; PROCS_MOST], k: usize, last: usize, p: usize) -> usize
    ensures heads { table.new ≡ list_in table.old k p }
    ensures later { result ≡ last_in last k p }
{
    if k < PROCS_MOST {
        table[k] = p;
        return last;
    }
    if k == PROCS_MOST { p } else { last }
}

// Refusal 3: the records in file order, the instructions among them marked, the heads listed. Each common length has a branch of its own:
// the processor foresees where the next record starts, and does not wait for the length. The tests are mostly `<`: of equal tests the
// compiler would make one jump by a table. Only the last record can be cut short, so that is asked once, behind the loop. A `while`: it
// steps by records.
pub fn scan(file: &[u8], m: &mut [u16], table: &mut [usize; PROCS_MOST]) -> Result<Found, RefusedAt>
    requires { (1 ≤ length file.now) × (length file.now ≤ file_most) × (length m.old ≡ 3 * length file.now) × (table.old ≡ replicate procs_most 0) }
    ensures { Scanned file.now m.old m.new table.new result }
{
    let n = file.len();
    if file[0] != HEAD_KIND {
        return Err(Refusal::Records.at(0));
    }
    let bodies = code_file::bodies();
    let mut p = 0;
    let mut k = 0;
    let mut last = 0;
    let mut from = 0;
    while p < n {
        from = p;
        let kind = file[p];
        let b = code_file::body(&bodies, kind);
        if b < 1 {
            p = mark(m, p, 0);
        } else if b < 2 {
            p = mark(m, p, 1);
        } else if b < 3 {
            p = mark(m, p, 2);
        } else if b == 4 {
            p = mark(m, p, 4);
        } else if kind == HEAD_KIND {
            last = list(table, k, last, p);
            k += 1;
            p += HEAD_SIZE;
        } else if b == UNKNOWN {
            return Err(Refusal::Records.at(p));
        } else {
            p = mark(m, p, b);
        }
    }
    if n < p {
        return Err(Refusal::Records.at(from));
    }
    Ok(Found {
        heads: k,
        later: last,
    })
}

// At most 64 procedures, and procedure 0 has no parameters.
fn number_right(head: Head, k: usize) -> bool
    ensures { result ≡ number_ok head k }
{
    k < PROCS_MOST && (k != 0 || head.a == 0 && head.b == 0)
}

// Parameters and results of a stack lie within its greatest depth.
fn within(parameters: usize, results: usize, most: usize) -> bool
    ensures { result ≡ within parameters results most }
{
    parameters <= most && results <= most
}

// The rules of head k, behind which an instruction starts.
fn head_right(head: Head, k: usize) -> bool
    ensures { result ≡ head_ok head k }
{
    within(head.a, head.r, head.x) && within(head.b, head.s, head.y) && number_right(head, k)
}

// An instruction starts at q, in a file of n bytes.
fn follows(m: &[u16], n: usize, q: usize) -> bool
    requires { (length m.now ≡ 3 * n) × (n ≤ file_most) }
    ensures { result ≡ starts_at m.now n q }
{
    q < n && m[3 * q] != NONE
}

// The three numbers at q, one by one: they are no list anywhere.
pub fn put(m: &mut [u16], q: usize, main: u16, ptr: u16, inner: u16)
    requires { (3 * q + 2 < length m.old) × (q < file_most) }
    ensures { m.new ≡ put_in m.old q (state main ptr inner) }
{
    let i = 3 * q;
    m[i] = main;
    m[i + 1] = ptr;
    m[i + 2] = inner;
}

// A head at p is right: its first instruction gets its state.
fn place_head(m: &mut [u16], head: Head, p: usize)
    requires { (3 * (p + head_size) + 2 < length m.old) × (p + head_size < file_most) × (head.a < 256) × (head.b < 256) }
    ensures { m.new ≡ put_in m.old (p + head_size) (state head.a head.b none) }
{
    let a = head.a as u16;
    let b = head.b as u16;
    put(m, p + HEAD_SIZE, a, b, NONE);
}

// Refusal 4: the heads in file order, as the scan listed them. Their number.
pub fn heads_of(
    file: &[u8],
    m: &mut [u16],
    table: &[usize; PROCS_MOST],
    found: Found,
) -> Result<usize, RefusedAt>
    requires { ScanMarked file.now m.old table.now found.heads found.later }
    ensures { Headed file.now m.new table.now result }
{
    let size = file.len();
    for k in 0..found.heads {
        if k == PROCS_MOST {
            return Err(Refusal::Heads.at(found.later));
        }
        let p = table[k];
        if !follows(m, size, p + HEAD_SIZE) {
            return Err(Refusal::Heads.at(p));
        }
        let head = code_file::head_at(file, p);
        if !head_right(head, k) {
            return Err(Refusal::Heads.at(p));
        }
        place_head(m, head, p);
    }
    Ok(found.heads)
}
