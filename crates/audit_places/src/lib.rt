// What the audit reads at a place: a byte or an operand of the file, the map's numbers, the procedure with its head.
// The place may be no instruction, or lie past the file's end. It is an index, as everywhere; that it is below 2^32 is asked, so that no sum wraps.
#![tactic(auto)]

ghost use Rattle.std.specs.Prelude.{◌≡◌, ◌+◌, ◌*◌, ◌<◌, get_or};
ghost use Rattle.model.specs.File.{byte_at, operand};
ghost use Rattle.numbers.specs.Small.{Small};
ghost use Rattle.laws_file.specs.Procedures.{end_of};
ghost use Rattle.audit_places.specs.Places.{AuditReady, ready_prop, ShownAt, in_proc, HeadFor};
ghost use Rattle.model.specs.Checker.{none};

use code_file::Head;
use model::{NONE_OPEN, PROCS_MOST};

// What the map has at a place: the depths there, and the innermost open handler. The checker's State has the same numbers; the audit stands on the map, not on check_rows.
#[derive(Clone, Copy)]
pub struct Shown {
    pub main: usize,
    pub ptr: usize,
    pub inner: usize, // the place of its 160, or 65,535: the map's own number (Manual 5.13)
}

// A file that passed, with its finished map and the table of its `count` heads.
// The table and its count are as the check leaves them, and as the steps have the table; a slice of it would be made for the audit alone.
#[derive(Clone, Copy)]
pub struct Passed<'a> {
    pub file: &'a [u8],
    pub map: &'a [u16],
    pub heads: &'a [usize; PROCS_MOST],
    pub count: usize,
    pub ghost ready: { AuditReady file.now map.now heads.now count } by { ready_prop file.now map.now heads.now count },
}

impl Passed<'_> {
    // A byte of the file; past its end 0.
    pub fn byte_at(&self, p: usize) -> usize
        ensures { Small 256 (byte_at self.now.file.now p) result }
    {
        self.file.get(p).map_or(0, |&b| b as usize)
    }

    // The operand of the call at `p`, which may be no instruction. Made of two numbers: behind the file's end there are no bytes for `from_be_bytes`, and each counts as 0.
    pub fn operand(&self, p: usize) -> usize
        requires { p < 4294967296 }
        ensures { result ≡ operand self.now.file.now p }
    {
        self.byte_at(p + 1) * 256 + self.byte_at(p + 2)
    }

    // A number of the map; past its end 65,535.
    fn number(&self, i: usize) -> usize
        ensures { Small 65536 (get_or self.now.map.now i none) result }
    {
        self.map.get(i).map_or(NONE_OPEN, |&n| n as usize)
    }

    // The map's numbers at a place; past its end 65,535.
    pub fn at(&self, p: usize) -> Shown
        requires { p < 4294967296 }
        ensures { ShownAt self.now.map.now p result }
    {
        Shown {
            main: self.number(3 * p),
            ptr: self.number(3 * p + 1),
            inner: self.number(3 * p + 2),
        }
    }

    // Where procedure `n` ends: at the next head, or with the file.
    fn end_of(&self, n: usize) -> usize
        requires { n < self.now.count }
        ensures { result ≡ end_of self.now.file.now (n + 1) }
    {
        let next = n + 1;
        if next < self.count {
            self.heads[next]
        } else {
            self.file.len()
        }
    }

    // An instruction of procedure `n` starts at `p`.
    pub fn within(&self, n: usize, p: usize) -> bool
        requires { p < 4294967296 }
        ensures { result ≡ in_proc self.now.file.now n p }
    {
        n < self.count && self.heads[n] < p && p < self.end_of(n) && self.at(p).main != NONE_OPEN
    }

    // The head of procedure `n`.
    pub fn head_of(&self, n: usize) -> Head
        requires { n < self.now.count }
        ensures { HeadFor self.now.file.now n result }
    {
        code_file::head_at(self.file, self.heads[n])
    }
}
