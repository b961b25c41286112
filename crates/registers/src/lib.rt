// Registers as bytes: nine words, most significant byte first (Manual 2.14). Those that the steps work on and the sums are read and put
// apart: no step has to do with the sums.
// The bytes are a slice, as C lends them: to make an array of them would test their length once more at each call.
#![tactic(auto)]

ghost use Rattle.std.specs.Prelude.{◌≡◌, ◌+◌, ◌*◌, ◌/◌, ◌<◌, length};
ghost use Rattle.model.specs.Control.{registers, register_bytes, word_from, regs_from, sums_from, reg_bytes};
ghost use Rattle.numbers.specs.Small.{Small};
ghost use Rattle.registers.specs.Registers.{RegsWords, Stored};

use model::{Regs, Sums};

// Register `i`.
fn word_from(bytes: &[u8], i: usize) -> usize
    requires { (length bytes.now ≡ register_bytes) × (i < registers) }
    ensures { Small 4294967296 (word_from bytes.now i) result }
{
    let at = 4 * i;
    let word = <[u8; 4]>::try_from(&bytes[at..at + 4]).unwrap();
    u32::from_be_bytes(word) as usize
}

pub fn regs_from(bytes: &[u8]) -> Regs
    requires { length bytes.now ≡ register_bytes }
    ensures { (result ≡ regs_from bytes.now) × RegsWords result }
{
    Regs {
        place: word_from(bytes, 0),
        frame: word_from(bytes, 1),
        handler: word_from(bytes, 2),
        mtop: word_from(bytes, 3),
        ptop: word_from(bytes, 4),
        ctop: word_from(bytes, 5),
        state: word_from(bytes, 6),
    }
}

pub fn sums_from(bytes: &[u8]) -> Sums
    requires { length bytes.now ≡ register_bytes }
    ensures { result ≡ sums_from bytes.now }
{
    Sums {
        first: word_from(bytes, 7),
        second: word_from(bytes, 8),
    }
}

// Puts register `i`, most significant byte first: the word's 32 bits, whatever lies above.
fn put_word(bytes: &mut [u8], i: usize, w: usize)
    requires { (length bytes.old ≡ register_bytes) × (i < registers) }
    ensures { Stored bytes.old i w bytes.new }
{
    let at = 4 * i;
    let word = (w % 4294967296) as u32;
    bytes[at..at + 4].copy_from_slice(&word.to_be_bytes());
}

// The sums stay.
pub fn put_regs(bytes: &mut [u8], regs: Regs)
    requires { length bytes.old ≡ register_bytes }
    ensures { bytes.new ≡ reg_bytes (sums_from bytes.old) regs }
{
    put_word(bytes, 0, regs.place);
    put_word(bytes, 1, regs.frame);
    put_word(bytes, 2, regs.handler);
    put_word(bytes, 3, regs.mtop);
    put_word(bytes, 4, regs.ptop);
    put_word(bytes, 5, regs.ctop);
    put_word(bytes, 6, regs.state);
}

// All else stays.
pub fn put_sums(bytes: &mut [u8], sums: Sums)
    requires { length bytes.old ≡ register_bytes }
    ensures { bytes.new ≡ reg_bytes sums (regs_from bytes.old) }
{
    put_word(bytes, 7, sums.first);
    put_word(bytes, 8, sums.second);
}
