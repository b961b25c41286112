// What is tested of the lists by themselves: in run that the state is the file's, refusal 13; in start and run the lists' lengths, refusal 10.
#![tactic(auto)]

ghost use Rattle.std.specs.Prelude.{◌≡◌, ◌∷◌, ◌≤◌, length};
ghost use Rattle.model.specs.Choice.{at_most, all};
ghost use Rattle.model.specs.Control.{register_bytes, sums_from};
ghost use Rattle.model.specs.File.{file_most};
ghost use Rattle.model.specs.Sums.{sums_of};
ghost use Rattle.model.specs.Calls.{sum_tests};
ghost use Rattle.call_lists.specs.Lists.{belong_list, length_list};

use code_file::Head;
use model::{CTL_MOST, FILE_MOST, HEAP_MOST, MAIN_MOST, PTR_MOST, RECORD, REGISTER_BYTES};

// Refusal 13 in run: the register list's length, and both sums in it are the file's. The check has not been made yet, and the sums are of a
// file that is not too long; a longer one is refused 1 whatever this answers.
pub fn belongs(file: &[u8], bytes: &[u8]) -> bool
    ensures { result ≡ all (at_most (length file.now) file_most ∷ belong_list file.now bytes.now) }
{
    file.len() <= FILE_MOST
        && bytes.len() == REGISTER_BYTES
        && registers::sums_from(bytes) == file_sums::sums_of(file)
}

// Refusal 10: the lent lengths, with the head of procedure 0.
pub fn lengths_right(head: Head, main: usize, ptr: usize, ctl: usize, heap: usize) -> bool
    ensures { result ≡ all (length_list head main ptr ctl heap) }
{
    (1..=MAIN_MOST).contains(&main)
        && (1..=PTR_MOST).contains(&ptr)
        && (RECORD..=CTL_MOST).contains(&ctl)
        && (2..=HEAP_MOST).contains(&heap)
        && head.x <= main
        && head.y <= ptr
}
