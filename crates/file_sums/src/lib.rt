// A file's two sums (Manual 2.16), byte by byte. Of at most 4,096 bytes neither sum wraps.
#![tactic(auto)]

ghost use Rattle.std.specs.Prelude.{◌≡◌, ◌≤◌, length};
ghost use Rattle.model.specs.File.{file_most};
ghost use Rattle.model.specs.Sums.{sums_of};

use model::Sums;

pub fn sums_of(file: &[u8]) -> Sums
    requires { length file.now ≤ file_most }
    ensures { result ≡ sums_of file.now }
{
    let mut first = 0usize;
    let mut second = 0usize;
    for byte in file {
        first += *byte as usize;
        second += first;
    }
    Sums { first, second }
}
