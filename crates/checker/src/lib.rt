// The checker: refusals 1 to 9, and the map.
#![tactic(auto)]

ghost use Rattle.std.specs.Prelude.{◌≡◌, ◌*◌, ◌<◌, replicate};
ghost use Rattle.checker.specs.Parts.{Lengths, Looked, Filled, Checks};
ghost use Rattle.model.specs.Calls.{checked, check_of};
ghost use Rattle.model.specs.File.{procs_most};

use model::{Answer, FILE_MOST, NONE, PROCS_MOST, Refusal, RefusedAt};

// Refusals 3 to 9. The number of procedures, whose heads are in the table.
fn passes(file: &[u8], m: &mut [u16], table: &mut [usize; PROCS_MOST]) -> Result<usize, RefusedAt>
    requires { Lengths file.now m.old table.old }
    ensures { Looked file.now m.new table.new result }
{
    m.fill(NONE);
    let found = check_scan::scan(file, m, table)?;
    let k = check_scan::heads_of(file, m, table, found)?;
    check_flow::flow(file, m, &table[..k])
}

// Refusals 3 to 9 fill the part with 65,535.
fn check_part(
    file: &[u8],
    m: &mut [u16],
    table: &mut [usize; PROCS_MOST],
) -> Result<usize, RefusedAt>
    requires { Lengths file.now m.old table.old }
    ensures { Filled file.now m.new table.new result }
{
    let verdict = passes(file, m, table);
    if verdict.is_err() {
        m.fill(NONE);
    }
    verdict
}

// Tests 1 to 9, for any file and any map. Where the file passes, the table has the heads of its procedures, and their number is told.
pub fn check_with(
    file: &[u8],
    map: &mut [u16],
    table: &mut [usize; PROCS_MOST],
) -> Result<usize, RefusedAt>
    requires { table.old ≡ replicate procs_most 0 }
    ensures { Checks file.now map.old map.new table.new result }
{
    let n = file.len();
    if !(1..=FILE_MOST).contains(&n) {
        return Err(Refusal::FileLength.at(0));
    }
    let size = 3 * n;
    if map.len() < size {
        return Err(Refusal::MapLength.at(0));
    }
    check_part(file, &mut map[..size], table)
}

// The check, for any file and any map.
pub fn check(file: &[u8], map: &mut [u16]) -> Answer
    ensures { checked result map.new
        ≡ check_of file.now map.old }
{
    let mut table = [0usize; PROCS_MOST];
    match check_with(file, map, &mut table) {
        Ok(_) => Answer::Passed,
        Err(refused) => Answer::from(refused),
    }
}
