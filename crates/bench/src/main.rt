// Reads a code file on standard input, runs it on the bench with a budget of 1,000, and prints one line.
#![tactic(auto)]

use std::io;

fn main(rt: HostRuntime) -> io::Result<()> {
    // One byte more than a code file may have: a longer input fills it, and is refused as 1.
    let mut buffer = [0; 4097];
    let n = input::read_full(&mut rt.stdin(), &mut buffer)?;
    let file = &buffer[..n];
    show::on_bench(|lists| {
        let answer = lists.begin(file, 1000);
        println!(rt; "{}", lists.line(answer))
    })
}
