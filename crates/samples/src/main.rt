// Code files worked out by hand from the manual, each run on the bench or on lists of its own: a line for each run, in
// the bench's wording. Standard input has the files (crates/samples/stdin), a line each: a name, a colon and the
// bytes in decimal; behind a slash the two budgets of a run cut in two. A line that starts with # is a comment.
#![tactic(auto)]

ghost use Rattle.std.specs.Prelude.{◌≡◌, ◌≤◌, length, take};

use model::REGISTER_BYTES;
use show::{Line, Lists};
use std::io;

// A line behind a name. The name is bytes, since standard input need not be text.
fn print(rt: &impl Print, name: &[u8], line: Line) -> io::Result<()> {
    rt.write_all(name)?;
    println!(rt; ": {line}")
}

// Starts and runs, its line behind a name.
fn begin(
    rt: &impl Print,
    name: &[u8],
    file: &[u8],
    lists: &mut Lists,
    budget: u32,
) -> io::Result<()> {
    let answer = lists.begin(file, budget);
    print(rt, name, lists.line(answer))
}

// Runs on, likewise. Apart: a closure for the call would be longer than the line that differs.
fn go(rt: &impl Print, name: &[u8], file: &[u8], lists: &mut Lists, budget: u32) -> io::Result<()> {
    let answer = lists.run(file, budget);
    print(rt, name, lists.line(answer))
}

// A file on the bench, with a budget of 1,000.
fn sample(rt: &impl Print, name: &[u8], file: &[u8]) -> io::Result<()> {
    show::on_bench(|lists| begin(rt, name, file, lists, 1000))
}

// A run cut in two: budget n, then m.
fn cut(rt: &impl Print, name: &[u8], file: &[u8], n: u32, m: u32) -> io::Result<()> {
    show::on_bench(|lists| {
        begin(rt, name, file, lists, n)?;
        go(rt, name, file, lists, m)
    })
}

// The numbers of 0 to 255 in a text, each with a byte behind it that is no digit, as far as there is room in `out`. Of a
// number that grows too large, the digits that follow are put behind its remainder by 256.
fn numbers<'a>(text: &[u8], out: &'a mut [u8]) -> &'a [u8]
    ensures bound { length result.now ≤ length out.old }
    ensures front { length result.now ≡ length (take (length result.now) out.old) }
{
    let mut n = 0;
    let mut value: Option<u32> = None;
    for c in text {
        let digit = char::from(*c).to_digit(10);
        if digit.is_none()
            && let Some(number) = value
            && let Ok(byte) = u8::try_from(number)
            && n < out.len()
        {
            out[n] = byte;
            n += 1;
        }
        value = digit.map(|digit| value.unwrap_or(0) % 256 * 10 + digit);
    }
    &out[..n]
}

// A file for the bench, or, with two budgets, a cut run.
fn play(rt: &impl Print, name: &[u8], file: &[u8], budgets: &[u8]) -> io::Result<()> {
    match budgets {
        [n, m] => cut(rt, name, file, u32::from(*n), u32::from(*m)),
        _ if !file.is_empty() => sample(rt, name, file),
        _ => Ok(()),
    }
}

// One line, with its end: a name, a colon and the file's bytes, and, where there is a slash, budgets behind it.
fn line(rt: &impl Print, text: &[u8]) -> io::Result<()> {
    let Some(colon) = text.iter().position(|c| *c == b':') else {
        return Ok(());
    };
    let (name, rest) = text.split_at(colon);
    if name.contains(&b'/') {
        return Ok(());
    }
    let slash = rest.iter().position(|c| *c == b'/').unwrap_or(rest.len());
    let (bytes, budgets) = rest.split_at(slash);
    let file = &mut [0; 256];
    let cuts = &mut [0; 2];
    play(rt, name, numbers(bytes, file), numbers(budgets, cuts))
}

// Each line of the text that has an end.
fn lines(rt: &impl Print, text: &[u8]) -> io::Result<()> {
    for text in text.split_inclusive(|c| *c == b'\n') {
        if text.ends_with(b"\n") && !text.starts_with(b"#") {
            line(rt, text)?;
        }
    }
    Ok(())
}

// Refusal 1: no byte, and one too many; 4,096 bytes are not too many.
fn lengths(rt: &impl Print) -> io::Result<()> {
    sample(rt, b"1", b"")?;
    sample(rt, b"4,096 bytes", &[0; 4096])?;
    sample(rt, b"1 too long", &[0; 4097])
}

// 5 less 3 (Manual 7.4).
const A: [u8; 13] = [240, 0, 0, 1, 0, 2, 0, 54, 5, 54, 3, 142, 73];

// A on the lists given, with a budget of 4.
fn on(
    rt: &impl Print,
    name: &[u8],
    map: &mut [u16],
    main: &mut [u32],
    heap: &mut [u32],
    registers: &mut [u8],
) -> io::Result<()> {
    let mut lists = Lists {
        map,
        main,
        ptr: &mut [0; 1],
        ctl: &mut [0; 5],
        heap,
        registers,
    };
    begin(rt, name, &A, &mut lists, 4)
}

// Lists just as long as A needs: a map of 39, a main stack of 2. Refusals 2 and 10: a list that is one shorter.
fn lengths_of_lists(rt: &impl Print) -> io::Result<()> {
    let map = &mut [0; 39];
    let main = &mut [0; 2];
    let heap = &mut [2, 0];
    let registers = &mut [0; REGISTER_BYTES];
    on(rt, b"A in short lists", map, main, heap, registers)?;
    on(rt, b"2", &mut [0; 38], main, heap, registers)?;
    on(rt, b"10", map, &mut [0; 1], heap, registers)
}

// Refusal 13 in start: register lists of other lengths; beside a list that is too short, it comes first.
fn lengths_of_registers(rt: &impl Print) -> io::Result<()> {
    let map = &mut [0; 39];
    let main = &mut [0; 2];
    let heap = &mut [2, 0];
    on(rt, b"13 28 bytes", map, main, heap, &mut [0; 28])?;
    on(rt, b"13 35 bytes", map, main, heap, &mut [0; 35])?;
    on(rt, b"13 37 bytes", map, main, heap, &mut [0; 37])?;
    on(rt, b"13 no bytes", map, main, heap, &mut [])?;
    on(rt, b"13 before 10", map, &mut [0; 1], heap, &mut [])?;
    on(rt, b"13 before 11", map, main, &mut [1, 0], &mut [])
}

// Where there is such a place.
fn put<T: Copy>(list: &mut [T], i: usize, x: T) {
    if let Some(place) = list.get_mut(i) {
        *place = x;
    }
}

// So many steps of one file, then a run of another on the state that is left, byte `at` of its registers being `byte`.
fn other_file(
    rt: &impl Print,
    name: &[u8],
    file: &[u8],
    steps: u32,
    other: &[u8],
    at: usize,
    byte: u8,
) -> io::Result<()> {
    let mut lists = Lists {
        map: &mut [0; 42],
        main: &mut [0; 3],
        ptr: &mut [0; 1],
        ctl: &mut [0; 5],
        heap: &mut [2, 0],
        registers: &mut [0; REGISTER_BYTES],
    };
    begin(rt, b"one file", file, &mut lists, steps)?;
    put(lists.registers, at, byte);
    go(rt, name, other, &mut lists, 1000)
}

// Refusal 13 in run: A's sums, 574 and 4077, are bytes 0 0 2 62 and 0 0 15 237 of the registers, from byte 28 on. Two bytes of A exchanged
// change the second sum; two files have equal sums (Manual 2.16).
fn sums_of_files(rt: &impl Print) -> io::Result<()> {
    let swapped = [240, 0, 0, 1, 0, 2, 0, 54, 3, 54, 5, 142, 73];
    other_file(rt, b"its own", &A, 2, &A, 31, 62)?;
    other_file(rt, b"13 first sum", &A, 2, &A, 31, 63)?;
    other_file(rt, b"13 second sum", &A, 0, &A, 35, 236)?;
    other_file(rt, b"13 high byte", &A, 1, &A, 32, 1)?;
    other_file(rt, b"finished", &A, 4, &A, 35, 237)?;
    other_file(rt, b"13 finished", &A, 4, &A, 35, 238)?;
    other_file(rt, b"13 two bytes exchanged", &A, 2, &swapped, 35, 237)?;
    other_file(rt, b"the second sum of the other", &A, 2, &swapped, 35, 233)?;
    let one = [240, 0, 0, 3, 0, 3, 0, 54, 1, 54, 2, 54, 1, 73];
    let two = [240, 0, 0, 3, 0, 3, 0, 54, 2, 54, 0, 54, 2, 73];
    other_file(rt, b"equal sums", &one, 2, &two, 35, 223)?;
    let nine = [240, 0, 0, 0, 0, 1, 0, 54, 1, 3, 0, 5];
    other_file(rt, b"9 before 13", &A, 2, &nine, 31, 62)
}

// A call for each row of the tests below: in an array the names and heaps, of different lengths, would have to be made slices one by one.
fn on_heap(rt: &impl Print, name: &[u8], heap: &mut [u32]) -> io::Result<()> {
    let registers = &mut [0; REGISTER_BYTES];
    on(rt, name, &mut [0; 39], &mut [0; 2], heap, registers)
}

// Headers without pointer words: of a view, of a vector of words, of a vector of pointers, of kind 6, which is unknown.
const VIEW: u32 = 0x1000000;

const WORDS: u32 = 0x2000000;

const POINTERS: u32 = 0x3000000;

const KIND_6: u32 = 0x6000000;

// Refusal 11, first step: the mark below 2, and one past the heap's length with a bad root and a bad header beside it; a mark of the length is
// right.
fn marks_of_heaps(rt: &impl Print) -> io::Result<()> {
    on_heap(rt, b"11", &mut [1, 0])?;
    on_heap(rt, b"11 mark of length + 1", &mut [5, 9, KIND_6, 0])?;
    on_heap(rt, b"mark of the length", &mut [4, 2, VIEW, 2])
}

// Second step: headers and size words, upwards.
fn walks_of_heaps(rt: &impl Print) -> io::Result<()> {
    on_heap(rt, b"11 kind", &mut [4, 0, KIND_6, 2])?;
    on_heap(rt, b"11 no size word", &mut [3, 0, VIEW, 2])?;
    on_heap(rt, b"11 size too small", &mut [4, 0, VIEW + 1, 2])?;
    on_heap(rt, b"11 size past the mark", &mut [4, 0, VIEW, 3, 0])?;
    on_heap(
        rt,
        b"11 size that would wrap",
        &mut [4, 0, VIEW, 0xfffffffe],
    )?;
    on_heap(rt, b"11 header and size word", &mut [4, 0, KIND_6 + 3, 0])?;
    on_heap(rt, b"11 root and size word", &mut [4, 9, VIEW, 9])?;
    on_heap(
        rt,
        b"11 all, a later header",
        &mut [7, 9, VIEW + 1, 3, 9, KIND_6, 2, 7],
    )
}

// Third step: the lowest of the root, the pointer words and the free words; and an object that points to itself, with a plain word behind.
fn words_of_heaps(rt: &impl Print) -> io::Result<()> {
    on_heap(rt, b"11 root", &mut [2, 7, 0])?;
    on_heap(rt, b"11 free word", &mut [2, 0, 5])?;
    on_heap(
        rt,
        b"11 root, pointers, free word",
        &mut [6, 5, VIEW + 2, 4, 3, 9, 1],
    )?;
    on_heap(
        rt,
        b"11 two pointers, free word",
        &mut [6, 0, VIEW + 2, 4, 3, 9, 1],
    )?;
    on_heap(
        rt,
        b"11 pointer to a free word",
        &mut [5, 2, VIEW + 1, 3, 5, 7],
    )?;
    on_heap(rt, b"own pointer", &mut [5, 2, VIEW + 1, 3, 2, 0])?;
    on_heap(rt, b"plain word", &mut [6, 2, VIEW + 1, 4, 2, 9, 0])?;
    on_heap(
        rt,
        b"11 own pointer, free words",
        &mut [5, 2, VIEW + 1, 3, 2, 7, 7],
    )
}

// Vectors: pointer words among words, which fault the header whatever the size; sizes that are wrong for the kind.
fn sizes_of_vectors(rt: &impl Print) -> io::Result<()> {
    on_heap(
        rt,
        b"11 pointer word among words",
        &mut [6, 0, WORDS + 1, 4, 0, 0],
    )?;
    on_heap(
        rt,
        b"11 and a size past the mark",
        &mut [6, 0, WORDS + 1, 9, 0, 0],
    )?;
    on_heap(
        rt,
        b"11 and a size too small",
        &mut [6, 0, WORDS + 1, 2, 0, 0],
    )?;
    on_heap(rt, b"11 words without bound", &mut [4, 0, WORDS, 2])?;
    on_heap(rt, b"no words", &mut [5, 2, WORDS, 3, 9])?;
    on_heap(
        rt,
        b"11 pointers without bound",
        &mut [5, 0, POINTERS + 1, 3, 0],
    )?;
    on_heap(
        rt,
        b"11 word behind the bound",
        &mut [7, 0, POINTERS + 1, 5, 0, 0, 0],
    )?;
    on_heap(rt, b"own element", &mut [6, 2, POINTERS + 1, 4, 2, 9])
}

// Words and bounds may be anything; an element that is a pointer is judged as one.
fn elements_of_vectors(rt: &impl Print) -> io::Result<()> {
    on_heap(
        rt,
        b"any words",
        &mut [11, 0, WORDS, 5, 9, 9, 9, POINTERS + 1, 4, 7, 9],
    )?;
    on_heap(
        rt,
        b"11 element",
        &mut [11, 0, WORDS, 5, 9, 9, 9, POINTERS + 1, 4, 3, 9],
    )
}

// Runs on with this pointer and this mark.
fn go_with(
    rt: &impl Print,
    name: &[u8],
    file: &[u8],
    lists: &mut Lists,
    pointer: u32,
    mark: u32,
) -> io::Result<()> {
    put(lists.ptr, 0, pointer);
    put(lists.heap, 0, mark);
    go(rt, name, file, lists, 1)
}

// A view is made at heap index 2; then the pointer to it and the mark are these, and then as they were. 7 form 0 0; 12 73.
fn view_made(rt: &impl Print, name: &[u8], pointer: u32, mark: u32) -> io::Result<()> {
    let file = [240, 0, 0, 0, 1, 0, 1, 36, 0, 0, 0, 0, 73];
    let mut lists = Lists {
        map: &mut [0; 39],
        main: &mut [0; 1],
        ptr: &mut [0; 2],
        ctl: &mut [0; 5],
        heap: &mut [2, 0, 0, 0],
        registers: &mut [0; REGISTER_BYTES],
    };
    begin(rt, b"one form", &file, &mut lists, 1)?;
    go_with(rt, name, &file, &mut lists, pointer, mark)?;
    go_with(rt, b"as it was", &file, &mut lists, 2, 4)
}

fn main(rt: HostRuntime) -> io::Result<()> {
    let mut text = [0u8; 65536];
    let n = input::read_full(&mut rt.stdin(), &mut text)?;
    lines(&rt, &text[..n])?;
    lengths(&rt)?;
    lengths_of_lists(&rt)?;
    lengths_of_registers(&rt)?;
    sums_of_files(&rt)?;
    marks_of_heaps(&rt)?;
    walks_of_heaps(&rt)?;
    words_of_heaps(&rt)?;
    sizes_of_vectors(&rt)?;
    elements_of_vectors(&rt)?;
    view_made(&rt, b"12", 3, 4)?;
    view_made(&rt, b"11 in run", 2, 3)
}
