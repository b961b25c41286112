// The heap's audit, for refusal 11 (Manual 6.7, 6.8).
// The audit walks the objects and marks in a table where they start; a pointer is then looked up there.
#![tactic(auto)]

ghost use Rattle.std.specs.Prelude.{◌≡◌, ◌-◌, ◌≤◌, ◌<◌, length};
ghost use Rattle.model.specs.Heap.{mark_of, Objects, range, pointer_words};
ghost use Rattle.model.specs.declared.Refusal.TheVariants as refusals;
ghost use Rattle.audit_words.specs.Every.{zero_at};
ghost use Rattle.audit_words.specs.Table.{Unmarked, marked_at};
ghost use Rattle.audit_heap.specs.First.{first_bad, free_words};
ghost use Rattle.audit_heap.specs.Found.{objects_found, Range, fault_at, LinksCounted, Walked, Audited};
ghost use Rattle.model.specs.Calls.{heap_most};

use model::{Refusal, RefusedAt};

// The first fault of a heap that is not sound: the index of the word.
#[derive(Clone, Copy, Debug, PartialEq, Eq)]
pub struct BadWord {
    pub at: usize,
}

impl From<BadWord> for RefusedAt {
    ghost from_gives = { λ b r. r ≡ record { refusal = refusals.Heap; place = b.at } };

    fn from(bad: BadWord) -> RefusedAt {
        RefusedAt {
            refusal: Refusal::Heap,
            place: bad.at,
        }
    }
}

// The fault of the object at `q`, which is to end at `mark` or before it.
#[tactic(auto, unfolding(crate::specs::Found::fault_at, model::specs::Heap::bad_header, model::specs::Heap::bad_size))]
fn judge_object(heap: &[u32], q: usize, mark: usize) -> Result<(), BadWord>
    requires { (q < mark) × (mark ≤ length heap.now) × (length heap.now ≤ heap_most) }
    ensures { result ≡ fault_at heap.now q mark }
{
    let next = q + 1;
    if !heap::ptrs_right(heap, q) {
        return Err(BadWord { at: q });
    }
    if mark <= next {
        return Err(BadWord { at: q });
    }
    let size = heap::size_at(heap, q);
    if size < 2 + heap::ptrs_at(heap, q) {
        return Err(BadWord { at: next });
    }
    if mark < q + size {
        return Err(BadWord { at: next });
    }
    if !heap::size_right(heap, q) {
        return Err(BadWord { at: next }); // wrong for its kind
    }
    Ok(())
}

// Walks the objects from word 2 to the mark, marks where each starts, and counts their pointer words. Word 0 is no object's: its mark makes
// nil a pointer. A `while`, here and below: it steps by objects.
fn mark_objects(heap: &[u32], marks: &mut [bool]) -> Result<usize, BadWord>
    requires { Range heap.now × (length heap.now ≤ length marks.old) × Unmarked marks.old }
    ensures { Walked heap.now result marks.new }
{
    marks[0] = true;
    let mark = heap[0] as usize;
    let mut links = 0;
    let mut q = 2;
    while q < mark {
        judge_object(heap, q, mark)?;
        marks[q] = true;
        links += heap::ptrs_at(heap, q);
        q += heap::size_at(heap, q);
    }
    Ok(links)
}

// The words from `from` up to `end` are pointers, or the first that is none. All are asked at once, without a branch for each; only where one fails its place is sought.
fn check_pointers(heap: &[u32], marks: &[bool], from: usize, end: usize) -> Result<(), BadWord>
    requires { (from ≤ end) × (end ≤ length heap.now) }
    ensures { result ≡ first_bad (marked_at marks.now heap.now) (range from (end - from)) }
{
    let words = &heap[from..end];
    if audit_words::all_pointers(words, marks) {
        return Ok(());
    }
    match words
        .iter()
        .position(|word| !audit_words::is_pointer(marks, *word))
    {
        Some(k) => Err(BadWord { at: from + k }),
        None => Ok(()),
    }
}

// The first of the objects' pointer words that is no pointer. Where they have none, the objects are not walked again.
fn pointers_right(heap: &[u32], marks: &[bool], links: usize) -> Result<(), BadWord>
    requires { Range heap.now × Objects heap.now 2 (mark_of heap.now) (objects_found heap.now) × LinksCounted heap.now (objects_found heap.now) links }
    ensures { result ≡ first_bad (marked_at marks.now heap.now) (pointer_words heap.now (objects_found heap.now)) }
{
    if links == 0 {
        return Ok(());
    }
    let mark = heap[0] as usize;
    let mut q = 2;
    while q < mark {
        let from = q + 2;
        check_pointers(heap, marks, from, from + heap::ptrs_at(heap, q))?;
        q += heap::size_at(heap, q);
    }
    Ok(())
}

// The first word from the mark on that is not 0, asked likewise. One function with `check_pointers` would be handed both tests, the quick one and that of a word.
fn free_zero(heap: &[u32]) -> Result<(), BadWord>
    requires { Range heap.now }
    ensures { result ≡ first_bad (zero_at heap.now) (free_words heap.now) }
{
    let mark = heap[0] as usize;
    if audit_words::all_zero(heap, mark, heap.len()) {
        return Ok(());
    }
    match heap[mark..].iter().position(|word| *word != 0) {
        Some(k) => Err(BadWord { at: mark + k }),
        None => Ok(()),
    }
}

// The audit for refusal 11. No mark is set before it; of a sound heap the marks are nil's and the objects' then.
pub fn audit_heap(heap: &[u32], marks: &mut [bool]) -> Result<(), BadWord>
    requires { (2 ≤ length heap.now) × (length heap.now ≤ heap_most) × (length heap.now ≤ length marks.old) × Unmarked marks.old }
    ensures { Audited heap.now result marks.new }
{
    let mark = heap[0] as usize;
    if mark < 2 {
        return Err(BadWord { at: 0 });
    }
    if heap.len() < mark {
        return Err(BadWord { at: 0 });
    }
    let links = mark_objects(heap, marks)?;
    if !audit_words::is_pointer(marks, heap[1]) {
        return Err(BadWord { at: 1 });
    }
    pointers_right(heap, marks, links)?;
    free_zero(heap)
}
