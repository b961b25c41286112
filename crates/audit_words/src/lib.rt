// Words of a list looked up in a table of marks, or compared with 0: which are pointers, and the pointer stack's test for refusal 12.
#![tactic(auto)]

ghost use Rattle.std.specs.Prelude.{◌≡◌, true, List, ℕ, ◌≤◌, length, drop};
ghost use Rattle.model.specs.Sound.{pointers, zeros};
ghost use Rattle.audit_words.specs.Every.{zero_at, Every};
ghost use Rattle.audit_words.specs.Table.{Marks, is_marked, marked_at};

// Whether a word is marked: nil counts as a pointer here and below.
#[tactic(auto, unfolding(crate::specs::Table::is_marked))]
pub fn is_pointer(marks: &[bool], word: u32) -> bool
    ensures { result ≡ is_marked marks.now word }
{
    marks.get(word as usize) == Some(&true)
}

// Every word is a pointer. All are looked at, and no branch hangs on a mark: which words are nil no processor foresees.
pub fn all_pointers(words: &[u32], marks: &[bool]) -> bool
    ensures { Every (marked_at marks.now words.now) 0 (length words.now) result }
{
    let mut all = true;
    for word in words {
        all &= is_pointer(marks, *word);
    }
    all
}

// Every word from `from` up to `end` is 0; `from` may lie behind `end`. The words are joined without a test of each, so that the compiler
// takes several at once.
pub fn all_zero(words: &[u32], from: usize, end: usize) -> bool
    requires { end ≤ length words.now }
    ensures { Every (zero_at words.now) from end result }
{
    end <= from || words[from..end].iter().fold(0, |any, word| any | *word) == 0
}

// Every word of the pointer stack is nil or an object's index, provided that the words from `top` on are 0; only those below are looked at.
// Where they are all nil, that is told sooner than by their marks.
pub fn audit_pointers(ptr: &[u32], top: usize, marks: &[bool]) -> bool
    ensures { (os : List ℕ) → Marks os marks.now → zeros (drop top ptr.now) ≡ true → result ≡ pointers os ptr.now }
{
    let n = top.min(ptr.len());
    all_zero(ptr, 0, n) || all_pointers(&ptr[..n], marks)
}
