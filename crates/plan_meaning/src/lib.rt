// What the code plans for an instruction, and what writing it comes to. `Bridge` shows that it is the model's step.
#![tactic(auto)]

ghost use Rattle.std.specs.Prelude.{◌≡◌};
ghost use Rattle.plan_meaning.specs.Planned.{write};

// What an instruction writes, beside the tops and the place.
#[derive(Clone, Copy)]
pub enum Into {
    Nothing,
    Pop, // nothing; the topmost word of the main stack goes
    Push, // a word of the main stack, of which none goes
    Main, // a word of the main stack, of which one goes
    Pointer, // a word of the pointer stack
    Heap, // a word of the heap; one or two words of the pointer stack go: 33, 59
    Read, // a word of the main stack, had from one or two pointers, which go: 30, 82, 131
    Drop, // nothing; words of both stacks go, as many as the instruction says
    DropMain, // a word of the main stack, set aside while words of both stacks go
    DropPointer, // the same with a word of the pointer stack
    View, // a new view, and its index on the pointer stack
    Frame, // a frame's record on the control stack
    Return, // takes the running frame's record away
    Handler, // a handler's record on the control stack
    Close, // takes the innermost handler's record away
    ReadPointer, // a word of the pointer stack, had by an index, the topmost main word, which goes: 83
    Store, // a word of the heap; a word of each stack goes: 32
    WordVector, // a new vector of words, and its index on the pointer stack
    PtrVector, // a new vector of pointers, and its index on the pointer stack
    StoreWord, // a word of the heap; two words of the main stack go, and one of the pointer stack: 84
    StorePointer, // a word of the heap; one word of the main stack goes, and two of the pointer stack: 85
}

// The writes of an instruction. Both stacks are cut to their new tops, then a word is written, a new object with its pointer, or nothing; what
// opens or closes a record of the control stack leaves both stacks as they are.
// One shape for all, also where a field says nothing: cases with fields of their own were slower in an earlier prototype (docs/DECISIONS.md).
#[derive(Clone, Copy)]
pub struct Put {
    pub into: Into,
    pub place: usize, // the next place
    pub mtop: usize, // the new top of the main stack
    pub ptop: usize, // the new top of the pointer stack
    pub at: usize, // the index of the word written; the main base of a new frame
    pub word: u32, // the word written; the pointer base of a new frame
}

// What an instruction is about to do: its writes, or the exception that it raises before any write.
#[derive(Clone, Copy)]
pub enum Plan {
    Write(Put),
    OutOfRange, // 1: a result outside the range of a word, or a divisor of 0
    NilObject, // 2: the object is nil
    NoSuchWord, // 3: no such word in the part asked for
    HeapFull, // 4: the heap has too few free words
    NoRoom, // 5: a frame or a handler does not fit the stacks
    VectorFault, // 6: no such element, a negative length, or an object of another kind
    Thrown, // the word that instruction 162 pops
    Real(usize), // an instruction on reals, which is done as a whole; the place behind its code
}

pub fn writes(into: Into, place: usize, mtop: usize, ptop: usize, at: usize, word: u32) -> Plan
    ensures { result ≡ write into place mtop ptop at word }
{
    Plan::Write(Put {
        into,
        place,
        mtop,
        ptop,
        at,
        word,
    })
}
