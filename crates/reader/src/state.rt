// The state of a run, its limits, and the moves of a queue row. What a thread does with them belongs to the machine.
ghost use Rattle.std.specs.Prelude.{◌≡◌, ◌<◌, ◌≤◌, get_or, length};
ghost use Rattle.reader.specs.Limits.{DEPTH};
ghost use Rattle.reader.specs.Queue.{pending, popped_of, pushed_of};
ghost use Rattle.reader.specs.State.{no_pending, no_queue, fresh_of};
ghost use Rattle.reader.specs.Drain.{Drainable, drained_of};

// A debugger lends a State over the C boundary: C layout, numbers only, and wide fields first, so that no byte of it is padding. It may lend any
// numbers, so none of these types can have an invariant: what has to hold of a state or a row stands in the contracts.

// A store that has not reached memory.
#[repr(C)]
#[derive(Clone, Copy)]
pub struct Pending {
    pub value: i32,
    pub cell: u32,
}

impl Pending {
    // What stands in a place of a row that holds no store.
    const NONE: Self = Pending { value: 0, cell: 0 };
}

// A thread's buffer: the first `count` entries are its pending stores, oldest first.
#[repr(C)]
#[derive(Clone, Copy)]
pub struct Queue {
    pub entries: [Pending; State::DEPTH],
    pub count: usize,
}

#[repr(C)]
#[derive(Clone, Copy)]
pub struct Instruction {
    pub value: i32,
    pub operation: u16,
    pub cell: u8,
    pub register: u8,
}

impl Instruction {
    // What stands in a place of a program that no case has filled.
    const NONE: Self = Instruction {
        value: 0,
        operation: 0,
        cell: 0,
        register: 0,
    };
}

// Thread t + 1 has row t of each array. Its instructions begin at t * INSTRUCTIONS of `code`, its registers at t * REGISTERS.
#[repr(C)]
#[derive(Clone, Copy)]
pub struct State {
    pub threads: usize,
    pub cells: usize,
    pub depth: usize,
    pub positions: [usize; State::THREADS],
    pub counts: [usize; State::THREADS],
    pub queues: [Queue; State::THREADS],
    pub code: [Instruction; State::THREADS * State::INSTRUCTIONS],
    pub registers: [i32; State::THREADS * State::REGISTERS],
    pub memory: [i32; State::CELLS],
    pub dirty: [u32; State::THREADS],
    pub owners: [u8; State::CELLS],
    pub sharing: [u8; State::CELLS],
}

impl Queue {
    // The row without any entry: zero everywhere.
    pub fn empty() -> Self
        ensures { result ≡ no_queue }
    {
        Queue {
            entries: [Pending::NONE; State::DEPTH],
            count: 0,
        }
    }

    // The pending stores, oldest first.
    pub fn pending(&self) -> &[Pending]
        requires { self.now.count ≤ DEPTH }
        ensures stores { result.now ≡ pending self.now }
        ensures many { length result.now ≡ self.now.count }
    {
        &self.entries[..self.count]
    }

    // One more entry, behind the others.
    pub fn push(&mut self, e: Pending)
        requires { self.old.count < DEPTH }
        ensures { self.new ≡ pushed_of self.old e }
    {
        self.entries[self.count] = e;
        self.count += 1;
    }

    // Takes the oldest entry out: later ones move up, the vacated place is zeroed. They come from a copy of the row, since a move within it needs `memmove`.
    #[tactic(auto, using(crate::proofs::Shift::shifted_up))]
    pub fn pop(&mut self) -> Pending
        requires { (0 < self.old.count) × (self.old.count ≤ DEPTH) }
        ensures oldest { result ≡ get_or self.old.entries 0 no_pending }
        ensures left { self.new ≡ popped_of self.old }
    {
        let stores = self.entries;
        let last = self.count - 1;
        self.entries[..last].copy_from_slice(&stores[1..last + 1]);
        self.entries[last] = Pending::NONE;
        self.count = last;
        stores[0]
    }
}

impl State {
    pub const THREADS: usize = 4;

    pub const CELLS: usize = 32;

    pub const REGISTERS: usize = 4;

    pub const DEPTH: usize = 8;

    pub const INSTRUCTIONS: usize = 32;

    pub const ITEMS: usize = 1024;

    // The state before anything was read into it: the smallest sizes, and zero everywhere else.
    pub fn fresh() -> Self
        ensures { result ≡ fresh_of }
    {
        State {
            threads: 1,
            cells: 1,
            depth: 1,
            positions: [0; State::THREADS],
            counts: [0; State::THREADS],
            queues: [Queue::empty(); State::THREADS],
            code: [Instruction::NONE; State::THREADS * State::INSTRUCTIONS],
            registers: [0; State::THREADS * State::REGISTERS],
            memory: [0; State::CELLS],
            dirty: [0; State::THREADS],
            owners: [0; State::CELLS],
            sharing: [0; State::CELLS],
        }
    }

    // Draining moves the oldest pending store of row t into memory.
    #[tactic(auto, unfolding(crate::specs::Drain::drained_of))]
    pub fn drain(&mut self, t: usize)
        requires { Drainable self.old t }
        ensures { self.new ≡ drained_of self.old t }
    {
        let oldest = self.queues[t].pop();
        // `as`, since no `From` leads from u32 to usize.
        self.memory[oldest.cell as usize] = oldest.value;
    }

    // The same by value: the form that the rules of this project name for a drain.
    pub fn drained(self, t: usize) -> State
        requires { Drainable self t }
        ensures { result ≡ drained_of self t }
    {
        let mut next = self;
        next.drain(t);
        next
    }
}
