// A page of text in a lent buffer, written from the front on. Not by `write!`: the library does not say that what it calls succeeds where every
// `write_str` does, and a report cannot fail.
ghost use Rattle.std.specs.Prelude.{◌≡◌, ◌≤◌, length, take};
ghost use Rattle.report.specs.Text.{answer_line, has_run, line, lists, named, natural, report, signed};
ghost use Rattle.report.specs.Puts.{Fitting, Puts, Leaves, PutsWithin};
ghost use Rattle.report.specs.Room.{line_room, lists_room, report_room};

use itoa::Buffer;

// The buffer, and the place behind what is written. No invariant says that a text fits: each method asks for the room of its own text.
#[derive(Drop)]
pub struct Page<'a> {
    out: &'a mut [u8],
    at: usize,
}

impl<'a> Page<'a> {
    pub fn new(out: &'a mut [u8]) -> Self
        ensures buffer { result.out.ghost_name ≡ out.entry.ghost_name }
        ensures kept { result.out.now ≡ out.old }
        ensures empty { result.at ≡ 0 }
    {
        Self { out, at: 0 }
    }

    // How many bytes are written.
    pub fn len(&self) -> usize
        ensures { result ≡ self.now.at }
    {
        self.at
    }

    // The line of the answer and, where the case ran, those of the two lists.
    pub fn report(
        &mut self,
        number: u32,
        place: usize,
        thread: u32,
        cells: usize,
        values: &[i32],
        memory: &[i32],
    )
        requires { Leaves self.old (report_room values.now memory.now) }
        ensures { PutsWithin (report number place thread cells values.now memory.now) (report_room values.now memory.now) self.old self.new }
    {
        self.answer(number, place, thread);
        if has_run(number) {
            self.lists(place, cells, values, memory);
        }
    }

    // `as` for the place, since no `From` leads from usize to u64.
    fn answer(&mut self, number: u32, place: usize, thread: u32)
        requires { Fitting self.old (answer_line number place thread) }
        ensures { Puts (answer_line number place thread) self.old self.new }
    {
        self.named("answer ", u64::from(number));
        self.named(" at ", place as u64);
        self.named(" thread ", u64::from(thread));
        self.text("\n");
    }

    // The line of the values, as many as the place says, and that of the memory.
    fn lists(&mut self, place: usize, cells: usize, values: &[i32], memory: &[i32])
        requires { Leaves self.old (lists_room values.now memory.now) }
        ensures { PutsWithin (lists place cells values.now memory.now) (lists_room values.now memory.now) self.old self.new }
    {
        self.line("values", first(values, place));
        self.line("memory", first(memory, cells));
    }

    // A word, and each number after one blank.
    fn line(&mut self, word: &str, numbers: &[i32])
        requires { Leaves self.old (line_room word.now numbers.now) }
        ensures { PutsWithin (line word.now numbers.now) (line_room word.now numbers.now) self.old self.new }
    {
        self.text(word);
        for number in numbers {
            self.text(" ");
            self.signed(*number);
        }
        self.text("\n");
    }

    // A word and a number behind it.
    #[tactic(auto, unfolding(crate::specs::Text::named), using(crate::proofs::Parts::first_fits, crate::proofs::Parts::next_fits))]
    fn named(&mut self, word: &str, n: u64)
        requires { Fitting self.old (named word.now n) }
        ensures { Puts (named word.now n) self.old self.new }
    {
        self.text(word);
        self.natural(n);
    }

    #[tactic(auto, using(crate::proofs::Decimal::natural_is_decimal))]
    fn natural(&mut self, n: u64)
        requires { Fitting self.old (natural n) }
        ensures { Puts (natural n) self.old self.new }
    {
        self.text(Buffer::new().format(n));
    }

    #[tactic(auto, using(crate::proofs::Decimal::signed_is_decimal))]
    fn signed(&mut self, x: i32)
        requires { Fitting self.old (signed x) }
        ensures { Puts (signed x) self.old self.new }
    {
        self.text(Buffer::new().format(x));
    }

    fn text(&mut self, text: &str)
        requires { Fitting self.old text.now }
        ensures { Puts text.now self.old self.new }
    {
        let end = self.at + text.len();
        self.out[self.at..end].copy_from_slice(text.as_bytes());
        self.at = end;
    }
}

// The first n numbers, or all of them where there are fewer.
fn first(numbers: &[i32], n: usize) -> &[i32]
    ensures value { result.now ≡ take n numbers.now }
    ensures short { length result.now ≤ length numbers.now }
{
    &numbers[..n.min(numbers.len())]
}

// Whether the answer is that of a case that ran, so that lists are written.
fn has_run(number: u32) -> bool
    ensures { result ≡ has_run number }
{
    matches!(number, 0 | 20..)
}
