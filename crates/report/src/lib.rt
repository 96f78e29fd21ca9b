#![tactic(auto)]

// The program's output as text in a lent buffer: a line for the answer and, where the case ran, one for the values and one for the memory.
ghost use Rattle.std.specs.Prelude.{◌≡◌, ◌≤◌, length};
ghost use Rattle.report.specs.Text.{report};
ghost use Rattle.report.specs.Room.{report_room};
ghost use Rattle.report.specs.Puts.{Fronts};

mod page;

use page::Page;

// A word and a newline.
pub const WORD_BYTES: usize = 7;
// A blank, a minus sign and ten digits.
pub const ITEM_BYTES: usize = 12;
// The line of an answer, with two numbers of ten digits and one of twenty.
pub const ANSWER_BYTES: usize = 60;

// The report of an answer and the two lists, at the front of the buffer; the rest of the buffer stays. Gives back how long it is. The answer is
// handed over number by number: a struct of the report's own would be filled by each caller and taken apart again.
pub fn report(
    number: u32,
    place: usize,
    thread: u32,
    cells: usize,
    values: &[i32],
    memory: &[i32],
    out: &mut [u8],
) -> usize
    requires { report_room values.now memory.now ≤ length out.old }
    ensures { Fronts (report number place thread cells values.now memory.now) out.old result out.new }
{
    let mut page = Page::new(out);
    page.report(number, place, thread, cells, values, memory);
    page.len()
}
