#![tactic(auto)]

// From the bytes of a case to the bytes of its report. A program over cases is this and a way of reading them.
ghost use Rattle.std.specs.Prelude.{◌≡◌, ◌≤◌, length};
ghost use Rattle.reader.specs.Bytes.{byte};
ghost use Rattle.report.specs.Puts.{Fronts};
ghost use Rattle.report.specs.Room.{report_room};
ghost use Rattle.judge.specs.Output.{output_of};

use discipline::check;
use reader::state::State;

// Enough for the report of any case: lists of all items and of all cells, each number of them as long as it can be.
pub const SIZE: usize = report::ANSWER_BYTES
    + 2 * report::WORD_BYTES
    + report::ITEM_BYTES * (State::ITEMS + State::CELLS);

// How many cells a case has. The answer does not hold it; byte 4 of a case that ran does.
fn cells(case: &[u8]) -> usize
    ensures { result ≡ byte case.now 4 }
{
    case.get(4).map_or(0, |count| usize::from(*count))
}

// The report of a case, at the front of the buffer; gives back how long it is. The lists are lent for the check, and hold its values and
// memory afterwards.
#[tactic(auto, unfolding(crate::specs::Output::output_of))]
pub fn judged(case: &[u8], values: &mut [i32], memory: &mut [i32], out: &mut [u8]) -> usize
    requires { report_room values.old memory.old ≤ length out.old }
    ensures { Fronts (output_of case.now values.old memory.old) out.old result out.new }
{
    let answer = check::check(case, values, memory);
    report::report(
        answer.number,
        answer.place,
        answer.thread,
        cells(case),
        values,
        memory,
        out,
    )
}

// Writes the report of a case to standard output. Each case gets lists of its own, so that none can see what another left there.
pub fn told(case: &[u8]) {
    let mut values = [0i32; State::ITEMS];
    let mut memory = [0i32; State::CELLS];
    let mut out = [0u8; SIZE];
    let end = judged(case, &mut values, &mut memory, &mut out);
    io::write_all(1, &out[..end]);
}
