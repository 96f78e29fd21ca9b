// Looking into a buffer: from its newest pending store back.
ghost use Rattle.std.specs.Prelude.{◌≡◌, ◌≤◌};
ghost use Rattle.reader.specs.Limits.{DEPTH};
ghost use Rattle.machine.specs.Buffer.{newest_in, forwarded};

use reader::state::{Pending, Queue};

// The value of the newest of these stores that is to a cell.
pub fn newest(pending: &[Pending], cell: u32) -> Option<i32>
    ensures { result ≡ newest_in pending.now cell }
{
    pending
        .iter()
        .rev()
        .find(|e| e.cell == cell)
        .map(|e| e.value)
}

// What a load of the cell gets, whose word in memory is given.
pub fn forwarded(q: &Queue, cell: u32, word: i32) -> i32
    requires { q.now.count ≤ DEPTH }
    ensures { result ≡ forwarded q.now cell word }
{
    newest(q.pending(), cell).unwrap_or(word)
}
