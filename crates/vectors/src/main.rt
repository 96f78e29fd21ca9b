#![tactic(auto)]

// The program: judges every case of a bundle on standard input and writes their reports to standard output, one behind the other.
// A bundle is any number of cases, each behind its length in four bytes.
ghost use Rattle.std.specs.Prelude.{◌≤◌};

mod prefix;

// Every loop has to end, whatever is read; no file holds so many cases.
const MOST_CASES: u32 = u32::MAX;

// The input ends within a case or its length.
struct CutShort;

// The length of the next case; none where the bundle ends.
fn next_length() -> Result<Option<usize>, CutShort> {
    let mut head = [0u8; 4];
    match io::read_full(0, &mut head) {
        0 => Ok(None),
        4 => Ok(Some(prefix::length(&head))),
        _ => Err(CutShort),
    }
}

// Judges the first bytes of a case that is so long, as many as the program on standard input looks at, and goes on behind the others.
fn judge_next(length: usize) -> Result<(), CutShort> {
    let mut input = io::large_buffer();
    let seen = prefix::seen(length);
    if io::read_full(0, &mut input[..seen]) < seen {
        return Err(CutShort);
    }
    judge::told(&input[..seen]);
    pass_over(length - seen);
    Ok(())
}

// Goes on behind so many bytes, or to the end of the input. A `while`, since it ends with the bytes or with the input, whichever comes first: a `for`
// would need a count of turns and a test of its own for the last one.
fn pass_over(bytes: usize) {
    let mut left = bytes;
    while left > 0 {
        let n = dropped(left);
        if n == 0 {
            return;
        }
        left -= n;
    }
}

// Reads some of so many bytes, and keeps none of them. Gives back how many; none at the end of the input.
fn dropped(left: usize) -> usize
    ensures { result ≤ left }
{
    let mut scratch = io::buffer();
    let most = left.min(scratch.len());
    io::read_full(0, &mut scratch[..most])
}

fn judge_all() -> Result<(), CutShort> {
    for _ in 0..MOST_CASES {
        let Some(length) = next_length()? else {
            break;
        };
        judge_next(length)?;
    }
    Ok(())
}

// Where the bundle is cut short, the reports that are missing tell the rest.
fn main() {
    if let Err(CutShort) = judge_all() {
        io::write_all(2, b"vectors: the bundle is cut short\n");
    }
}
