// The check of a whole case: read it, see that the lent lists are long enough, run it, and give back what it brought.
ghost use Rattle.std.specs.Prelude.{◌≡◌};
ghost use Rattle.discipline.specs.declared.check.NotRun.TheVariants.{Malformed};
ghost use Rattle.discipline.specs.Check.{answer, thread_of, not_run_of, told_of, Checks};
ghost use Rattle.discipline.specs.Reason.{number_of};

use crate::breach::Reason;
use crate::run;
use reader::refusal::Refusal;

// Three numbers, as C sees them: the number of a reason, or 0; the place; and the thread that has a part in it, or 0.
#[repr(C)]
#[derive(Clone, Copy, Debug, PartialEq, Eq)]
pub struct Answer {
    pub place: usize,
    pub number: u32,
    pub thread: u32,
}

impl Answer {
    // An answer in which no thread has a part.
    pub fn of(number: u32, place: usize) -> Self
        ensures { result ≡ answer number place 0 }
    {
        Answer {
            place,
            number,
            thread: 0,
        }
    }

    // What stopped an item, after so many that were taken.
    pub fn stopped(reason: Reason, place: usize, item: u8) -> Self
        ensures { result ≡ answer (number_of reason) place (thread_of item) }
    {
        Answer {
            place,
            number: u32::from(reason),
            thread: thread(item),
        }
    }
}

// The thread that an item is about. Of byte 0, which is no item, it is 0: so this asks the byte and not `Item`, which has no such row.
pub fn thread(item: u8) -> u32
    ensures { result ≡ thread_of item }
{
    u32::from(if item >= 17 { item - 16 } else { item })
}

// Why a case is not run.
#[derive(Clone, Copy, Debug, PartialEq, Eq)]
pub enum NotRun {
    Malformed(Refusal),
    ListTooShort,
}

impl From<Refusal> for NotRun {
    ghost from_gives = { λ refusal why. why ≡ Malformed refusal };

    fn from(refusal: Refusal) -> Self {
        NotRun::Malformed(refusal)
    }
}

impl From<NotRun> for Answer {
    ghost from_gives = { λ why result. result ≡ not_run_of why };

    fn from(why: NotRun) -> Self {
        match why {
            NotRun::Malformed(refusal) => Answer::of(u32::from(refusal.fault), refusal.place),
            NotRun::ListTooShort => Answer::of(9, 0),
        }
    }
}

// What comes of a well-formed case whose lists are long enough. Else nothing is written to a list.
fn judged(case: &[u8], values: &mut [i32], memory: &mut [i32]) -> Result<Answer, NotRun>
    ensures { Checks case.now values.old memory.old (told_of result) values.new memory.new }
{
    let read = reader::read(case)?;
    let mut state = read.state;
    let cells = state.cells;
    if values.len() < read.items || memory.len() < cells {
        return Err(NotRun::ListTooShort);
    }
    let ended = run::ran(&mut state, &case[read.start..], values);
    memory[..cells].copy_from_slice(&state.memory[..cells]);
    Ok(match ended.stopped {
        None => Answer::of(0, ended.place),
        Some(reason) => Answer::stopped(reason, ended.place, case[read.start + ended.place]),
    })
}

// The answer of any byte string. Nothing is written to a list unless the case is well-formed and both lists are long enough.
pub fn check(case: &[u8], values: &mut [i32], memory: &mut [i32]) -> Answer
    ensures { Checks case.now values.old memory.old result values.new memory.new }
{
    match judged(case, values, memory) {
        Ok(answer) => answer,
        Err(why) => Answer::from(why),
    }
}
