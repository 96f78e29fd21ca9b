// What an action does to the dirty flag and to the ownership table.
ghost use Rattle.std.specs.Prelude.{◌≡◌, ◌<◌};
ghost use Rattle.reader.specs.Limits.{THREADS};
ghost use Rattle.discipline.specs.Marks.{marks_of};

use crate::table::Held;
use machine::action::{Action, Sharing};

// What is held of an instruction's cell and of its thread's flag once it is taken. A store to any cell but an own local one sets the flag. An owner's number
// is cast, which is proved to lose nothing: `try_from` would bring an error that cannot come.
#[inline(always)]
#[tactic(auto, unfolding(crate::specs::Marks::stored_of, crate::specs::Marks::marks_of))]
pub fn marked(h: Held, t: usize, action: Action) -> Held
    requires { t < THREADS }
    ensures { result ≡ marks_of h t action }
{
    match action {
        Action::Store { .. } if h.is_own(t) && h.is_local() => h,
        Action::Store { .. } => Held { dirty: 1, ..h },
        Action::Fence | Action::Swap { .. } => Held { dirty: 0, ..h },
        Action::Acquire { sharing, .. } => Held {
            owner: (t + 1) as u8,
            sharing: sharing as u8,
            ..h
        },
        Action::Release { .. } => Held {
            owner: 0,
            sharing: Sharing::Shared as u8,
            ..h
        },
        Action::Read { .. } | Action::Silent { .. } | Action::End => h,
    }
}
