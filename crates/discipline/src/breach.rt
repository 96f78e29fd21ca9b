// Why an item is not taken, by the machine or by a rule.
ghost use Rattle.std.specs.Prelude.{◌≡◌};
ghost use Rattle.machine.specs.Hurdle.{number_of as hurdle_number};
ghost use Rattle.discipline.specs.Reason.{breach_number, number_of};
ghost use Rattle.discipline.specs.declared.breach.Reason.TheVariants.{Blocked, Broken};

use machine::hurdle::Hurdle;

// The rule that an instruction breaks; the number is the description's.
#[derive(Clone, Copy, Debug, PartialEq, Eq)]
pub enum Breach {
    // Load of another's local cell.
    LoadOfLocal = 30,
    // Load of a shared cell not one's own, dirty flag set.
    LoadWhileDirty = 31,
    // Store or COMPARE-SWAP to another's cell.
    StoreToOthers = 32,
    // ACQUIRE of an owned cell, one's own too.
    AcquireOfOwned = 33,
    // ACQUIRE with a store to it pending elsewhere.
    AcquireWhilePending = 34,
    // RELEASE of a cell not one's own.
    ReleaseOfOthers = 35,
    // RELEASE with pending stores.
    ReleaseWhilePending = 36,
}

// The machine holds it back, or a rule is broken.
#[derive(Clone, Copy, Debug, PartialEq, Eq)]
pub enum Reason {
    Blocked(Hurdle),
    Broken(Breach),
}

impl From<Breach> for u32 {
    ghost from_gives = { λ breach number. number ≡ breach_number breach };

    fn from(breach: Breach) -> u32 {
        breach as u32
    }
}

impl From<Hurdle> for Reason {
    ghost from_gives = { λ hurdle reason. reason ≡ Blocked hurdle };

    fn from(hurdle: Hurdle) -> Self {
        Reason::Blocked(hurdle)
    }
}

impl From<Breach> for Reason {
    ghost from_gives = { λ breach reason. reason ≡ Broken breach };

    fn from(breach: Breach) -> Self {
        Reason::Broken(breach)
    }
}

impl From<Reason> for u32 {
    ghost from_gives = { λ reason number. number ≡ number_of reason };

    fn from(reason: Reason) -> u32 {
        match reason {
            Reason::Blocked(hurdle) => u32::from(hurdle),
            Reason::Broken(breach) => u32::from(breach),
        }
    }
}
