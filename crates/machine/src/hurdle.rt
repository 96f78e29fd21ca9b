// Why the machine does not take an item.
ghost use Rattle.std.specs.Prelude.{◌≡◌};
ghost use Rattle.machine.specs.Hurdle.{number_of};

// What holds an item back; the number is the description's.
#[derive(Clone, Copy, Debug, PartialEq, Eq)]
pub enum Hurdle {
    // The thread's program is at its end.
    AtEnd = 20,
    // FENCE or COMPARE-SWAP with pending stores.
    Waits = 21,
    // STORE with depth already reached.
    Full = 22,
    // Drain of an empty buffer.
    Empty = 23,
}

impl From<Hurdle> for u32 {
    ghost from_gives = { λ hurdle number. number ≡ number_of hurdle };

    fn from(hurdle: Hurdle) -> u32 {
        hurdle as u32
    }
}
