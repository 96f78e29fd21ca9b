// An item of a schedule: which row takes its next instruction, or drains its oldest pending store.
ghost use Rattle.std.specs.Prelude.{◌≡◌};
ghost use Rattle.reader.specs.Rules.{item_of};

#[derive(Clone, Copy, Debug, PartialEq, Eq)]
pub enum Item {
    Take(usize),
    Drain(usize),
}

// Of any byte; whether it is an item of so many threads is judged in rules.
impl From<u8> for Item {
    ghost from_gives = { λ byte item. item ≡ item_of byte };

    fn from(byte: u8) -> Self {
        if byte >= 17 {
            Item::Drain(usize::from(byte - 17))
        } else {
            Item::Take(usize::from(byte.saturating_sub(1)))
        }
    }
}
