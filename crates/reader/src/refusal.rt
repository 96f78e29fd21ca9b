// Why a case is refused, and where: what every part of the reader answers with.
ghost use Rattle.std.specs.Prelude.{◌≡◌};
ghost use Rattle.reader.specs.Refusal.{number_of};

// What is wrong with a case, by the numbers that an answer gives it.
#[derive(Clone, Copy, Debug, PartialEq, Eq)]
pub enum Fault {
    // Fewer than 3 bytes.
    Short = 1,
    // Another version.
    Version = 2,
    // A length field that differs from the bytes given.
    Length = 3,
    // A count outside its limits.
    Count = 4,
    // A field that is not wholly there, or bytes that are left over.
    Missing = 5,
    // A cell that no case may hold.
    Cell = 6,
    // An instruction that no program may hold.
    Instruction = 7,
    // An item that no thread of the case has.
    Item = 8,
}

// The first thing that is wrong, and the place of the byte that shows it.
#[derive(Clone, Copy, Debug, PartialEq, Eq)]
pub struct Refusal {
    pub fault: Fault,
    pub place: usize,
}

impl From<Fault> for u32 {
    ghost from_gives = { λ fault number. number ≡ number_of fault };

    fn from(fault: Fault) -> u32 {
        fault as u32
    }
}

impl Fault {
    // The refusal of a case for this, at a place.
    pub fn at(self, place: usize) -> Refusal
        ensures { result ≡ record { fault = self; place = place } }
    {
        Refusal { fault: self, place }
    }
}
