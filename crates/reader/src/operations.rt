// The operations, and which fields each uses: the one table that knows it. The reader looks it up, and so does whoever judges or writes an instruction.
ghost use Rattle.std.specs.Prelude.{◌≡◌};
ghost use Rattle.std.specs.Int.{from_bool};
ghost use Rattle.reader.specs.Operations.{uses_of, number_of, column_of, Numbered};

// The ten operations, by the numbers that a case gives them.
#[derive(Clone, Copy, Debug, PartialEq, Eq)]
pub enum Operation {
    Load = 1,
    StoreConstant,
    StoreRegister,
    Fence,
    CompareSwap,
    AcquireLocal,
    AcquireShared,
    Release,
    Branch,
    Add,
}

// A number that no operation has.
#[derive(Clone, Copy, Debug, PartialEq, Eq)]
pub struct UnknownOperation(pub u16);

// The fields of an instruction beside its operation: the columns of the table.
#[derive(Clone, Copy, Debug, PartialEq, Eq)]
pub enum Field {
    Cell,
    Register,
    Value,
}

// Whether an operation uses a field, which is zero where it does not. A row for each operation, in the order of their numbers.
const USES: [[bool; 3]; 10] = [
    [true, true, false], // Load
    [true, false, true], // StoreConstant
    [true, true, false], // StoreRegister
    [false, false, false], // Fence
    [true, true, true], // CompareSwap
    [true, false, false], // AcquireLocal
    [true, false, false], // AcquireShared
    [true, false, false], // Release
    [true, true, true], // Branch
    [false, true, true], // Add
];

impl Operation {
    // Whether the operation uses a field.
    #[tactic(auto, unfolding(crate::specs::Operations::uses_of))]
    pub fn uses(self, field: Field) -> bool
        ensures { from_bool result ≡ uses_of (number_of self) (column_of field) }
    {
        // `as` is what gives an enum's number; a `From` for each table index would say the same in more lines.
        USES[self as usize - 1][field as usize]
    }
}

// The operation of a number.
impl TryFrom<u16> for Operation {
    type Error = UnknownOperation;

    ghost try_from_gives = { Numbered };

    fn try_from(number: u16) -> Result<Self, UnknownOperation> {
        match number {
            1 => Ok(Self::Load),
            2 => Ok(Self::StoreConstant),
            3 => Ok(Self::StoreRegister),
            4 => Ok(Self::Fence),
            5 => Ok(Self::CompareSwap),
            6 => Ok(Self::AcquireLocal),
            7 => Ok(Self::AcquireShared),
            8 => Ok(Self::Release),
            9 => Ok(Self::Branch),
            10 => Ok(Self::Add),
            _ => Err(UnknownOperation(number)),
        }
    }
}
