// What a batch is judged for, and why it is refused.
#![tactic(auto)]

ghost use Rattle.std.specs.Prelude.{◌≡◌};
ghost use Rattle.chips.specs.Chips.{named_by};
ghost use Rattle.chips.specs.Refusals.{number_of_refusal};

#[derive(Clone, Copy, Debug, PartialEq, Eq)]
pub enum Chip {
    Gen6,
    Gen7,
}

// The refusals of a batch, each with the paper's number.
#[derive(Clone, Copy, Debug, PartialEq, Eq)]
pub enum Refusal {
    TooLong = 1,
    NoEnd = 2,
    UnknownCommand = 3,
    LengthField = 4,
    Truncated = 5,
    MustBeZero = 6,
    Alignment = 7,
    Order = 8,
    Capacity = 9,
    NoRoom = 10,
    PartialDword = 17,
    UnknownChip = 18,
    AlreadyAnswered = 19,
}

impl Refusal {
    pub fn number(self) -> u32
        ensures { result ≡ number_of_refusal self }
    {
        self as u32
    }
}

// What a batch is judged for: the chip, and the capacity lent, in rows.
#[derive(Clone, Copy, Debug, PartialEq, Eq)]
pub struct Target {
    pub chip: Chip,
    pub capacity: u32,
}

// The chip that a caller's number names.
impl TryFrom<u32> for Chip {
    type Error = Refusal;

    ghost try_from_gives = { λ number r. r ≡ named_by number };

    #[tactic(auto, using(crate::proofs::Chips::chip_names), unfolding(crate::specs::Chips::named_by))]
    fn try_from(number: u32) -> Result<Chip, Refusal> {
        match number {
            6 => Ok(Chip::Gen6),
            7 => Ok(Chip::Gen7),
            _ => Err(Refusal::UnknownChip),
        }
    }
}
