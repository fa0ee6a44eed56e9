ghost use Rattle.std.specs.Prelude.{◌≡◌};
ghost use Rattle.sour_syntax.specs.Trap.{trap_number};

/// Why a run ended before its program did. A user sees the number alone.
#[derive(Clone, Copy, Debug, PartialEq, Eq)]
pub enum Trap {
    /// An operand isn't of the kind that the operation needs.
    BadType,
    /// A number would be outside i64.
    Overflow,
    /// A number was to be divided by 0.
    ZeroDivisor,
    /// An index is outside an array, or the length of an array is negative.
    Bounds,
    /// What is called is no function.
    NotFunction,
    /// A function is called with too few or too many arguments.
    ArgCount,
    /// The arrays would have more than 4,194,304 cells together.
    HeapFull,
    /// No value of the input is left to read.
    InputEnd,
    /// The output would pass its limit of 1,048,576 bytes.
    OutputFull,
}

impl Trap {
    /// The number by which a trap is reported.
    pub fn number(self) -> u8
        ensures { result ≡ trap_number self }
    {
        match self {
            Trap::BadType => 1,
            Trap::Overflow => 2,
            Trap::ZeroDivisor => 3,
            Trap::Bounds => 4,
            Trap::NotFunction => 5,
            Trap::ArgCount => 6,
            Trap::HeapFull => 7,
            Trap::InputEnd => 8,
            Trap::OutputFull => 9,
        }
    }
}
