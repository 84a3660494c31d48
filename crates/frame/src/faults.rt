// The table of the documents' numbers: what is wrong with a reply, or why something is refused.
ghost use Rattle.std.specs.Prelude.{◌≡◌};
ghost use Rattle.frame.specs.Faults.{number_of};

// In the order of their numbers, from 1 on. Number 7 alone names a place, that of the first digit in no chart, counted from 0 at the top.
#[derive(Clone, Copy, PartialEq, Eq, Debug)]
pub enum Fault {
    Silent,
    WrongLength,
    NoStart,
    WrongAddress,
    WrongParity,
    FillSet,
    InNoChart(u8),
    OutOfRange,
    BadTemperature,
    BadSettings,
    BadAddress,
    NoSheet,
    SheetFull,
    BadForm,
    ShortOutput,
    NoPoll,
    Unknown,
    Twice,
    NoRow,
    BadTiming,
    Spoiled,
    SpoiledByByte,
    LongRound,
    LargeCount,
    ManyPairs,
    OutsideProfile,
    ProfileOn1800,
    RaiseOrReset,
    BadFraming,
    BadBlockCheck,
    BadAddresses,
    BadItem,
    ShortItem,
    LargeSite,
    NoPlan,
    WrongPlan,
    BadSummary,
    OutOfOrder,
}

impl Fault {
    // Its number in the documents.
    pub fn number(self) -> u8
        ensures { result ≡ number_of self }
    {
        match self {
            Fault::Silent => 1,
            Fault::WrongLength => 2,
            Fault::NoStart => 3,
            Fault::WrongAddress => 4,
            Fault::WrongParity => 5,
            Fault::FillSet => 6,
            Fault::InNoChart(_) => 7,
            Fault::OutOfRange => 8,
            Fault::BadTemperature => 9,
            Fault::BadSettings => 10,
            Fault::BadAddress => 11,
            Fault::NoSheet => 12,
            Fault::SheetFull => 13,
            Fault::BadForm => 14,
            Fault::ShortOutput => 15,
            Fault::NoPoll => 16,
            Fault::Unknown => 17,
            Fault::Twice => 18,
            Fault::NoRow => 19,
            Fault::BadTiming => 20,
            Fault::Spoiled => 21,
            Fault::SpoiledByByte => 22,
            Fault::LongRound => 23,
            Fault::LargeCount => 24,
            Fault::ManyPairs => 25,
            Fault::OutsideProfile => 26,
            Fault::ProfileOn1800 => 27,
            Fault::RaiseOrReset => 28,
            Fault::BadFraming => 29,
            Fault::BadBlockCheck => 30,
            Fault::BadAddresses => 31,
            Fault::BadItem => 32,
            Fault::ShortItem => 33,
            Fault::LargeSite => 34,
            Fault::NoPlan => 35,
            Fault::WrongPlan => 36,
            Fault::BadSummary => 37,
            Fault::OutOfOrder => 38,
        }
    }
}
