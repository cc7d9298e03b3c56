// Refusals: why a call is not carried out, with the document's number of each; and what a call by value gives.
#![tactic(auto)]

ghost use Rattle.std.specs.Prelude.{◌≡◌};
ghost use Rattle.order.specs.Order.{number_of, refused_by};

// The document's numbers are the discriminants.
#[derive(Clone, Copy, Debug, PartialEq, Eq)]
pub enum Refusal {
    Width = 1,
    Construction = 2,
    SheetShort = 3,
    NoToken = 4,
    NoWire = 5,
    AlreadyInside = 6,
    RunFull = 7,
    NotInside = 8,
    NotSound = 9,
    NoLayer = 10,
    HeadCut = 11,
    WrongLength = 12,
    UnknownKind = 13,
    OutOfPlace = 14,
    BadClose = 15,
    ScheduleLong = 16,
    NoRoom = 17,
    NestedTooDeep = 18,
    NoMembers = 19,
    Unequal = 20,
    NoPermutation = 21,
    PastLimits = 22,
    BodyCut = 23,
}

impl Refusal {
    pub fn number(self) -> u8
        ensures { result ≡ number_of self }
    {
        self as u8
    }
}

// The number of an answer's refusal, 0 where the call was carried out.
pub fn number_in<A: Drop>(answer: Result<A, Refusal>) -> u8
    ensures { result ≡ refused_by answer }
{
    match answer {
        Ok(_) => 0,
        Err(refusal) => refusal.number(),
    }
}

// What a call by value gives: the record after it, as it was where the call is refused, and the answer.
#[derive(Clone, Copy)]
pub struct After<S, A> {
    pub state: S,
    pub answer: Result<A, Refusal>,
}
