// What may be wrong with what is read: one of three kinds (document 01, "Numbers and names"), and the place of the item
// at fault. A reading gives what it read, or the first defect.

ghost use Rattle.std.specs.Prelude.{◌≡◌};
ghost use Rattle.cbor_heads.specs.Defects.{kind_answer, numbered};

use answers::Answer;

#[derive(Clone, Copy, Debug, PartialEq, Eq)]
pub enum Kind {
    Cbor,
    Bounds,
    Unknown,
}

#[derive(Clone, Copy, Debug, PartialEq, Eq)]
pub struct Defect {
    pub kind: Kind,
    pub at: usize,
}

pub type Reading<T> = Result<T, Defect>;

// A defect as a caller with numbers of its own is told it.
#[derive(Clone, Copy, Debug, PartialEq, Eq)]
pub struct NumberedDefect {
    pub number: u32,
    pub at: usize,
}

impl From<Kind> for Answer {
    ghost from_gives = { λ kind answer. answer ≡ kind_answer kind };

    fn from(kind: Kind) -> Answer {
        match kind {
            Kind::Cbor => Answer::ParseCbor,
            Kind::Bounds => Answer::ParseBounds,
            Kind::Unknown => Answer::SchemaUnknownField,
        }
    }
}

// The place is not told by document 01's answers.
impl From<Defect> for Answer {
    ghost from_gives = { λ defect answer. answer ≡ kind_answer defect.kind };

    fn from(defect: Defect) -> Answer {
        defect.kind.into()
    }
}

// Too large a count has the caller's number, any other defect document 01's.
pub fn numbered(defect: Defect, above: u32) -> NumberedDefect
    ensures { result ≡ numbered above defect }
{
    let number = match defect.kind {
        Kind::Bounds => above,
        kind => Answer::from(kind).into(),
    };
    NumberedDefect {
        number,
        at: defect.at,
    }
}
