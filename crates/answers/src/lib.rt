// The one numbered list of answers: its cases, their numbers and their names.
#![tactic(auto)]

ghost use Rattle.std.specs.Prelude.{◌≡◌, Some, ok_or};
ghost use Rattle.std.specs.Fmt.{padded};
ghost use Rattle.answers.specs.Answers.{number_of, name_of, answer_of};

use std::fmt;

// Each answer has the number that stands beside it.
#[derive(Clone, Copy, Debug, PartialEq, Eq)]
pub enum Answer {
    Allow = 0,
    TableBad = 1,
    CtxBad = 2,
    ParseB64 = 3,
    ParseCbor = 4,
    ParseBounds = 5,
    SchemaUnknownField = 6,
    KidUnknown = 7,
    MacMismatch = 8,
    TenantMismatch = 9,
    CaveatMethod = 10,
    CaveatPath = 11,
    CaveatBytes = 12,
    CaveatExp = 13,
    CaveatNbf = 14,
    CaveatAud = 15,
    CaveatIp = 16,
    CaveatRate = 17,
    CaveatTenant = 18,
    CaveatAmnesia = 19,
    CaveatPolicyDigest = 20,
    CaveatCustomUnknown = 21,
    CavCbor = 31,
    CavBounds = 32,
    CavUnknown = 33,
    CavFull = 34,
    SizeFull = 35,
    OutShort = 36,
    HashBad = 37,
}

impl From<Answer> for u32 {
    ghost from_gives = { λ answer n. n ≡ number_of answer };

    fn from(answer: Answer) -> u32 {
        answer as u32
    }
}

// A number that no answer has.
#[derive(Clone, Copy, Debug, PartialEq, Eq)]
pub struct NoAnswer(pub u32);

impl TryFrom<u32> for Answer {
    type Error = NoAnswer;

    ghost try_from_gives = { λ n r. r ≡ ok_or (answer_of n) (record { 0 = n }) };

    #[tactic(auto, unfolding(crate::specs::Answers::answer_of))]
    fn try_from(n: u32) -> Result<Answer, NoAnswer> {
        match n {
            0 => Ok(Answer::Allow),
            1 => Ok(Answer::TableBad),
            2 => Ok(Answer::CtxBad),
            3 => Ok(Answer::ParseB64),
            4 => Ok(Answer::ParseCbor),
            5 => Ok(Answer::ParseBounds),
            6 => Ok(Answer::SchemaUnknownField),
            7 => Ok(Answer::KidUnknown),
            8 => Ok(Answer::MacMismatch),
            9 => Ok(Answer::TenantMismatch),
            10 => Ok(Answer::CaveatMethod),
            11 => Ok(Answer::CaveatPath),
            12 => Ok(Answer::CaveatBytes),
            13 => Ok(Answer::CaveatExp),
            14 => Ok(Answer::CaveatNbf),
            15 => Ok(Answer::CaveatAud),
            16 => Ok(Answer::CaveatIp),
            17 => Ok(Answer::CaveatRate),
            18 => Ok(Answer::CaveatTenant),
            19 => Ok(Answer::CaveatAmnesia),
            20 => Ok(Answer::CaveatPolicyDigest),
            21 => Ok(Answer::CaveatCustomUnknown),
            31 => Ok(Answer::CavCbor),
            32 => Ok(Answer::CavBounds),
            33 => Ok(Answer::CavUnknown),
            34 => Ok(Answer::CavFull),
            35 => Ok(Answer::SizeFull),
            36 => Ok(Answer::OutShort),
            37 => Ok(Answer::HashBad),
            _ => Err(NoAnswer(n)),
        }
    }
}

impl Answer {
    // The name on a line of a judged bundle.
    pub fn name(self) -> &'static str
        ensures { result.now ≡ name_of self }
    {
        match self {
            Answer::Allow => "allow",
            Answer::TableBad => "table.bad",
            Answer::CtxBad => "ctx.bad",
            Answer::ParseB64 => "parse.b64",
            Answer::ParseCbor => "parse.cbor",
            Answer::ParseBounds => "parse.bounds",
            Answer::SchemaUnknownField => "schema.unknown_field",
            Answer::KidUnknown => "kid.unknown",
            Answer::MacMismatch => "mac.mismatch",
            Answer::TenantMismatch => "tenant.mismatch",
            Answer::CaveatMethod => "caveat.method",
            Answer::CaveatPath => "caveat.path",
            Answer::CaveatBytes => "caveat.bytes",
            Answer::CaveatExp => "caveat.exp",
            Answer::CaveatNbf => "caveat.nbf",
            Answer::CaveatAud => "caveat.aud",
            Answer::CaveatIp => "caveat.ip",
            Answer::CaveatRate => "caveat.rate",
            Answer::CaveatTenant => "caveat.tenant",
            Answer::CaveatAmnesia => "caveat.amnesia",
            Answer::CaveatPolicyDigest => "caveat.policy_digest",
            Answer::CaveatCustomUnknown => "caveat.custom.unknown",
            Answer::CavCbor => "cav.cbor",
            Answer::CavBounds => "cav.bounds",
            Answer::CavUnknown => "cav.unknown",
            Answer::CavFull => "cav.full",
            Answer::SizeFull => "size.full",
            Answer::OutShort => "out.short",
            Answer::HashBad => "hash.bad",
        }
    }
}

impl fmt::Display for Answer {
    ghost output = { λ answer. Some (name_of answer) };

    ghost styled_output = { λ answer spec. Some (padded spec (name_of answer)) };

    fn fmt<W: fmt::Write>(&self, f: &mut fmt::Formatter<W>) -> fmt::Result {
        f.pad(self.name())
    }
}
