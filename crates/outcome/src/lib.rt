// What issue and narrow hand out: a number and a length, and the room's content. Both are made of a result in one
// place, and a text is written whole or not at all.
#![tactic(auto)]

ghost use Rattle.std.specs.Prelude.{◌≡◌, ◌≤◌, length};
ghost use Rattle.basis.specs.Limits.{token_most};
ghost use Rattle.text_writing.specs.Base64url.{base64url};
ghost use Rattle.outcome.specs.Decisions.{Carried, Refusing, granted, outcome_of};

use answers::Answer;

// 0 and the text's length, or the number of the first check that fails and 0.
#[repr(C)]
#[derive(Clone, Copy)]
pub struct Outcome {
    pub answer: u32,
    pub length: u32,
}

impl From<Result<u32, Answer>> for Outcome {
    ghost from_gives = { λ made outcome. outcome ≡ outcome_of made };

    fn from(made: Result<u32, Answer>) -> Outcome {
        match made {
            Ok(length) => Outcome { answer: 0, length },
            Err(answer) => Outcome {
                answer: answer.into(),
                length: 0,
            },
        }
    }
}

// The text of a token's bytes, if the room holds it: its length.
pub fn write_text(bytes: &[u8], room: &mut [u8]) -> Result<u32, Answer>
    requires { length bytes.now ≤ token_most }
    ensures carried { Carried (granted (base64url bytes.now)) room.old (outcome_of result) room.new }
    ensures refusing { Refusing result }
{
    let Some(n) = text_writing::encode(bytes, room) else {
        return Err(Answer::OutShort);
    };
    Ok(n as u32)
}
