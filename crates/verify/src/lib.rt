// Tokens judged: verify takes any bytes, judges them itself, and gives an answer of the one list, in
// document 01's order.
#![tactic(auto)]

ghost use Rattle.std.specs.Prelude.{◌≡◌, ◌≤◌, length};
ghost use Rattle.basis.specs.Limits.{token_most};
ghost use Rattle.answers.specs.Answers.{number_of};
ghost use Rattle.verify.specs.Verifying.{bytes_judged, text_judged, verify_of};

use answers::Answer;
use basis::limits;
use records_request::RequestAt;

fn judge_bytes(table: &[u8], s: &[u8], body: &[u8], request: RequestAt) -> Answer
    requires { length s.now ≤ token_most }
    ensures { number_of result ≡ bytes_judged table.now s.now body.now request }
{
    match token::read_token(s) {
        Err(defect) => defect.into(),
        Ok(token) => {
            let tid = token.tid;
            let kid = token.kid;
            let key = records_table::find(table, basis::lend(s, tid), basis::lend(s, kid));
            if key.len() != limits::KEY_LENGTH {
                return Answer::KidUnknown;
            }
            verify_walk::with_key(key, s, token, body, request)
        }
    }
}

fn judge_text(table: &[u8], text: &[u8], body: &[u8], request: RequestAt) -> Answer
    ensures { number_of result ≡ text_judged table.now text.now body.now request }
{
    if limits::TEXT_MOST < text.len() {
        return Answer::ParseBounds;
    }
    let mut room: [u8; 4096] = [0; 4096];
    match text_reading::decode(text, &mut room) {
        Err(undecoded) => undecoded.into(),
        Ok(n) => judge_bytes(table, &room[0..n], body, request),
    }
}

#[tactic(auto, unfolding(crate::specs::Verifying::verify_of, crate::specs::Verifying::request_judged))]
pub fn verify(table: &[u8], request: &[u8], token: &[u8]) -> Answer
    ensures { number_of result ≡ verify_of table.now request.now token.now }
{
    if !records_table::table_ok(table) {
        return Answer::TableBad;
    }
    match records_request::read_request(request) {
        None => Answer::CtxBad,
        Some(asked) => judge_text(table, token, request, asked),
    }
}
