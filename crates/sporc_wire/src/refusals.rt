//! Refusals as two numbers.

ghost use Rattle.std.specs.Prelude.{◌≡◌, ◌^◌, ◌<◌, find, ◌==◌};
ghost use Rattle.sporc_head.specs.Refusal.{refusal_code_of};
ghost use Rattle.sporc_wire.specs.Refusals.{refusal_detail_of, plain_refusals, refusal_with};

use sporc_head::Refusal;
use sporc_member::ChangeFault;

// What stands beside the number of a refusal's check.
pub(crate) fn detail_of(refusal: Refusal) -> u32
    requires { refusal_detail_of refusal < 2 ^ 32 }
    ensures { result ≡ refusal_detail_of refusal }
{
    match refusal {
        Refusal::Malformed(at) => at as u32,
        Refusal::BadChange(fault) => u32::from(fault.code()),
        _ => 0,
    }
}

// The refusal with these two numbers.
#[tactic(auto, unfolding(crate::specs::Refusals::refusal_with))]
pub(crate) fn refusal_with(code: u8, detail: u32) -> Option<Refusal>
    ensures { result ≡ refusal_with code detail }
{
    match code {
        1 => Some(Refusal::Malformed(detail as usize)),
        18 => Some(Refusal::BadChange(ChangeFault::from_code(detail)?)),
        _ if detail == 0 => plain(code),
        _ => None,
    }
}

// The refusal with no detail that has this number.
fn plain(code: u8) -> Option<Refusal>
    ensures { result ≡ find (λ r. refusal_code_of r == code) plain_refusals }
{
    match code {
        2 => Some(Refusal::WrongDocument),
        3 => Some(Refusal::WrongPosition),
        4 => Some(Refusal::Removed),
        5 => Some(Refusal::HistoryFull),
        6 => Some(Refusal::UnknownAuthor),
        7 => Some(Refusal::BaseAhead),
        8 => Some(Refusal::BeforeBarrier),
        9 => Some(Refusal::WrongHistory),
        10 => Some(Refusal::WrongNumber),
        11 => Some(Refusal::BehindOwn),
        12 => Some(Refusal::WrongEpoch),
        13 => Some(Refusal::NoRight),
        14 => Some(Refusal::LeafMismatch),
        15 => Some(Refusal::BadSignature),
        16 => Some(Refusal::BadPayload),
        17 => Some(Refusal::WrongLength),
        19 => Some(Refusal::WrongWraps),
        20 => Some(Refusal::NoKey),
        21 => Some(Refusal::WrongKey),
        22 => Some(Refusal::WrongVersion),
        23 => Some(Refusal::UnknownDevice),
        _ => None,
    }
}
