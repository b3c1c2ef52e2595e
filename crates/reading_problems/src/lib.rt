// Who sends a problem code (01, "Coding"). A kind is the problem's tag less 128.
#![tactic(auto)]

ghost use Rattle.std.specs.Prelude.{◌≡◌};
ghost use Rattle.paper.specs.Problems.{sender_of};
ghost use Rattle.reading_problems.specs.Parties.{party_number};

// "component sub-layer" or "user"
#[derive(Clone, Copy, PartialEq, Eq)]
pub enum Party {
    SubLayer,
    User,
}

const LAYER: u8 = 0;

const USER: u8 = 1;

const NOBODY: u8 = 2;

// The nineteen codes by kind: general 0 to 2, invoke 0 to 7, result 0 to 2, error 0 to 4.
// Stays: octets, since a table of Option<Party> is made anew at each use: 128 dialogues with 8 rejects each took 63,642 instructions for 38,825.
const SENDERS: [[u8; 8]; 4] = [
    [LAYER, LAYER, LAYER, NOBODY, NOBODY, NOBODY, NOBODY, NOBODY],
    [USER, USER, USER, USER, USER, LAYER, USER, USER],
    [LAYER, LAYER, USER, NOBODY, NOBODY, NOBODY, NOBODY, NOBODY],
    [LAYER, LAYER, USER, USER, USER, NOBODY, NOBODY, NOBODY],
];

// Stays: kind and code are numbers, as `sender_of` of paper/specs/Problems takes them; `as`, since no `From` makes a usize of a u32.
#[tactic(auto, unfolding(paper::specs::Problems::sender_of, laws::specs::If::if_lt, laws::specs::If::if_eq))]
pub fn sender(kind: u32, code: u32) -> Option<Party>
    ensures { party_number result ≡ sender_of kind code }
{
    if kind >= 4 || code >= 8 {
        return None;
    }
    match SENDERS[kind as usize][code as usize] {
        LAYER => Some(Party::SubLayer),
        USER => Some(Party::User),
        _ => None,
    }
}
