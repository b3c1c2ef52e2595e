// Octets given by a user (01, answers 11 and 12): one well-formed element of its kind, and not over 240 octets. Slices of any length.
#![tactic(auto)]

ghost use Rattle.std.specs.Prelude.{◌≡◌, ◌+◌, ◌≤◌, length};
ghost use Rattle.paper.specs.Sizes.{most_waiting};
ghost use Rattle.paper.specs.Elements.{is_element};
ghost use Rattle.paper.specs.Dialogues.{is_code, is_parameter, is_result, is_portion, is_name, is_block, is_information, unplaced};
ghost use Rattle.paper.specs.declared.PduKind.TheVariants.{Abort};
ghost use Rattle.paper.specs.Refusals.{answer_of, pdu_number};
ghost use Rattle.paper.specs.Portions.{portion_by};
ghost use Rattle.writing_portions.specs.Forms.{form_for};
ghost use Rattle.call_given.specs.Pieces.{is_tagged, over_by, pieces_refusal, both_refusal};
ghost use Rattle.call_given.specs.Portion.{malformed, refusal_of};

use paper::{DIALOGUE_ACTIVE, MOST_WAITING, PduKind, Refusal};

// One well-formed element, with so many depths to go.
pub fn is_element(l: &[u8], left: usize) -> bool
    ensures { result ≡ is_element left l.now }
{
    let n = l.len();
    match reading_elements::element(l, left, n, 0) {
        Ok(e) => e == n,
        Err(_) => false,
    }
}

// An operation or an error.
#[tactic(auto, unfolding(paper::specs::Dialogues::is_code, laws::specs::If::if_eq))]
pub fn is_code(l: &[u8]) -> bool
    ensures { result ≡ is_code l.now }
{
    reading_components::code_end(l, l.len(), 0) == Some(l.len())
}

// A parameter of an invoke or error, or none.
#[tactic(auto, unfolding(paper::specs::Dialogues::is_parameter, laws::specs::If::if_eq))]
pub fn is_parameter(l: &[u8]) -> bool
    ensures { result ≡ is_parameter l.now }
{
    l.is_empty() || is_element(l, 15)
}

// "only one of a result's operation and parameter" is wrong.
#[tactic(auto, unfolding(paper::specs::Dialogues::is_result, laws::specs::If::if_eq, laws::specs::If::if_b))]
pub fn is_result(op: &[u8], par: &[u8]) -> bool
    ensures { result ≡ is_result op.now par.now }
{
    if op.is_empty() {
        par.is_empty()
    } else {
        is_code(op) && is_element(par, 14)
    }
}

// One well-formed element of that tag, with so many depths to go.
#[tactic(auto, unfolding(crate::specs::Pieces::is_tagged, laws::specs::If::if_eq))]
fn is_tagged(l: &[u8], tag: u8, left: usize) -> bool
    ensures { result ≡ is_tagged tag left l.now }
{
    !l.is_empty() && l[0] == tag && is_element(l, left)
}

// A dialogue portion: "a whole 6B element or none".
#[tactic(auto, unfolding(paper::specs::Dialogues::is_portion, crate::specs::Pieces::is_tagged, laws::specs::If::if_eq))]
pub fn is_portion(l: &[u8]) -> bool
    ensures { result ≡ is_portion l.now }
{
    l.is_empty() || is_tagged(l, 0x6B, 16)
}

// A context name (02 a): "one 06 element", of at least 1 octet, or none.
#[tactic(auto, unfolding(paper::specs::Dialogues::is_name, laws::specs::If::if_eq))]
pub fn is_name(l: &[u8]) -> bool
    ensures { result ≡ is_name l.now }
{
    l.is_empty() || l[0] == 6 && is_code(l)
}

// User information (02 a): "one BE element", at depth 5 in its portion.
#[tactic(auto, unfolding(paper::specs::Dialogues::is_block, crate::specs::Pieces::is_tagged, laws::specs::If::if_eq))]
pub fn is_block(l: &[u8]) -> bool
    ensures { result ≡ is_block l.now }
{
    is_tagged(l, 0xBE, 12)
}

// User information, or none.
#[tactic(auto, unfolding(paper::specs::Dialogues::is_information, laws::specs::If::if_eq))]
pub fn is_information(l: &[u8]) -> bool
    ensures { result ≡ is_information l.now }
{
    l.is_empty() || is_block(l)
}

// Stays: `n ≤ most_waiting` stands in the clauses of each: n is what table_places::waiting_length promises of a usize; a type with that bound would be made and opened at each of its uses.
// "waiting components .. over 240 octets": whether so many more go with the n that wait.
#[tactic(auto, unfolding(laws::specs::If::if_lt))]
pub fn over_by(n: usize, size: usize) -> Result<(), Refusal>
    requires { n ≤ most_waiting }
    ensures { answer_of result ≡ over_by n size }
{
    if size > MOST_WAITING - n {
        return Err(Refusal::TooLong);
    }
    Ok(())
}

// Of an invoke or an error where n octets wait: 11 or 12. `front` octets stand before the operation or error.
#[tactic(auto, unfolding(crate::specs::Pieces::pieces_refusal, laws::specs::If::if_b, laws::specs::If::if_lt))]
pub fn pieces_refusal(n: usize, front: usize, code: &[u8], par: &[u8]) -> Result<(), Refusal>
    requires { (n ≤ most_waiting) × (front ≤ 6) }
    ensures { answer_of result ≡ pieces_refusal n front code.now par.now }
{
    if !is_code(code) || !is_parameter(par) {
        return Err(Refusal::WrongOctets);
    }
    if code.len() > MOST_WAITING || par.len() > MOST_WAITING {
        return Err(Refusal::TooLong);
    }
    over_by(
        n,
        writing_octets::element_size(front + code.len() + par.len()),
    )
}

// Of a result.
#[tactic(auto, unfolding(crate::specs::Pieces::both_refusal, laws::specs::If::if_b, laws::specs::If::if_lt))]
pub fn both_refusal(n: usize, op: &[u8], par: &[u8]) -> Result<(), Refusal>
    requires { n ≤ most_waiting }
    ensures { answer_of result ≡ both_refusal n op.now par.now }
{
    if !is_result(op, par) {
        return Err(Refusal::WrongOctets);
    }
    if op.len() > MOST_WAITING || par.len() > MOST_WAITING {
        return Err(Refusal::TooLong);
    }
    over_by(n, writing_components::result_size(op, par))
}

// A context name and user information, given with a sending (02 a); none of one is no octets.
#[derive(Clone, Copy)]
pub struct Given<'a> {
    pub name: &'a [u8],
    pub information: &'a [u8],
}

// "14, either given with continue or end in Active, or user information without a name" (02 a).
#[tactic(auto, unfolding(paper::specs::Dialogues::unplaced, laws::specs::If::if_eq))]
fn unplaced_by(state: u8, given: Given) -> Result<(), Refusal>
    ensures { answer_of result ≡ unplaced state given.entry.name.now given.entry.information.now }
{
    if given.name.is_empty() && !given.information.is_empty() {
        return Err(Refusal::WrongPortion);
    }
    if !given.name.is_empty() && state == DIALOGUE_ACTIVE {
        return Err(Refusal::WrongPortion);
    }
    Ok(())
}

// A name or information that is not one well-formed element of its kind (11).
#[tactic(auto, unfolding(crate::specs::Portion::malformed, laws::specs::If::if_b))]
fn malformed_by(given: Given) -> Result<(), Refusal>
    ensures { answer_of result ≡ malformed given.entry.name.now given.entry.information.now }
{
    if !is_name(given.name) || !is_information(given.information) {
        return Err(Refusal::WrongOctets);
    }
    Ok(())
}

// "The 240 octets .. count the portion too" (12), with any PDU but an ABRT.
fn overfull_by(n: usize, kind: PduKind, given: Given) -> Result<(), Refusal>
    requires { (n ≤ most_waiting) × (kind ≡ Abort → ⊥) }
    ensures { answer_of result ≡ over_by n (length (portion_by (form_for (pdu_number kind)) given.entry.name.now given.entry.information.now)) }
{
    if given.name.len() > MOST_WAITING || given.information.len() > MOST_WAITING {
        return Err(Refusal::TooLong);
    }
    let size = writing_portions::portion_size(kind, given.name.len(), given.information.len());
    over_by(n, size)
}

// Of a name and information of which one is given: "14 .. after 12", which is after 11.
fn formed_refusal(n: usize, state: u8, kind: PduKind, given: Given) -> Result<(), Refusal>
    requires { (n ≤ most_waiting) × (kind ≡ Abort → ⊥) }
    ensures { answer_of result ≡ refusal_of n state (pdu_number kind) given.entry.name.now given.entry.information.now }
{
    malformed_by(given)?;
    overfull_by(n, kind, given)?;
    unplaced_by(state, given)
}

// Of a name and information where n octets wait: none given, none refused, by two tests.
pub fn portion_refusal(n: usize, state: u8, kind: PduKind, given: Given) -> Result<(), Refusal>
    requires { (n ≤ most_waiting) × (kind ≡ Abort → ⊥) }
    ensures { answer_of result ≡ refusal_of n state (pdu_number kind) given.entry.name.now given.entry.information.now }
{
    if given.name.is_empty() && given.information.is_empty() {
        return Ok(());
    }
    formed_refusal(n, state, kind, given)
}
