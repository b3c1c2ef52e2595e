// The requests that send a message (01, "Dialogue states"): each refused by its number, or the message written and the table changed.
#![tactic(auto)]

ghost use Rattle.std.specs.Prelude.{◌≡◌, [], ◌+◌, ◌≤◌, length};
ghost use Rattle.laws.specs.Runs.{Wrote};
ghost use Rattle.paper.specs.Sizes.{most_waiting, least_space};
ghost use Rattle.paper.specs.Portions.{portion_by};
ghost use Rattle.paper.specs.Dialogues.{first, portion_refusal, sent_components, abort_portion};
ghost use Rattle.paper.specs.Dialogues.Request.{Abort};
ghost use Rattle.paper.specs.declared.PduKind.TheVariants as PduKind;
ghost use Rattle.paper.specs.Refusals.{answer_of, pdu_number};
ghost use Rattle.paper.specs.Calls.{place_at, with_place};
ghost use Rattle.paper.specs.Calls.Call.{OnDialogue};
ghost use Rattle.paper.specs.Layout.{encode, view};
ghost use Rattle.paper.specs.Outcome.{Gives, outcome};
ghost use Rattle.table_laws.specs.Fine.{FineControl};
ghost use Rattle.writing_octets.specs.Heads.{front_head};
ghost use Rattle.writing_octets.specs.Lengths.{Room};
ghost use Rattle.writing_portions.specs.Forms.{form_for};
ghost use Rattle.call_entry.specs.Replies.{Ends, with_space};
ghost use Rattle.call_send_parts.specs.Sent.{Holds};
ghost use Rattle.call_send.specs.Sendings.{open_refusal, peer_refusal, abort_by, portion_kind, state_refusal, tag_for, ids_for, message_for, place_after, sending};
ghost use Rattle.call_send.specs.Messages.{Follows, rest, rest_size};

use call_entry::{Effect, Reply, Spaces};
use call_given::Given;
use call_send_parts::Sent;
use paper::{
    Control, DIALOGUE_ACTIVE, DIALOGUE_OPEN, DIALOGUE_RECEIVED, DIALOGUE_SENT, PduKind, Refusal,
};

// The four messages that carry components.
#[derive(Clone, Copy)]
pub enum Sending {
    ABegin,
    AContinue,
    AnEnd,
    AUnidirectional,
}

// Stays: a match on the kind: closures in its place would be four, for this, `state_refusal`, `write_front` and `leave`, each with a law.
// 02 a: the dialogue portion of each.
fn portion_kind(k: Sending) -> PduKind
    ensures { result ≡ portion_kind k }
{
    match k {
        Sending::ABegin => PduKind::Request,
        Sending::AContinue => PduKind::Response,
        Sending::AnEnd => PduKind::Response,
        Sending::AUnidirectional => PduKind::Unidirectional,
    }
}

// "Begin (to Sent) and Unidirectional (frees) need Open."
#[tactic(auto, unfolding(laws::specs::If::if_eq))]
fn open_refusal(state: u8) -> Result<(), Refusal>
    ensures { answer_of result ≡ open_refusal state }
{
    if state != DIALOGUE_OPEN {
        return Err(Refusal::WrongState);
    }
    Ok(())
}

// "Continue (to Active) and basic end (frees) need Received or Active."
#[tactic(auto, unfolding(paper::specs::Dialogues::has_peer, laws::specs::If::if_eq, laws::specs::If::if_b))]
fn peer_refusal(state: u8) -> Result<(), Refusal>
    ensures { answer_of result ≡ peer_refusal state }
{
    match state {
        DIALOGUE_RECEIVED | DIALOGUE_ACTIVE => Ok(()),
        _ => Err(Refusal::WrongState),
    }
}

// Stays: a match on the kind, as in `portion_kind`.
// Unidirectional is refused too with no component or with one not of class 4.
fn state_refusal(t: &[u8], p: usize, c: Control, k: Sending) -> Result<(), Refusal>
    requires { Holds t.now p c }
    ensures { answer_of result ≡ state_refusal k (place_at (view t.now) p) }
{
    match k {
        Sending::ABegin => open_refusal(c.state),
        Sending::AContinue => peer_refusal(c.state),
        Sending::AnEnd => peer_refusal(c.state),
        Sending::AUnidirectional => call_send_parts::uni_refusal(t, p, c),
    }
}

// Stays: table, place and record are three arguments, tied by Holds: a struct of them would borrow the table, which `leave` writes.
// The state's refusal, else that of the name and user information given with a sending (02 a).
fn refusal_with(
    t: &[u8],
    p: usize,
    c: Control,
    k: Sending,
    kind: PduKind,
    given: Given,
) -> Result<(), Refusal>
    requires { Holds t.now p c × (kind ≡ PduKind.Abort → ⊥) }
    ensures { answer_of result ≡ first (state_refusal k (place_at (view t.now) p)) (portion_refusal (place_at (view t.now) p) (form_for (pdu_number kind)) given.entry.name.now given.entry.information.now) }
{
    state_refusal(t, p, c, k)?;
    let n = table_places::waiting_length(t, p);
    call_given::portion_refusal(n, c.state, kind, given)
}

// What follows a message's IDs: the octets of its dialogue portion; what is sent.
#[derive(Clone, Copy)]
struct Follow {
    portion: usize,
    sent: Sent,
}

fn what_follows(t: &[u8], p: usize, c: Control, kind: PduKind, given: Given) -> Follow
    requires { Holds t.now p c × (kind ≡ PduKind.Abort → ⊥) × (0 ≡ portion_refusal (place_at (view t.now) p) (form_for (pdu_number kind)) given.name.now given.information.now) }
    ensures { Follows (place_at (view t.now) p) (pdu_number kind) given.entry.name.now given.entry.information.now result.portion result.sent.fits result.sent.length }
{
    let portion = writing_portions::portion_size(kind, given.name.len(), given.information.len());
    let sent = call_send_parts::sent_of(t, p, c, portion);
    Follow { portion, sent }
}

// The octets after the IDs, the 6C's head counted.
fn rest_size(f: Follow) -> usize
    requires { f.portion + f.sent.length ≤ most_waiting }
    ensures { result ≡ rest_size f.portion f.sent.length }
{
    let n = f.sent.length;
    let m = writing_messages::components_size(n);
    f.portion + m
}

// A dialogue portion of q octets: most messages have none, and pay one test for it.
fn write_given(out: &mut [u8], at: usize, kind: PduKind, given: Given, q: usize) -> usize
    requires { (length given.name.now ≤ most_waiting) × (length given.information.now ≤ most_waiting) × (q ≡ length (portion_by (form_for (pdu_number kind)) given.name.now given.information.now)) × Room out.old at q }
    ensures { Wrote out.old at (portion_by (form_for (pdu_number kind)) given.entry.name.now given.entry.information.now) result out.new }
{
    if q == 0 {
        return at;
    }
    writing_portions::write_portion(out, at, kind, given.name, given.information)
}

// What follows the IDs of each of the four messages: its dialogue portion, the 6C's head, what is sent.
fn write_rest(
    out: &mut [u8],
    at: usize,
    t: &[u8],
    p: usize,
    c: Control,
    kind: PduKind,
    given: Given,
    f: Follow,
) -> usize
    requires { Holds t.now p c × Follows (place_at (view t.now) p) (pdu_number kind) given.name.now given.information.now f.portion f.sent.fits f.sent.length × (at + rest_size f.portion f.sent.length ≤ length out.old) }
    ensures { Wrote out.old at (rest (portion_by (form_for (pdu_number kind)) given.entry.name.now given.entry.information.now) (sent_components (place_at (view t.now) p) f.sent.fits)) result out.new }
{
    let a = write_given(out, at, kind, given, f.portion);
    let n = f.sent.length;
    let b = writing_messages::write_components(out, a, n);
    call_send_parts::write_sent(out, b, t, p, c, f.sent.fits)
}

// Stays: a match on the kind, as in `portion_kind`.
// A message up to its IDs, where m octets follow them.
fn write_front(out: &mut [u8], k: Sending, dialogue: u32, c: Control, m: usize) -> usize
    requires { FineControl c × (m ≤ 244) × (least_space ≤ length out.old) }
    ensures { Wrote out.old 0 (front_head (tag_for k) (ids_for k dialogue c) m) result out.new }
{
    let peer = &c.peer[..usize::from(c.peerlen)];
    match k {
        Sending::ABegin => writing_messages::begin_front(out, 0, dialogue, m),
        Sending::AContinue => writing_messages::continue_front(out, 0, dialogue, peer, m),
        Sending::AnEnd => writing_messages::end_front(out, 0, peer, m),
        Sending::AUnidirectional => writing_messages::uni_front(out, 0, m),
    }
}

fn write_message(
    out: &mut [u8],
    t: &[u8],
    p: usize,
    c: Control,
    k: Sending,
    kind: PduKind,
    dialogue: u32,
    given: Given,
    f: Follow,
) -> usize
    requires { Holds t.now p c × Follows (place_at (view t.now) p) (pdu_number kind) given.name.now given.information.now f.portion f.sent.fits f.sent.length × (least_space ≤ length out.old) }
    ensures is { Wrote out.old 0 (message_for k dialogue (place_at (view t.now) p) (portion_by (form_for (pdu_number kind)) given.entry.name.now given.entry.information.now) f.sent.fits) result out.new }
    ensures within { result ≤ least_space }
{
    let m = rest_size(f);
    let a = write_front(out, k, dialogue, c, m);
    write_rest(out, a, t, p, c, kind, given, f)
}

// Stays: a match on the kind, as in `portion_kind`.
// "Begin (to Sent) ..; Continue (to Active) and basic end (frees)"; "Unidirectional (frees)"; "An end drops what it didn't send."
fn leave(t: &mut [u8], p: usize, c: Control, k: Sending, fits: bool)
    requires { Holds t.old p c × (0 ≡ state_refusal k (place_at (view t.old) p)) }
    ensures { t.new ≡ encode (with_place (view t.old) p (place_after k (place_at (view t.old) p) fits)) }
{
    match k {
        Sending::ABegin => call_send_parts::leave_at(t, p, c, DIALOGUE_SENT, fits),
        Sending::AContinue => call_send_parts::leave_at(t, p, c, DIALOGUE_ACTIVE, fits),
        Sending::AnEnd => table_places::free_at(t, p),
        Sending::AUnidirectional => table_places::free_at(t, p),
    }
}

fn try_send(
    table: &mut [u8],
    service: u32,
    dialogue: u32,
    k: Sending,
    given: Given,
    space: &mut [u8],
) -> Result<Effect, Refusal>
    ensures { Ends (outcome (with_space table.old space.old) (OnDialogue service dialogue (sending k given.entry.name.now given.entry.information.now))) result (with_space table.new space.new) }
{
    let lent = Spaces {
        rows: 0,
        space: space.len(),
    };
    let p = call_entry::enter_at(table, lent, Spaces::MESSAGE, service, dialogue)?;
    let c = table_places::load(table, p);
    let kind = portion_kind(k);
    refusal_with(table, p, c, k, kind, given)?;
    let f = what_follows(table, p, c, kind, given);
    let e = write_message(space, table, p, c, k, kind, dialogue, given, f);
    leave(table, p, c, k, f.sent.fits);
    Ok(Effect {
        length: e as u32,
        ..Effect::NONE
    })
}

// Stays: the name and the information are two arguments here, as host and the programs hand them on.
pub fn send(
    table: &mut [u8],
    service: u32,
    dialogue: u32,
    k: Sending,
    name: &[u8],
    information: &[u8],
    space: &mut [u8],
) -> Reply
    ensures { Gives (outcome (record { table = table.old; rows = []; space = space.old }) (OnDialogue service dialogue (sending k name.now information.now))) result.answer result.rows result.length result.dialogue (record { table = table.new; rows = []; space = space.new }) }
{
    let given = Given { name, information };
    Reply::from(try_send(table, service, dialogue, k, given, space))
}

// A user's Abort: it "writes a message only in Received and Active".
fn write_abort(out: &mut [u8], c: Control, portion: &[u8]) -> usize
    requires { FineControl c × (length portion.now ≤ most_waiting) × (length (abort_portion portion.now) ≤ most_waiting) × (least_space ≤ length out.old) }
    ensures is { Wrote out.old 0 (abort_by c portion.now) result out.new }
    ensures within { result ≤ least_space }
{
    match peer_refusal(c.state) {
        Err(_) => 0,
        Ok(()) => {
            let peer = &c.peer[..usize::from(c.peerlen)];
            let m = call_send_parts::abort_size(portion);
            let a = writing_messages::abort_front(out, 0, peer, m);
            call_send_parts::write_aborted(out, a, portion)
        }
    }
}

// "Prearranged end and user abort (both free): any; only abort takes a dialogue portion, a whole 6B element or none"; 02 a: or one BE
// element, sent in an ABRT.
fn try_send_abort(
    table: &mut [u8],
    service: u32,
    dialogue: u32,
    portion: &[u8],
    space: &mut [u8],
) -> Result<Effect, Refusal>
    ensures { Ends (outcome (with_space table.old space.old) (OnDialogue service dialogue (Abort portion.now))) result (with_space table.new space.new) }
{
    let lent = Spaces {
        rows: 0,
        space: space.len(),
    };
    let p = call_entry::enter_at(table, lent, Spaces::MESSAGE, service, dialogue)?;
    call_send_parts::abort_refusal(portion)?;
    let c = table_places::load(table, p);
    let e = write_abort(space, c, portion);
    table_places::free_at(table, p);
    Ok(Effect {
        length: e as u32,
        ..Effect::NONE
    })
}

pub fn send_abort(
    table: &mut [u8],
    service: u32,
    dialogue: u32,
    portion: &[u8],
    space: &mut [u8],
) -> Reply
    ensures { Gives (outcome (record { table = table.old; rows = []; space = space.old }) (OnDialogue service dialogue (Abort portion.now))) result.answer result.rows result.length result.dialogue (record { table = table.new; rows = []; space = space.new }) }
{
    Reply::from(try_send_abort(table, service, dialogue, portion, space))
}
