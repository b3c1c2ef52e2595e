// A received message over the lent table (01, "A received message"): what it makes of the table, its rows, and the Abort that it is answered by.
#![tactic(auto)]

ghost use Rattle.std.specs.Prelude.{◌≡◌, [], ◌+◌, ◌<◌, ◌≤◌, length, get_or};
ghost use Rattle.laws.specs.If.{if_eq};
ghost use Rattle.laws.specs.Lists.{pad};
ghost use Rattle.paper.specs.Sizes.{services, longest_message, least_rows, least_space, place_of};
ghost use Rattle.paper.specs.Problems.{no_problem};
ghost use Rattle.paper.specs.Messages.{message_of, is_sound, no_run};
ghost use Rattle.paper.specs.Kinds.{row_user_abort, row_abort};
ghost use Rattle.paper.specs.Rows.{dialogue_row};
ghost use Rattle.paper.specs.Dialogues.{begun};
ghost use Rattle.paper.specs.Calls.{Table, place_at, octets_at, number_at, assigned, faulted_at, faulted, items_of, uni_received, begin_at};
ghost use Rattle.paper.specs.Calls.{begin_received, continued_control, continue_received, end_received, abort_received, to_dialogue, sound_received, received};
ghost use Rattle.paper.specs.Layout.{encode, view};
ghost use Rattle.table_laws.specs.Ready.{Ready};
ghost use Rattle.reading_messages.specs.Bounds.{RunIn};
ghost use Rattle.call_receive_rows.specs.Shows.{Shows};
ghost use Rattle.call_receive_parts.specs.Receives.{Read, Standing, Begins, Rowed, Leaves, Receives};

use call_receive_rows::Shown;
use paper::{
    BEGIN_TAG, CONTINUE_TAG, Control, DIALOGUE_ACTIVE, DIALOGUE_FREE, DIALOGUE_OPEN,
    DIALOGUE_RECEIVED, DIALOGUE_SENT, END_TAG, IS_DROPPED, IS_SOUND, Message, NO_PROBLEM,
    ROW_ABORT, ROW_BEGIN, ROW_CONTINUE, ROW_END, ROW_UNI, ROW_USER_ABORT, Row, Run, TURNS, UNI_TAG,
};

// How many rows, and how long the message is.
#[derive(Clone, Copy)]
pub struct Received {
    pub rows: u32,
    pub length: u32,
}

// ---- IDS
// Four octets as a number, high first.
fn number_at(s: &[u8], a: usize) -> u32
    requires { a + 4 ≤ length s.now }
    ensures { result ≡ number_at s.now a }
{
    u32::from_be_bytes([s[a], s[a + 1], s[a + 2], s[a + 3]])
}

// An octet of an ID, 0 past its end.
fn octet_of(s: &[u8], id: Run, i: usize) -> u8
    requires { RunIn (length s.now) id }
    ensures { result ≡ get_or (octets_at s.now id) i 0 }
{
    if i < id.length { s[id.start + i] } else { 0 }
}

fn peer_of(s: &[u8], id: Run) -> [u8; 4]
    requires { RunIn (length s.now) id }
    ensures { result ≡ pad 4 (octets_at s.now id) }
{
    // Stays: four calls by hand; array::from_fn was tried, and the proof didn't close.
    [
        octet_of(s, id, 0),
        octet_of(s, id, 1),
        octet_of(s, id, 2),
        octet_of(s, id, 3),
    ]
}

// Stays: the place is reckoned here and below: a function `place_of` was tried, and the proofs of six functions that call it didn't close.
// "It is assigned when it is the four octets of this service's dialogue in Sent, Received or Active."
fn assigned(t: &[u8], service: u32, s: &[u8], m: Message) -> bool
    requires { Ready t.now × Read s.now m }
    ensures { result ≡ assigned (view t.now) service s.now m }
{
    if m.destination.length != 4 {
        return false;
    }
    let me = number_at(s, m.destination.start);
    let p = (me / TURNS) as usize;
    table_places::owner(t, service, me) && table_places::state_at(t, p) != DIALOGUE_OPEN
}

// ---- FAULTS
// Stays: `least_rows ≤ length rows`, and for a space `least_space`, are clauses: C lends any length, which call_entry::enter tests once.
// "free an assigned destination's place, with a P-ABORT row"
fn faulted_at(t: &mut [u8], dialogue: u32, cause: u8, rows: &mut [u8])
    requires { Standing 0 t.old (place_of dialogue) × (least_rows ≤ length rows.old) }
    ensures { Leaves (faulted_at (view t.old) dialogue cause []) 1 t.new rows.old rows.new }
{
    let p = (dialogue / TURNS) as usize;
    let cause = laws::number(cause);
    let row = writing_rows::dialogue_row(ROW_ABORT, dialogue, cause, Run::NONE, 0);
    writing_rows::write_row(rows, 0, row);
    table_places::free_at(t, p);
}

// Stays: `Read s m` is a clause: it ties two arguments, a message's octets and what was read of them; `s` is what C lends.
// "On a fault: originating ID not derivable, drop. Otherwise write Abort to it".
fn faulted(
    t: &mut [u8],
    service: u32,
    s: &[u8],
    m: Message,
    cause: u8,
    rows: &mut [u8],
    space: &mut [u8],
) -> Received
    requires { Ready t.old × Read s.now m × (least_rows ≤ length rows.old) × (least_space ≤ length space.old) }
    ensures { Receives (faulted (view t.old) service s.now m cause) result t.new rows.old rows.new space.old space.new }
{
    let id = m.origin;
    if id.length == 0 {
        return Received { rows: 0, length: 0 };
    }
    let a = id.start;
    let e = a + id.length;
    let n = writing_messages::write_cause_abort(space, 0, &s[a..e], cause);
    if assigned(t, service, s, m) {
        let me = number_at(s, m.destination.start);
        faulted_at(t, me, cause, rows);
        return Received {
            rows: 1,
            length: n as u32,
        };
    }
    Received {
        rows: 0,
        length: n as u32,
    }
}

// ---- ROWS
// The components act on a control record and are shown from row 1 on; none without a 6C.
fn components_shown(
    s: &[u8],
    m: Message,
    control: Control,
    room: u8,
    rows: &mut [u8],
    me: u32,
) -> Shown
    requires { Read s.now m × (room ≤ 8) × (least_rows ≤ length rows.old) }
    ensures { Shows me room control rows.old (items_of s.now m) result rows.new }
{
    // Stays: 0 where there is no 6C, as message_of (paper, specs/Messages) gives it.
    if m.from == 0 {
        return Shown { control, count: 0 };
    }
    call_receive_rows::show(s, m.from, m.to, control, room, rows, me)
}

// Row 0 is the dialogue's; its last number is how many follow.
fn shown(
    s: &[u8],
    m: Message,
    kind: u32,
    me: u32,
    control: Control,
    room: u8,
    rows: &mut [u8],
) -> Shown
    requires { Read s.now m × (room ≤ 8) × (least_rows ≤ length rows.old) }
    ensures { Rowed kind me room control s.now m rows.old result rows.new }
{
    let r = components_shown(s, m, control, room, rows, me);
    let after = r.control;
    let n = r.count;
    let portion = m.portion;
    let row = writing_rows::dialogue_row(kind, me, NO_PROBLEM, portion, n as u32);
    writing_rows::write_row(rows, 0, row);
    Shown {
        control: after,
        count: n + 1,
    }
}

// A Unidirectional has no dialogue: what its components act on is dropped.
fn uni_received(s: &[u8], m: Message, rows: &mut [u8]) -> u32
    requires { Read s.now m × (least_rows ≤ length rows.old) }
    ensures { (T : Table) → Leaves (uni_received T s.now m) result (encode T) rows.old rows.new }
{
    let c = table_places::begun(0, DIALOGUE_FREE, 0, 0, [0; 4]);
    let r = shown(s, m, ROW_UNI, 0, c, 0, rows);
    r.count as u32
}

// "Begin opens in Received."
fn begin_at(t: &mut [u8], service: u32, p: usize, s: &[u8], m: Message, rows: &mut [u8]) -> u32
    requires { Standing 1 t.old p × (service < services) × Read s.now m × (least_rows ≤ length rows.old) × (0 < m.origin.length) }
    ensures { Leaves (begin_at (view t.old) service p s.now m) result t.new rows.old rows.new }
{
    let turn = table_places::turn_at(t, p);
    let me = table_places::id_at(t, p);
    let id = m.origin;
    let peer = peer_of(s, id);
    let c = table_places::begun(
        turn,
        DIALOGUE_RECEIVED,
        service as u8,
        id.length as u8,
        peer,
    );
    let r = shown(s, m, ROW_BEGIN, me, c, 8, rows);
    let control = r.control;
    table_places::begin_at(t, p, control);
    r.count as u32
}

// "Begin without a place, 4"
fn begin_received(
    t: &mut [u8],
    service: u32,
    s: &[u8],
    m: Message,
    may: bool,
    rows: &mut [u8],
    space: &mut [u8],
) -> Received
    requires { Begins t.old service may × Read s.now m × (least_rows ≤ length rows.old) × (least_space ≤ length space.old) × (0 < m.origin.length) }
    ensures { Receives (begin_received (view t.old) service s.now m) result t.new rows.old rows.new space.old space.new }
{
    if may {
        let p = table_places::lowest_place(t);
        let k = begin_at(t, service, p, s, m, rows);
        return Received { rows: k, length: 0 };
    }
    faulted(t, service, s, m, 4, rows, space)
}

// "Continue in Sent stores the peer's ID and makes Active; later ones don't change it."
fn continued(c: Control, s: &[u8], m: Message) -> Control
    requires { Read s.now m }
    ensures { result ≡ continued_control c s.now m }
{
    if c.state != DIALOGUE_SENT {
        return c;
    }
    Control {
        state: DIALOGUE_ACTIVE,
        peerlen: m.origin.length as u8,
        peer: peer_of(s, m.origin),
        ..c
    }
}

fn continue_received(t: &mut [u8], me: u32, s: &[u8], m: Message, rows: &mut [u8]) -> u32
    requires { Standing 0 t.old (place_of me) × Read s.now m × (least_rows ≤ length rows.old) × (0 < m.origin.length) }
    ensures { Leaves (continue_received (view t.old) me s.now m (place_at (view t.old) (place_of me))) result t.new rows.old rows.new }
{
    let p = (me / TURNS) as usize;
    let c = table_places::load(t, p);
    let d = continued(c, s, m);
    let r = shown(s, m, ROW_CONTINUE, me, d, 8, rows);
    let control = r.control;
    table_places::store_control(t, p, control);
    r.count as u32
}

// "End shows its components, then frees"
fn end_received(t: &mut [u8], me: u32, s: &[u8], m: Message, rows: &mut [u8]) -> u32
    requires { Standing 0 t.old (place_of me) × Read s.now m × (least_rows ≤ length rows.old) }
    ensures { Leaves (end_received (view t.old) me s.now m (place_at (view t.old) (place_of me))) result t.new rows.old rows.new }
{
    let p = (me / TURNS) as usize;
    let c = table_places::load(t, p);
    let r = shown(s, m, ROW_END, me, c, 0, rows);
    table_places::free_at(t, p);
    r.count as u32
}

// "with a P-ABORT row where it has 4A, else a U-ABORT row"
fn abort_row(me: u32, m: Message, n: usize) -> Row
    requires { (n < 65536) × RunIn n m.portion }
    ensures { result ≡ if_eq m.cause no_problem (dialogue_row row_user_abort me no_problem m.portion 0) (dialogue_row row_abort me m.cause no_run 0) }
{
    // Stays: NO_PROBLEM where there is no 4A, as message_of (paper, specs/Messages) gives it.
    if m.cause == NO_PROBLEM {
        writing_rows::dialogue_row(ROW_USER_ABORT, me, NO_PROBLEM, m.portion, 0)
    } else {
        writing_rows::dialogue_row(ROW_ABORT, me, m.cause, Run::NONE, 0)
    }
}

fn abort_received(t: &mut [u8], me: u32, s: &[u8], m: Message, rows: &mut [u8]) -> u32
    requires { Standing 0 t.old (place_of me) × Read s.now m × (least_rows ≤ length rows.old) }
    ensures { Leaves (abort_received (view t.old) me m (place_at (view t.old) (place_of me))) result t.new rows.old rows.new }
{
    let p = (me / TURNS) as usize;
    let row = abort_row(me, m, s.len());
    writing_rows::write_row(rows, 0, row);
    table_places::free_at(t, p);
    1
}

// "Continue in Received, 3"; "End or Abort in Received is dropped (ruling)"
fn to_dialogue(
    t: &mut [u8],
    service: u32,
    me: u32,
    s: &[u8],
    m: Message,
    rows: &mut [u8],
    space: &mut [u8],
) -> Received
    requires { Standing 0 t.old (place_of me) × Read s.now m × (least_rows ≤ length rows.old) × (least_space ≤ length space.old) × (m.fault ≡ is_sound) }
    ensures { Receives (to_dialogue (view t.old) service me s.now m (place_at (view t.old) (place_of me))) result t.new rows.old rows.new space.old space.new }
{
    let p = (me / TURNS) as usize;
    if table_places::state_at(t, p) == DIALOGUE_RECEIVED {
        if m.tag == CONTINUE_TAG {
            return faulted(t, service, s, m, 3, rows, space);
        }
        return Received { rows: 0, length: 0 };
    }
    match m.tag {
        CONTINUE_TAG => {
            let n = continue_received(t, me, s, m, rows);
            Received { rows: n, length: 0 }
        }
        END_TAG => {
            let n = end_received(t, me, s, m, rows);
            Received { rows: n, length: 0 }
        }
        _ => {
            let n = abort_received(t, me, s, m, rows);
            Received { rows: n, length: 0 }
        }
    }
}

// A sound message, by its type: "destination not assigned, 1".
fn sound_received(
    t: &mut [u8],
    service: u32,
    s: &[u8],
    m: Message,
    may: bool,
    rows: &mut [u8],
    space: &mut [u8],
) -> Received
    requires { Begins t.old service may × Read s.now m × (least_rows ≤ length rows.old) × (least_space ≤ length space.old) × (m.fault ≡ is_sound) }
    ensures { Receives (sound_received (view t.old) service s.now m) result t.new rows.old rows.new space.old space.new }
{
    match m.tag {
        UNI_TAG => {
            let k = uni_received(s, m, rows);
            Received { rows: k, length: 0 }
        }
        BEGIN_TAG => begin_received(t, service, s, m, may, rows, space),
        _ => {
            if !assigned(t, service, s, m) {
                return faulted(t, service, s, m, 1, rows, space);
            }
            let me = number_at(s, m.destination.start);
            to_dialogue(t, service, me, s, m, rows, space)
        }
    }
}

// A MESSAGE of 1 to 512 octets, on a table that keeps the rules.
pub fn receive(
    t: &mut [u8],
    service: u32,
    s: &[u8],
    may: bool,
    rows: &mut [u8],
    space: &mut [u8],
) -> Received
    requires { Begins t.old service may × (0 < length s.now) × (length s.now ≤ longest_message) × (least_rows ≤ length rows.old) × (least_space ≤ length space.old) }
    ensures { Receives (received (view t.old) service s.now (message_of s.now)) result t.new rows.old rows.new space.old space.new }
{
    let m = reading_messages::message_of(s);
    match m.fault {
        IS_DROPPED => Received { rows: 0, length: 0 },
        IS_SOUND => sound_received(t, service, s, m, may, rows, space),
        _ => faulted(t, service, s, m, m.fault, rows, space),
    }
}
