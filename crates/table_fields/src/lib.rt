// A place of the table and its fields, read from the octets where specs/Layout puts them.
// That paper's constants are the offsets of the list of fields is proved by the contract of the function that reads there: PLACES and
// PLACE_OCTETS by slot; TURN, STATE, SERVICE, PEER_LENGTH, PEER, WAITING_LENGTH, REJECTS_WAITING, INVOCATIONS, REJECTS by turn, state .. rejects_at;
// elsewhere WAITING and FIRST_WAITING by table_places' waiting, TABLE_OCTETS, GUARANTEES and LIMITS by table_rules' check.
#![tactic(auto)]

ghost use Rattle.std.specs.Prelude.{◌≡◌, ◌+◌, ◌*◌, ◌<◌, length, get_or};
ghost use Rattle.paper.specs.Sizes.{places_in_all, most_invocations, most_rejects, turns};
ghost use Rattle.paper.specs.Layout.{table_size, waiting_length_at, first_invocation, first_reject, invocation_by, reject_by, control_by, slot};

use paper::{
    Control, INVOCATIONS, Invocation, MOST_INVOCATIONS, MOST_REJECTS, PEER, PEER_LENGTH,
    PLACE_OCTETS, PLACES, REJECTS, REJECTS_WAITING, Reject, SERVICE, STATE, TURN, WAITING_LENGTH,
};
use std::array;

// The octets of place p.
pub fn slot(t: &[u8], p: usize) -> &[u8; PLACE_OCTETS]
    requires { (p < places_in_all) × (length t.now ≡ table_size) }
    ensures is { result.now ≡ slot t.now p }
{
    let a = PLACES + p * PLACE_OCTETS;
    let rec = &t[a..a + PLACE_OCTETS];
    rec.first_chunk().unwrap()
}

// "its turn in three, high first"
pub fn turn(rec: &[u8; PLACE_OCTETS]) -> u32
    ensures { (result ≡ (control_by rec.now).turn) × (result < turns) }
{
    u32::from_be_bytes([0, rec[TURN], rec[TURN + 1], rec[TURN + 2]])
}

pub fn state(rec: &[u8; PLACE_OCTETS]) -> u8
    ensures { result ≡ (control_by rec.now).state }
{
    rec[STATE]
}

pub fn service(rec: &[u8; PLACE_OCTETS]) -> u8
    ensures { result ≡ (control_by rec.now).service }
{
    rec[SERVICE]
}

pub fn peer_length(rec: &[u8; PLACE_OCTETS]) -> u8
    ensures { result ≡ (control_by rec.now).peerlen }
{
    rec[PEER_LENGTH]
}

pub fn peer(rec: &[u8; PLACE_OCTETS]) -> [u8; 4]
    ensures { result ≡ (control_by rec.now).peer }
{
    *rec[PEER..].first_chunk().unwrap()
}

// How many octets wait.
pub fn waiting_length(rec: &[u8; PLACE_OCTETS]) -> u8
    ensures { result ≡ get_or rec.now waiting_length_at 0 }
{
    rec[WAITING_LENGTH]
}

// How many rejects wait.
pub fn rejects_waiting(rec: &[u8; PLACE_OCTETS]) -> u8
    ensures { result ≡ (control_by rec.now).count }
{
    rec[REJECTS_WAITING]
}

// Stays: the octet is taken apart as `invocation_by` of paper/specs/Layout does it.
pub fn invocation_by(id: u8, o: u8) -> Invocation
    ensures { result ≡ invocation_by id o }
{
    Invocation {
        id,
        class: o / 8 % 8,
        state: o % 8,
        shown: o / 64,
    }
}

// Invocation i of the eight.
pub fn invocation_at(rec: &[u8; PLACE_OCTETS], i: usize) -> Invocation
    requires { i < most_invocations }
    ensures { result ≡ invocation_by (get_or rec.now (first_invocation + 2 * i) 0) (get_or rec.now (first_invocation + 2 * i + 1) 0) }
{
    let a = INVOCATIONS + 2 * i;
    invocation_by(rec[a], rec[a + 1])
}

pub fn invocations(rec: &[u8; PLACE_OCTETS]) -> [Invocation; MOST_INVOCATIONS]
    ensures { result ≡ (control_by rec.now).invocations }
{
    array::from_fn(|i| invocation_at(rec, i))
}

// Stays: the octet is taken apart, and the problem put together, as `reject_by` of paper/specs/Layout does it.
pub fn reject_by(id: u8, o: u8) -> Reject
    ensures { result ≡ reject_by id o }
{
    let i = u32::from(id);
    let n = u32::from(o);
    Reject {
        id: n / 128 * 256 + i,
        problem: n / 8 % 16 * 256 + n % 8,
    }
}

// Reject i of the eight.
// Stays: this and invocation_at differ in where they stand and in what two octets make; one for both would take the two as parameters, with a law.
pub fn reject_at(rec: &[u8; PLACE_OCTETS], i: usize) -> Reject
    requires { i < most_rejects }
    ensures { result ≡ reject_by (get_or rec.now (first_reject + 2 * i) 0) (get_or rec.now (first_reject + 2 * i + 1) 0) }
{
    let a = REJECTS + 2 * i;
    reject_by(rec[a], rec[a + 1])
}

pub fn rejects(rec: &[u8; PLACE_OCTETS]) -> [Reject; MOST_REJECTS]
    ensures { result ≡ (control_by rec.now).rejects }
{
    array::from_fn(|i| reject_at(rec, i))
}

// All of a place but its waiting octets.
pub fn control(rec: &[u8; PLACE_OCTETS]) -> Control
    ensures { result ≡ control_by rec.now }
{
    Control {
        turn: turn(rec),
        state: state(rec),
        service: service(rec),
        peerlen: peer_length(rec),
        peer: peer(rec),
        count: rejects_waiting(rec),
        invocations: invocations(rec),
        rejects: rejects(rec),
    }
}
