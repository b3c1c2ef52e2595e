// What every call begins with and ends in: the numbers 1, 2, 3 and 5 in this order, and the reply.
#![tactic(auto)]

ghost use Rattle.std.specs.Prelude.{◌≡◌};
ghost use Rattle.paper.specs.Sizes.{octet_of};
ghost use Rattle.call_entry.specs.Replies.{reply, reply_of};
ghost use Rattle.call_entry.specs.Prologue.{spaces, Enters, Meets};

use paper::{GUARANTEES, LEAST_ROWS, LEAST_SPACE, LIMITS, PLACES, Refusal, SERVICES, TURNS};

// Stays: numbers, 0 where nothing is told: a C host reads them.
// What the host is told (docs, "The interface to the C host"): at any answer but 0 the other three are 0.
#[repr(C)]
#[derive(Clone, Copy)]
pub struct Reply {
    pub answer: u32,
    pub rows: u32,
    pub length: u32,
    pub dialogue: u32,
}

// What a call did that wasn't refused: so many rows, a message of so many octets, the dialogue that it opened.
#[derive(Clone, Copy)]
pub struct Effect {
    pub rows: u32,
    pub length: u32,
    pub dialogue: u32,
}

impl Effect {
    pub const NONE: Effect = Effect {
        rows: 0,
        length: 0,
        dialogue: 0,
    };

    pub const ONE_ROW: Effect = Effect {
        rows: 1,
        length: 0,
        dialogue: 0,
    };
}

// A refusal.
pub fn refused(number: u32) -> Reply
    ensures { result ≡ reply number 0 0 0 }
{
    Reply {
        answer: number,
        rows: 0,
        length: 0,
        dialogue: 0,
    }
}

// What was done.
pub fn done(did: Effect) -> Reply
    ensures { result ≡ reply 0 did.rows did.length did.dialogue }
{
    Reply {
        answer: 0,
        rows: did.rows,
        length: did.length,
        dialogue: did.dialogue,
    }
}

impl From<Result<Effect, Refusal>> for Reply {
    ghost from_gives = { λ r told. told ≡ reply_of r };

    fn from(r: Result<Effect, Refusal>) -> Reply {
        match r {
            Ok(did) => done(did),
            Err(why) => refused(u32::from(why)),
        }
    }
}

// The octet of a signed invoke ID.
pub fn octet_of(id: i8) -> u8
    ensures { result ≡ octet_of id }
{
    id.cast_unsigned()
}

// Octets of row space and of message space: those lent to a call, or the least that it takes, 0 where it takes none.
#[derive(Clone, Copy)]
pub struct Spaces {
    pub rows: usize,
    pub space: usize,
}

impl Spaces {
    pub const NONE: Spaces = Spaces { rows: 0, space: 0 };

    pub const ROWS: Spaces = Spaces {
        rows: LEAST_ROWS,
        space: 0,
    };

    pub const MESSAGE: Spaces = Spaces {
        rows: 0,
        space: LEAST_SPACE,
    };

    pub const BOTH: Spaces = Spaces {
        rows: LEAST_ROWS,
        space: LEAST_SPACE,
    };
}

// The prologue of every call: refused by 1, 2 or 3, or whether the share rule gives the service a place.
pub fn enter(t: &[u8], lent: Spaces, least: Spaces, service: u32) -> Result<bool, Refusal>
    ensures { Enters t.now (spaces lent) (spaces least) service result }
{
    if lent.rows < least.rows || lent.space < least.space {
        return Err(Refusal::WrongSize);
    }
    let c = table_rules::check(t)?;
    let i = service as usize;
    if i >= SERVICES {
        return Err(Refusal::NoService);
    }
    let share = table_shares::share_at(&t[GUARANTEES..LIMITS], &t[LIMITS..PLACES], i);
    Ok(share.gives_place(u32::from(c.counts[i]), c.unused, c.free))
}

// The prologue of a call on a dialogue: refused by 5 too, or the dialogue's place.
pub fn enter_at(
    t: &[u8],
    lent: Spaces,
    least: Spaces,
    service: u32,
    dialogue: u32,
) -> Result<usize, Refusal>
    ensures { Meets t.now (spaces lent) (spaces least) service dialogue result }
{
    enter(t, lent, least, service)?;
    if !table_places::owner(t, service, dialogue) {
        return Err(Refusal::NoDialogue);
    }
    // Stays: no function `place_of`: the record InDialogue has this quotient, and in call_receive_parts it was tried.
    let p = (dialogue / TURNS) as usize;
    Ok(p)
}
