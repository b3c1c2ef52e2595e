// The types of document 01, by value. What they mean stands in specs/, a file for each section of 01; no function is here but what gives a refusal's and a PDU's number.
#![tactic(auto)]

ghost use Rattle.std.specs.Prelude.{◌≡◌};
ghost use Rattle.paper.specs.Refusals.{number, pdu_number};

// A length as it is coded: none of the four forms; (where the contents begin, how many octets); 80 (where they begin).
// Stays: Wrong is one of three cases that the definition length_at (specs/Elements) gives; an Option round the other two would be no plainer.
#[derive(Clone, Copy)]
pub enum Length {
    Wrong,
    Given(usize, usize),
    Until(usize),
}

// The tag and length of an element: malformed; a primitive (its end); a constructor (contents from, to); one of length 80 (from).
// Stays: Bad is one of four cases that the definition head_at (specs/Elements) gives; an Option round the others would be no plainer.
#[derive(Clone, Copy)]
pub enum Head {
    Bad,
    Whole(usize),
    Holds(usize, usize),
    Opens(usize),
}

// What the reading of an element gives: where it ends, or the octet at which its first fault lies.
pub type Reading = Result<usize, usize>;

// The frame of an element: its contents from, to, and where it stops; stop is 0 where there is no frame.
// Stays: 0 for none is what the definition frame_at (specs/Elements) gives, and all that is defined over a frame reads.
#[derive(Clone, Copy)]
pub struct Frame {
    pub from: usize,
    pub to: usize,
    pub stop: usize,
}

impl Frame {
    pub const NONE: Frame = Frame {
        from: 0,
        to: 0,
        stop: 0,
    };
}

// A component as it is read. IDs are octets, 256 none. fault: 3 sound, else the general problem code 0 to 2.
// stop: where it ends, 0 without a frame. The parameter lies from par to parstop, 0 and 0 for none.
// Stays: 256, 65,535 and 3 for none are what the definition component_at (specs/Components) gives; they go into a row, which a C host reads.
#[derive(Clone, Copy)]
pub struct Component {
    pub tag: u8,
    pub id: u32,
    pub linked: u32,
    pub problem: u32,
    pub fault: u8,
    pub stop: usize,
    pub par: usize,
    pub parstop: usize,
}

// A run of octets of a message; length 0 for none.
// Stays: 0 for none is what the definition no_run (specs/Messages) gives; a row has its start and length, which a C host reads.
#[derive(Clone, Copy)]
pub struct Run {
    pub start: usize,
    pub length: usize,
}

impl Run {
    pub const NONE: Run = Run {
        start: 0,
        length: 0,
    };
}

// A message as it is read. fault: 255 sound, 254 dropped for its form, else the P-Abort cause 0 or 2.
// The components stand from `from` to `to`, 0 and 0 without a 6C. cause: that of a 4A, 65,535 none.
// Stays: these numbers are what the definition message_of (specs/Messages) gives; the cause goes into a row and into an Abort.
#[derive(Clone, Copy)]
pub struct Message {
    pub tag: u8,
    pub fault: u8,
    pub origin: Run,
    pub destination: Run,
    pub portion: Run,
    pub from: usize,
    pub to: usize,
    pub cause: u32,
}

// A dialogue PDU (02 a) as far as its pieces are read: where the next one begins, 0 where one was wrong; the runs of its context name and
// of its user information; result, diagnostic and abort source as numbers of a row, 65,535 none.
// Stays: 0 and 65,535 for none are what the definition piece (specs/Portions) gives; the latter go into a row, which a C host reads.
#[derive(Clone, Copy)]
pub struct Pdu {
    pub at: usize,
    pub name: Run,
    pub information: Run,
    pub result: u32,
    pub diagnostic: u32,
    pub source: u32,
}

// A dialogue portion as it is read (02 a): none; one of another form; dialogue request (name, information); response (name, information,
// result, diagnostic); abort (source, information); unidirectional (name, information).
// Stays: none is one of six cases that the definition portion_of (specs/Portions) gives, each with a number in a row.
#[derive(Clone, Copy)]
pub enum Portion {
    Absent,
    Opaque,
    Aarq(Run, Run),
    Aare(Run, Run, u32, u32),
    Abrt(u32, Run),
    Audt(Run, Run),
}

// An invocation: state 0 Idle, 1 Pending, 2 Sent, 3 Wait, 4 Rejecting; shown: 1 after a result not last was shown.
// Stays: its state, class and mark are numbers in the table's octets (specs/Layout, invocation_by), and the table rules judge other numbers too.
#[derive(Clone, Copy)]
pub struct Invocation {
    pub id: u8,
    pub class: u8,
    pub state: u8,
    pub shown: u8,
}

impl Invocation {
    pub const NONE: Invocation = Invocation {
        id: 0,
        class: 0,
        state: IDLE,
        shown: 0,
    };
}

// A waiting reject: its invoke ID, 256 none; its problem as in a row.
// Stays: 256 for none is what the definition reject_by (specs/Layout) reads from the table's octets and reject_octets writes.
#[derive(Clone, Copy)]
pub struct Reject {
    pub id: u32,
    pub problem: u32,
}

impl Reject {
    pub const NONE: Reject = Reject { id: 0, problem: 0 };
}

// What a place holds beside its waiting octets. state: 0 free, 1 Open, 2 Sent, 3 Received, 4 Active.
// Stays: its state is a number in the table's octets, and the table rules judge other numbers too (specs/Rules); the peer's ID and the rejects
// have their length beside them as in the table, whose memory is fixed (specs/Layout, control_by).
#[derive(Clone, Copy)]
pub struct Control {
    pub turn: u32,
    pub state: u8,
    pub service: u8,
    pub peerlen: u8,
    pub peer: [u8; 4],
    pub count: u8,
    pub invocations: [Invocation; MOST_INVOCATIONS],
    pub rejects: [Reject; MOST_REJECTS],
}

// A row: eight numbers.
// Stays: a C host reads the eight numbers.
#[derive(Clone, Copy)]
pub struct Row {
    pub kind: u32,
    pub dialogue: u32,
    pub invoke: u32,
    pub linked: u32,
    pub problem: u32,
    pub start: u32,
    pub length: u32,
    pub follow: u32,
}

// What a component does: the control record after it, its row's kind and problem.
// Stays: kind and problem are numbers of a row, as the definition acted (specs/Invocations) has them.
#[derive(Clone, Copy)]
pub struct Acted {
    pub control: Control,
    pub kind: u32,
    pub problem: u32,
}

// WHY A CALL IS REFUSED (01, "Answer numbers"), each by its name; its number is that of its place here, from 1 on (specs/Refusals).
#[derive(Clone, Copy, PartialEq, Eq)]
pub enum Refusal {
    // a space lent is too small, or the table has another size
    WrongSize,
    // the table breaks a rule
    BrokenTable,
    // no such service
    NoService,
    // a received message of no octet or over 512
    MessageSize,
    // no such dialogue, or another service's
    NoDialogue,
    // the dialogue's state
    WrongState,
    // the share rule gives no place
    NoPlace,
    // a class or a problem
    WrongCode,
    // the state of an invocation
    WrongInvocation,
    // all invocations are in use
    InvocationsFull,
    // octets given are not one well-formed element of their kind
    WrongOctets,
    // over 240 octets would wait or be sent
    TooLong,
    // shares that no table takes
    WrongShares,
    // a dialogue portion in the wrong place (02 a)
    WrongPortion,
}

impl From<Refusal> for u32 {
    ghost from_gives = { λ why n. n ≡ number why };

    fn from(why: Refusal) -> u32 {
        match why {
            Refusal::WrongSize => 1,
            Refusal::BrokenTable => 2,
            Refusal::NoService => 3,
            Refusal::MessageSize => 4,
            Refusal::NoDialogue => 5,
            Refusal::WrongState => 6,
            Refusal::NoPlace => 7,
            Refusal::WrongCode => 8,
            Refusal::WrongInvocation => 9,
            Refusal::InvocationsFull => 10,
            Refusal::WrongOctets => 11,
            Refusal::TooLong => 12,
            Refusal::WrongShares => 13,
            Refusal::WrongPortion => 14,
        }
    }
}

// Which of the four dialogue PDUs (02 a): AARQ, AARE, ABRT, AUDT. As a number of a row it is 2 to 5 (specs/Portions).
#[derive(Clone, Copy, PartialEq, Eq)]
pub enum PduKind {
    Request,
    Response,
    Abort,
    Unidirectional,
}

impl From<PduKind> for u32 {
    ghost from_gives = { λ kind n. n ≡ pdu_number kind };

    fn from(kind: PduKind) -> u32 {
        match kind {
            PduKind::Request => 2,
            PduKind::Response => 3,
            PduKind::Abort => 4,
            PduKind::Unidirectional => 5,
        }
    }
}

// ---- THE NUMBERS, named as in specs/.
// specs/Sizes
pub const PLACES_IN_ALL: usize = 128;

// as the size of a resource, a number of 32 bits
// Stays: `as`, since no `From` makes a u32 of a usize, and a constant calls no function of a trait.
pub const PLACES_SHARED: u32 = PLACES_IN_ALL as u32;

pub const SERVICES: usize = 16;

pub const MOST_INVOCATIONS: usize = 8;

pub const MOST_REJECTS: usize = 8;

pub const MOST_WAITING: usize = 240;

pub const LONGEST_MESSAGE: usize = 512;

pub const LEAST_SPACE: usize = 272;

pub const LEAST_ROWS: usize = 4096;

pub const DEPTHS: usize = 16;

// those from depth 2 on: a parameter is at 2, at 3 in a result's 30; a dialogue portion's 28 is at 2, A0 at 3, PDU at 4, its pieces at 5
pub const DEPTHS_FROM_2: usize = DEPTHS - 1;

pub const DEPTHS_FROM_3: usize = DEPTHS - 2;

pub const DEPTHS_FROM_4: usize = DEPTHS - 3;

pub const DEPTHS_FROM_5: usize = DEPTHS - 4;

pub const DEPTHS_FROM_6: usize = DEPTHS - 5;

pub const TURNS: u32 = 16777216;

// specs/Problems, specs/Components: none, of a problem and of an ID; no fault
pub const NO_PROBLEM: u32 = 65535;

pub const NO_ID: u32 = 256;

pub const NO_FAULT: u8 = 3;

// specs/Dialogues: a dialogue's states
// Stays: numbers, as an octet of the table has them.
pub const DIALOGUE_FREE: u8 = 0;

pub const DIALOGUE_OPEN: u8 = 1;

pub const DIALOGUE_SENT: u8 = 2;

pub const DIALOGUE_RECEIVED: u8 = 3;

pub const DIALOGUE_ACTIVE: u8 = 4;

// specs/Invocations: an invocation's states
// Stays: numbers, as three bits of the table's octets have them.
pub const IDLE: u8 = 0;

pub const PENDING: u8 = 1;

pub const SENT: u8 = 2;

pub const WAIT: u8 = 3;

pub const REJECTING: u8 = 4;

// specs/Messages: what a message is, beside the P-Abort causes of one at fault
pub const IS_SOUND: u8 = 255;

pub const IS_DROPPED: u8 = 254;

// specs/Kinds: the kinds of rows
// Stays: numbers, which a C host reads in a row.
pub const ROW_UNI: u32 = 1;

pub const ROW_BEGIN: u32 = 2;

pub const ROW_CONTINUE: u32 = 3;

pub const ROW_END: u32 = 4;

pub const ROW_USER_ABORT: u32 = 5;

pub const ROW_ABORT: u32 = 6;

pub const ROW_INVOKE: u32 = 7;

pub const ROW_LAST: u32 = 8;

pub const ROW_NOT_LAST: u32 = 9;

pub const ROW_ERROR: u32 = 10;

pub const ROW_USER_REJECT: u32 = 11;

pub const ROW_REMOTE_REJECT: u32 = 12;

pub const ROW_REJECTED: u32 = 13;

pub const ROW_NOT_STORED: u32 = 14;

pub const ROW_CANCEL: u32 = 15;

// ---- THE TABLE'S OCTETS (docs/TABLE.md), each where the one before it ends: specs/Layout has the widths.
pub const MAP: usize = 0;

pub const GUARANTEES: usize = MAP + 16;

pub const LIMITS: usize = GUARANTEES + SERVICES;

pub const PLACES: usize = LIMITS + SERVICES;

pub const TABLE_OCTETS: usize = PLACES + PLACES_IN_ALL * PLACE_OCTETS;

// within a place
pub const TURN: usize = 0;

pub const STATE: usize = TURN + 3;

pub const SERVICE: usize = STATE + 1;

pub const PEER_LENGTH: usize = SERVICE + 1;

pub const PEER: usize = PEER_LENGTH + 1;

pub const WAITING_LENGTH: usize = PEER + 4;

pub const REJECTS_WAITING: usize = WAITING_LENGTH + 1;

pub const INVOCATIONS: usize = REJECTS_WAITING + 1;

pub const REJECTS: usize = INVOCATIONS + 2 * MOST_INVOCATIONS;

pub const WAITING: usize = REJECTS + 2 * MOST_REJECTS;

pub const PLACE_OCTETS: usize = WAITING + MOST_WAITING;

pub const FIRST_WAITING: usize = PLACES + WAITING;

// ---- TAGS. specs/Messages: a message's type
// Stays: octets of the message itself, of which any other may come.
pub const UNI_TAG: u8 = 0x61;

pub const BEGIN_TAG: u8 = 0x62;

pub const END_TAG: u8 = 0x64;

pub const CONTINUE_TAG: u8 = 0x65;

pub const ABORT_TAG: u8 = 0x67;

// specs/Components: a component's
pub const INVOKE_TAG: u8 = 0xA1;

pub const LAST_TAG: u8 = 0xA2;

pub const ERROR_TAG: u8 = 0xA3;

pub const REJECT_TAG: u8 = 0xA4;

pub const NOT_LAST_TAG: u8 = 0xA7;

// a component's fault, the code of a general problem; NO_FAULT beside them
pub const UNRECOGNIZED: u8 = 0;

pub const MISTYPED: u8 = 1;

pub const BADLY_STRUCTURED: u8 = 2;

// the problem of a faulty reject whose ID and tag 81 could be read
pub const SOME_INVOKE_PROBLEM: u32 = 256;
