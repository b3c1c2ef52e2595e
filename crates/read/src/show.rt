// A message and its components as text: the numbers of a component as in a row (01, "Rows").
// Stays: a space and a place in it are two parameters, as in program_text; `as` where a usize is printed, since no `From` makes a u64 of it.
ghost use Rattle.std.specs.Prelude.{◌+◌, ◌<◌, ◌≤◌, length};
ghost use Rattle.reading_messages.specs.Bounds.{MessageIn};

use paper::{Component, IS_DROPPED, IS_SOUND, LONGEST_MESSAGE, Message, NO_PROBLEM, Run};

fn run(out: &mut [u8], at: usize, s: &[u8], r: Run) -> usize
    requires { r.start + r.length ≤ length s.now }
    ensures { result ≤ length out.new }
{
    let a = program_text::put(out, at, b' ');
    program_digits::octets(out, a, &s[r.start..r.start + r.length])
}

// How it is read: sound, dropped for its form, or at fault with a P-Abort cause.
fn form(out: &mut [u8], at: usize, fault: u8) -> usize
    requires { at ≤ length out.old }
    ensures { result ≤ length out.new }
{
    match fault {
        IS_SOUND => program_text::word(out, at, b" sound"),
        IS_DROPPED => program_text::word(out, at, b" dropped"),
        cause => {
            let a = program_text::word(out, at, b" fault-");
            program_digits::decimal(out, a, u64::from(cause))
        }
    }
}

fn cause(out: &mut [u8], at: usize, code: u32) -> usize
    requires { at ≤ length out.old }
    ensures { result ≤ length out.new }
{
    match code {
        NO_PROBLEM => program_text::word(out, at, b" -"),
        _ => program_digits::spaced(out, at, u64::from(code)),
    }
}

// Line number, type and form.
fn type_and_form(out: &mut [u8], line: u64, tag: u8, fault: u8) -> usize
    ensures { result ≤ length out.new }
{
    let a = program_digits::decimal(out, 0, line);
    let b = program_text::put(out, a, b' ');
    let c = program_digits::octet(out, b, tag);
    form(out, c, fault)
}

// The same, then originating and destination ID, dialogue portion, P-Abort cause.
fn message_line(out: &mut [u8], line: u64, s: &[u8], m: Message) -> usize
    requires { MessageIn (length s.now) m }
    ensures { result ≤ length out.new }
{
    let a = type_and_form(out, line, m.tag, m.fault);
    let b = run(out, a, s, m.origin);
    let c = run(out, b, s, m.destination);
    let d = program_digits::spaced(out, c, m.portion.start as u64);
    let e = program_digits::spaced(out, d, m.portion.length as u64);
    let f = cause(out, e, m.cause);
    program_text::put(out, f, b'\n')
}

// Its general problem's code, start and length, 0 and 0 without a frame.
fn fault_line(out: &mut [u8], at: usize, c: Component) -> usize
    requires { (at < 65536) × (c.stop < 65536) }
    ensures { result ≤ length out.new }
{
    let r = writing_rows::component_row(c, 0, at, 0, c.problem);
    let mut k = program_text::word(out, 0, b"fault");
    for n in [u32::from(c.fault), r.start, r.length] {
        k = program_digits::spaced(out, k, u64::from(n));
    }
    program_text::put(out, k, b'\n')
}

// A syntax fault at a position, where the components end at lim.
fn fault(rt: &impl Print, s: &[u8], lim: usize, at: usize)
    requires { (length s.now ≤ 512) × (at ≤ lim) }
{
    if s.len() < lim {
        return;
    }
    let c = reading_components::component_at(s, lim, at);
    let mut out = [0u8; 256];
    let n = fault_line(&mut out, at, c);
    program_text::say(rt, &out, n);
}

// Those that the reader gives, and what stands where it ended: nothing after the last one, else a syntax fault. An empty 6C is one.
fn components(rt: &impl Print, s: &[u8], m: Message)
    requires { (length s.now ≤ 512) × MessageIn (length s.now) m }
{
    // Stays: `from` is 0 where there are no components, as paper's definition of a message has it (specs/Messages.antt, message_of).
    if m.fault != IS_SOUND || m.from == 0 {
        return;
    }
    match program_listing::components(rt, s).last {
        None => fault(rt, s, m.to, m.from),
        Some(k) if k.at < k.lim => fault(rt, s, k.lim, k.at),
        Some(_) => {}
    }
}

// One of 0 or over 512 octets.
fn refused(rt: &impl Print, line: u64) {
    let mut out = [0u8; 256];
    let a = program_digits::decimal(&mut out, 0, line);
    let n = program_text::word(&mut out, a, b" - refused - - 0 0 -\n");
    program_text::say(rt, &out, n);
}

pub fn message(rt: &impl Print, line: u64, s: &[u8]) {
    if s.is_empty() || s.len() > LONGEST_MESSAGE {
        refused(rt, line);
        return;
    }
    let m = reading_messages::message_of(s);
    let mut out = [0u8; 256];
    let n = message_line(&mut out, line, s, m);
    program_text::say(rt, &out, n);
    components(rt, s, m);
}
