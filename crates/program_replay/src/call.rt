// A line of the input: a call, by its number of fields and its verb. `None`: a line that cannot be read.
// Stays: the table, a service and a dialogue are parameters of their own, as in the calls, which are the C interface's.
ghost use Rattle.std.specs.Prelude.{◌<◌, ◌≤◌};
ghost use Rattle.call_pass.specs.Passings.{linked_of};

use crate::{asked, show};
use call_entry::Reply;
use call_pass::Passing;
use call_release::Idler;
use call_send::Sending;
use program_play::Lent;
use program_words::cut;

fn fresh(table: &mut [u8], line: &[u8]) -> Option<Reply> {
    let guarantees = asked::shares(asked::part(line, 1))?;
    let limits = asked::shares(asked::part(line, 2))?;
    Some(call_open::fresh(table, &guarantees, &limits))
}

fn open(table: &mut [u8], line: &[u8]) -> Option<Reply> {
    let service = asked::number(line, 1)?;
    Some(call_open::open(table, service))
}

fn receive(lent: &mut Lent, line: &mut [u8]) -> Option<Reply> {
    let service = asked::number(line, 1)?;
    let m = asked::octets(line, 2)?;
    Some(call_receive::receive(lent.table, service, cut(line, m), lent.rows, lent.space))
}

fn end_prearranged(table: &mut [u8], line: &[u8]) -> Option<Reply> {
    let (service, dialogue) = asked::on_dialogue(line)?;
    Some(call_release::end_prearranged(table, service, dialogue))
}

fn no_reaction(lent: &mut Lent, line: &[u8]) -> Option<Reply> {
    let (service, dialogue) = asked::on_dialogue(line)?;
    Some(call_release::no_reaction(lent.table, service, dialogue, lent.rows))
}

fn abort(lent: &mut Lent, line: &mut [u8]) -> Option<Reply> {
    let (service, dialogue) = asked::on_dialogue(line)?;
    let p = asked::octets(line, 3)?;
    Some(call_send::send_abort(lent.table, service, dialogue, cut(line, p), lent.space))
}

fn idle(table: &mut [u8], line: &[u8], by: Idler) -> Option<Reply> {
    let (service, dialogue, id) = asked::on_invocation(line)?;
    Some(call_release::idle(table, service, dialogue, id, by))
}

fn timeout(lent: &mut Lent, line: &[u8]) -> Option<Reply> {
    let (service, dialogue, id) = asked::on_invocation(line)?;
    Some(call_release::timeout(lent.table, service, dialogue, id, lent.rows))
}

fn reject(table: &mut [u8], line: &[u8]) -> Option<Reply> {
    let (service, dialogue, id) = asked::on_invocation(line)?;
    let problem = asked::number(line, 4)?;
    Some(call_pass::pass(
        table,
        service,
        dialogue,
        Passing::AReject(id, problem),
        &[],
        &[],
    ))
}

fn error(table: &mut [u8], line: &mut [u8]) -> Option<Reply> {
    let (service, dialogue, id) = asked::on_invocation(line)?;
    pass(table, line, service, dialogue, Passing::AnError(id), 4)
}

fn result(table: &mut [u8], line: &mut [u8]) -> Option<Reply> {
    let (service, dialogue, id) = asked::on_invocation(line)?;
    let tag = asked::result_tag(asked::part(line, 4))?;
    pass(table, line, service, dialogue, Passing::AResult(tag, id), 5)
}

fn invoke(table: &mut [u8], line: &mut [u8]) -> Option<Reply> {
    let (service, dialogue, id) = asked::on_invocation(line)?;
    let linked = asked::linked(asked::part(line, 4))?;
    let class = asked::number(line, 5)?;
    let what = Passing::AnInvoke(id, linked, class);
    pass(table, line, service, dialogue, what, 6)
}

// With the octets of the last two fields, which have k others before them.
fn pass(
    table: &mut [u8],
    line: &mut [u8],
    service: u32,
    dialogue: u32,
    what: Passing,
    k: usize,
) -> Option<Reply>
    requires { (k < 8) × (linked_of what ≤ 256) }
{
    let given = program_words::octets_of_two(line, b' ', k)?;
    Some(call_pass::pass(
        table,
        service,
        dialogue,
        what,
        cut(line, given.first),
        cut(line, given.second),
    ))
}

// A sending, with a context name and user information.
fn send(lent: &mut Lent, line: &mut [u8], what: Sending) -> Option<Reply> {
    let (service, dialogue) = asked::on_dialogue(line)?;
    let given = program_words::octets_of_two(line, b' ', 3)?;
    Some(call_send::send(
        lent.table,
        service,
        dialogue,
        what,
        cut(line, given.first),
        cut(line, given.second),
        lent.space,
    ))
}

fn reply_to(lent: &mut Lent, line: &mut [u8]) -> Option<Reply> {
    match (asked::blanks(line), asked::verb(line)) {
        (1, b"open") => open(lent.table, line),
        (2, b"fresh") => fresh(lent.table, line),
        (2, b"recv") => receive(lent, line),
        (2, b"prearranged") => end_prearranged(lent.table, line),
        (2, b"noreaction") => no_reaction(lent, line),
        (3, b"abort") => abort(lent, line),
        (3, b"cancel") => idle(lent.table, line, Idler::User),
        (3, b"rejtimeout") => idle(lent.table, line, Idler::RejectTimer),
        (3, b"timeout") => timeout(lent, line),
        (4, b"reject") => reject(lent.table, line),
        (4, b"begin") => send(lent, line, Sending::ABegin),
        (4, b"continue") => send(lent, line, Sending::AContinue),
        (4, b"end") => send(lent, line, Sending::AnEnd),
        (4, b"uni") => send(lent, line, Sending::AUnidirectional),
        (5, b"error") => error(lent.table, line),
        (6, b"result") => result(lent.table, line),
        (7, b"invoke") => invoke(lent.table, line),
        _ => None,
    }
}

// `parameter OCTETS START LENGTH`
fn parameter(rt: &impl Print, line: &mut [u8]) -> Option<()> {
    let (m, start, length) = asked::octets_and_run(line)?;
    show::parameter_line(rt, cut(line, m), start, length);
    Some(())
}

// `portion OCTETS START LENGTH`
fn portion(rt: &impl Print, rows: &mut [u8], line: &mut [u8]) -> Option<()> {
    let (m, start, length) = asked::octets_and_run(line)?;
    call_portion::portion(cut(line, m), start, length, rows);
    show::portion_line(rt, rows);
    Some(())
}

// `components OCTETS`
fn components(rt: &impl Print, line: &mut [u8]) -> Option<()> {
    if asked::blanks(line) != 1 {
        return None;
    }
    let m = asked::octets(line, 1)?;
    show::component_lines(rt, cut(line, m));
    Some(())
}

// A comment, or what a call gives.
fn is_passed_over(line: &[u8]) -> bool {
    matches!(line, [b'#' | b'=', ..])
        || asked::blanks(line) > 0 && matches!(asked::verb(line), b"r" | b"c")
}

fn called(rt: &impl Print, lent: &mut Lent, line: &mut [u8]) -> Option<()> {
    let opens = asked::verb(line) == b"open".as_slice();
    let r = reply_to(lent, line)?;
    show::reply(rt, r, opens, lent.space);
    show::row_lines(rt, lent.rows, r.rows);
    Some(())
}

pub fn play(rt: &impl Print, lent: &mut Lent, line: &mut [u8]) -> Option<()> {
    if is_passed_over(line) {
        return Some(());
    }
    match asked::verb(line) {
        b"parameter" => parameter(rt, line),
        b"components" => components(rt, line),
        b"portion" => portion(rt, lent.rows, line),
        _ => called(rt, lent, line),
    }
}
