// Stays: each call has slices and numbers one by one, and answers by numbers: these are the C interface.
// THE CALLS, as a C host sees them (include/tcap.h): each hands on to the crate that has it.
#![tactic(auto)]

ghost use Rattle.std.specs.Prelude.{◌≡◌, [], ◌+◌, ◌≤◌, length};
ghost use Rattle.paper.specs.Sizes.{octet_of};
ghost use Rattle.paper.specs.Components.{last_tag, not_last_tag, no_id};
ghost use Rattle.paper.specs.Dialogues.Request.{Invoke, Result, Error, UserReject, Cancel, Begin, Continue, End, Prearranged, Abort, Unidirectional, Timeout, RejectTimeout, NoReaction};
ghost use Rattle.paper.specs.Calls.Call.{Open, OnDialogue, Receive};
ghost use Rattle.paper.specs.Layout.{table_size};
ghost use Rattle.paper.specs.Outcome.{Gives, outcome, fresh_outcome, portion_outcome};
ghost use Rattle.paper.specs.Readers.{parameter_at};

use call_entry::Reply;
use call_pass::Passing;
use call_release::Idler;
use call_send::Sending;
use paper::{LAST_TAG, NO_ID, NOT_LAST_TAG};

#[unsafe(no_mangle)]
pub extern "C" fn tcap_table_size() -> usize
    ensures { result ≡ table_size }
{
    call_open::table_size()
}

#[unsafe(no_mangle)]
pub extern "C" fn tcap_fresh(table: &mut [u8], guarantees: &[u8], limits: &[u8]) -> Reply
    ensures { Gives (fresh_outcome table.old guarantees.now limits.now) result.answer result.rows result.length result.dialogue (record { table = table.new; rows = []; space = [] }) }
{
    call_open::fresh(table, guarantees, limits)
}

#[unsafe(no_mangle)]
pub extern "C" fn tcap_open(table: &mut [u8], service: u32) -> Reply
    ensures { Gives (outcome (record { table = table.old; rows = []; space = [] }) (Open service)) result.answer result.rows result.length result.dialogue (record { table = table.new; rows = []; space = [] }) }
{
    call_open::open(table, service)
}

#[unsafe(no_mangle)]
pub extern "C" fn tcap_invoke(
    table: &mut [u8],
    service: u32,
    dialogue: u32,
    id: i8,
    class: u32,
    operation: &[u8],
    parameter: &[u8],
) -> Reply
    ensures { Gives (outcome (record { table = table.old; rows = []; space = [] }) (OnDialogue service dialogue (Invoke (octet_of id) no_id class operation.now parameter.now))) result.answer result.rows result.length result.dialogue (record { table = table.new; rows = []; space = [] }) }
{
    let octet = call_entry::octet_of(id);
    let invoke = Passing::AnInvoke(octet, NO_ID, class);
    call_pass::pass(table, service, dialogue, invoke, operation, parameter)
}

#[unsafe(no_mangle)]
pub extern "C" fn tcap_invoke_linked(
    table: &mut [u8],
    service: u32,
    dialogue: u32,
    id: i8,
    linked: i8,
    class: u32,
    operation: &[u8],
    parameter: &[u8],
) -> Reply
    ensures { Gives (outcome (record { table = table.old; rows = []; space = [] }) (OnDialogue service dialogue (Invoke (octet_of id) (octet_of linked) class operation.now parameter.now))) result.answer result.rows result.length result.dialogue (record { table = table.new; rows = []; space = [] }) }
{
    let octet = call_entry::octet_of(id);
    let other = call_entry::octet_of(linked);
    let partner = u32::from(other);
    let invoke = Passing::AnInvoke(octet, partner, class);
    call_pass::pass(table, service, dialogue, invoke, operation, parameter)
}

#[unsafe(no_mangle)]
pub extern "C" fn tcap_result_last(
    table: &mut [u8],
    service: u32,
    dialogue: u32,
    id: i8,
    operation: &[u8],
    parameter: &[u8],
) -> Reply
    ensures { Gives (outcome (record { table = table.old; rows = []; space = [] }) (OnDialogue service dialogue (Result last_tag (octet_of id) operation.now parameter.now))) result.answer result.rows result.length result.dialogue (record { table = table.new; rows = []; space = [] }) }
{
    let octet = call_entry::octet_of(id);
    let last = Passing::AResult(LAST_TAG, octet);
    call_pass::pass(table, service, dialogue, last, operation, parameter)
}

#[unsafe(no_mangle)]
pub extern "C" fn tcap_result_not_last(
    table: &mut [u8],
    service: u32,
    dialogue: u32,
    id: i8,
    operation: &[u8],
    parameter: &[u8],
) -> Reply
    ensures { Gives (outcome (record { table = table.old; rows = []; space = [] }) (OnDialogue service dialogue (Result not_last_tag (octet_of id) operation.now parameter.now))) result.answer result.rows result.length result.dialogue (record { table = table.new; rows = []; space = [] }) }
{
    let octet = call_entry::octet_of(id);
    let not_last = Passing::AResult(NOT_LAST_TAG, octet);
    call_pass::pass(table, service, dialogue, not_last, operation, parameter)
}

#[unsafe(no_mangle)]
pub extern "C" fn tcap_error(
    table: &mut [u8],
    service: u32,
    dialogue: u32,
    id: i8,
    error: &[u8],
    parameter: &[u8],
) -> Reply
    ensures { Gives (outcome (record { table = table.old; rows = []; space = [] }) (OnDialogue service dialogue (Error (octet_of id) error.now parameter.now))) result.answer result.rows result.length result.dialogue (record { table = table.new; rows = []; space = [] }) }
{
    let octet = call_entry::octet_of(id);
    let what = Passing::AnError(octet);
    call_pass::pass(table, service, dialogue, what, error, parameter)
}

#[unsafe(no_mangle)]
pub extern "C" fn tcap_reject(
    table: &mut [u8],
    service: u32,
    dialogue: u32,
    id: i8,
    problem: u32,
) -> Reply
    ensures { Gives (outcome (record { table = table.old; rows = []; space = [] }) (OnDialogue service dialogue (UserReject (octet_of id) problem))) result.answer result.rows result.length result.dialogue (record { table = table.new; rows = []; space = [] }) }
{
    let octet = call_entry::octet_of(id);
    let reject = Passing::AReject(octet, problem);
    call_pass::pass(table, service, dialogue, reject, b"", b"")
}

#[unsafe(no_mangle)]
pub extern "C" fn tcap_cancel(table: &mut [u8], service: u32, dialogue: u32, id: i8) -> Reply
    ensures { Gives (outcome (record { table = table.old; rows = []; space = [] }) (OnDialogue service dialogue (Cancel (octet_of id)))) result.answer result.rows result.length result.dialogue (record { table = table.new; rows = []; space = [] }) }
{
    let octet = call_entry::octet_of(id);
    call_release::idle(table, service, dialogue, octet, Idler::User)
}

#[unsafe(no_mangle)]
pub extern "C" fn tcap_begin(
    table: &mut [u8],
    service: u32,
    dialogue: u32,
    name: &[u8],
    information: &[u8],
    space: &mut [u8],
) -> Reply
    ensures { Gives (outcome (record { table = table.old; rows = []; space = space.old }) (OnDialogue service dialogue (Begin name.now information.now))) result.answer result.rows result.length result.dialogue (record { table = table.new; rows = []; space = space.new }) }
{
    let begin = Sending::ABegin;
    call_send::send(table, service, dialogue, begin, name, information, space)
}

#[unsafe(no_mangle)]
pub extern "C" fn tcap_continue(
    table: &mut [u8],
    service: u32,
    dialogue: u32,
    name: &[u8],
    information: &[u8],
    space: &mut [u8],
) -> Reply
    ensures { Gives (outcome (record { table = table.old; rows = []; space = space.old }) (OnDialogue service dialogue (Continue name.now information.now))) result.answer result.rows result.length result.dialogue (record { table = table.new; rows = []; space = space.new }) }
{
    let next = Sending::AContinue;
    call_send::send(table, service, dialogue, next, name, information, space)
}

#[unsafe(no_mangle)]
pub extern "C" fn tcap_end(
    table: &mut [u8],
    service: u32,
    dialogue: u32,
    name: &[u8],
    information: &[u8],
    space: &mut [u8],
) -> Reply
    ensures { Gives (outcome (record { table = table.old; rows = []; space = space.old }) (OnDialogue service dialogue (End name.now information.now))) result.answer result.rows result.length result.dialogue (record { table = table.new; rows = []; space = space.new }) }
{
    let end = Sending::AnEnd;
    call_send::send(table, service, dialogue, end, name, information, space)
}

#[unsafe(no_mangle)]
pub extern "C" fn tcap_end_prearranged(table: &mut [u8], service: u32, dialogue: u32) -> Reply
    ensures { Gives (outcome (record { table = table.old; rows = []; space = [] }) (OnDialogue service dialogue Prearranged)) result.answer result.rows result.length result.dialogue (record { table = table.new; rows = []; space = [] }) }
{
    call_release::end_prearranged(table, service, dialogue)
}

#[unsafe(no_mangle)]
pub extern "C" fn tcap_abort(
    table: &mut [u8],
    service: u32,
    dialogue: u32,
    portion: &[u8],
    space: &mut [u8],
) -> Reply
    ensures { Gives (outcome (record { table = table.old; rows = []; space = space.old }) (OnDialogue service dialogue (Abort portion.now))) result.answer result.rows result.length result.dialogue (record { table = table.new; rows = []; space = space.new }) }
{
    call_send::send_abort(table, service, dialogue, portion, space)
}

#[unsafe(no_mangle)]
pub extern "C" fn tcap_unidirectional(
    table: &mut [u8],
    service: u32,
    dialogue: u32,
    name: &[u8],
    information: &[u8],
    space: &mut [u8],
) -> Reply
    ensures { Gives (outcome (record { table = table.old; rows = []; space = space.old }) (OnDialogue service dialogue (Unidirectional name.now information.now))) result.answer result.rows result.length result.dialogue (record { table = table.new; rows = []; space = space.new }) }
{
    let alone = Sending::AUnidirectional;
    call_send::send(table, service, dialogue, alone, name, information, space)
}

#[unsafe(no_mangle)]
pub extern "C" fn tcap_receive(
    table: &mut [u8],
    service: u32,
    message: &[u8],
    rows: &mut [u8],
    space: &mut [u8],
) -> Reply
    ensures { Gives (outcome (record { table = table.old; rows = rows.old; space = space.old }) (Receive service message.now)) result.answer result.rows result.length result.dialogue (record { table = table.new; rows = rows.new; space = space.new }) }
{
    call_receive::receive(table, service, message, rows, space)
}

#[unsafe(no_mangle)]
pub extern "C" fn tcap_timeout(
    table: &mut [u8],
    service: u32,
    dialogue: u32,
    id: i8,
    rows: &mut [u8],
) -> Reply
    ensures { Gives (outcome (record { table = table.old; rows = rows.old; space = [] }) (OnDialogue service dialogue (Timeout (octet_of id)))) result.answer result.rows result.length result.dialogue (record { table = table.new; rows = rows.new; space = [] }) }
{
    let octet = call_entry::octet_of(id);
    call_release::timeout(table, service, dialogue, octet, rows)
}

#[unsafe(no_mangle)]
pub extern "C" fn tcap_reject_timeout(
    table: &mut [u8],
    service: u32,
    dialogue: u32,
    id: i8,
) -> Reply
    ensures { Gives (outcome (record { table = table.old; rows = []; space = [] }) (OnDialogue service dialogue (RejectTimeout (octet_of id)))) result.answer result.rows result.length result.dialogue (record { table = table.new; rows = []; space = [] }) }
{
    let octet = call_entry::octet_of(id);
    call_release::idle(table, service, dialogue, octet, Idler::RejectTimer)
}

#[unsafe(no_mangle)]
pub extern "C" fn tcap_no_reaction(
    table: &mut [u8],
    service: u32,
    dialogue: u32,
    rows: &mut [u8],
) -> Reply
    ensures { Gives (outcome (record { table = table.old; rows = rows.old; space = [] }) (OnDialogue service dialogue NoReaction)) result.answer result.rows result.length result.dialogue (record { table = table.new; rows = rows.new; space = [] }) }
{
    call_release::no_reaction(table, service, dialogue, rows)
}

// Where a component's parameter stands in the message; 0, 0 for none.
#[repr(C)]
#[derive(Clone, Copy)]
pub struct Span {
    pub start: usize,
    pub length: usize,
}

#[unsafe(no_mangle)]
pub extern "C" fn tcap_parameter(message: &[u8], start: usize, len: usize) -> Span
    ensures is { (result.start ≡ (parameter_at message.now start len).start) × (result.length ≡ (parameter_at message.now start len).length) }
    ensures within { result.start + result.length ≤ length message.now }
{
    let p = reading_parameter::parameter_at(message, start, len);
    Span {
        start: p.start,
        length: p.length,
    }
}

#[unsafe(no_mangle)]
pub extern "C" fn tcap_portion(
    message: &[u8],
    start: usize,
    length: usize,
    rows: &mut [u8],
) -> Reply
    ensures { Gives (portion_outcome rows.old message.now start length) result.answer result.rows result.length result.dialogue (record { table = []; rows = rows.new; space = [] }) }
{
    call_portion::portion(message, start, length, rows)
}
