// "a reader that stays on one message and gives its components one after another up to a syntax fault" (01, "Rows").
#![tactic(auto)]

ghost use Rattle.std.specs.Prelude.{◌≡◌};
ghost use Rattle.std.specs.Iterator.{at_most};
ghost use Rattle.reading_reader.specs.Read.{first_cursor, piece_in, piece_at, at_start, moved_to, left_at, Goes};
ghost use Rattle.reading_reader.specs.Whole.{PieceFits};

use paper::{Component, IS_SOUND, LONGEST_MESSAGE, NO_FAULT};

// Where the components of a message end, and where the next one starts.
#[derive(Clone, Copy)]
pub struct Cursor {
    pub lim: usize,
    pub at: usize,
}

// A component: where it starts, and the cursor past it.
#[derive(Clone, Copy)]
pub struct Piece {
    pub at: usize,
    pub component: Component,
    pub next: Cursor,
}

// The message, and the cursor of the component to give next, none where the message has no components.
#[derive(Clone, Copy)]
pub struct Reader<'a> {
    pub msg: &'a [u8],
    pub cursor: Option<Cursor>,
}

// The cursor of the first component: "none where the message is refused by 4, dropped for its form or at fault with cause 0 or 2".
fn first_cursor(s: &[u8]) -> Option<Cursor>
    ensures { result ≡ first_cursor s.now }
{
    if s.is_empty() || s.len() > LONGEST_MESSAGE {
        return None;
    }
    let m = reading_messages::message_of(s);
    // Stays: `from` is 0 where there are no components, as paper's definition of a message has it (specs/Messages.antt, message_of).
    if m.fault != IS_SOUND || m.from == 0 {
        return None;
    }
    Some(Cursor {
        lim: m.to,
        at: m.from,
    })
}

// The component at a position, where they end at lim.
fn piece_in(s: &[u8], lim: usize, at: usize) -> Option<Piece>
    ensures { result ≡ piece_in s.now lim at }
{
    if s.len() > LONGEST_MESSAGE || s.len() < lim || at >= lim {
        return None;
    }
    let component = reading_components::component_at(s, lim, at);
    if component.fault != NO_FAULT {
        return None;
    }
    let next = Cursor {
        lim,
        at: component.stop,
    };
    Some(Piece {
        at,
        component,
        next,
    })
}

// The component at a cursor.
fn piece_at(s: &[u8], cursor: Option<Cursor>) -> Option<Piece>
    ensures is { result ≡ piece_at s.now cursor }
    ensures fits { PieceFits cursor result }
{
    let k = cursor?;
    piece_in(s, k.lim, k.at)
}

impl<'a> Reader<'a> {
    // Before the first component. The message is read here only.
    pub fn new(msg: &'a [u8]) -> Reader<'a>
        ensures { result ≡ at_start msg.entry }
    {
        Reader {
            msg,
            cursor: first_cursor(msg),
        }
    }

    // The same message from another cursor on.
    pub fn moved(self, cursor: Option<Cursor>) -> Reader<'a>
        ensures { result ≡ moved_to self.entry cursor }
    {
        Reader { cursor, ..self }
    }
}

// The reader's law (specs/Whole.antt, reader-gives) is about what these members name.
impl<'a> Iterator for Reader<'a> {
    type Item = Piece;

    ghost next_gives = { Goes };

    ghost remaining = { λ r. at_most (left_at r.cursor) };

    fn next(&mut self) -> Option<Piece> {
        let p = piece_at(self.msg, self.cursor)?;
        self.cursor = Some(p.next);
        Some(p)
    }
}
