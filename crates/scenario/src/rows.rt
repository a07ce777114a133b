// What a line says: the tables one after the other, from the statements that are each their own.
ghost use Rattle.std.specs.Prelude.{◌≡◌, ◌<◌, get_or};
ghost use Rattle.scenario.specs.Words.{words_of};
ghost use Rattle.scenario.specs.Statements.{rows_say, plain_rows_of, plain_of, words_say, statement_of};
ghost use Rattle.scenario.specs.declared.grammar.Statement.TheVariants.{Blank};

use crate::fields::set_of;
use crate::forms::place;
use crate::grammar::{Buffer, Statement};
use crate::numbers::{byte, ends, flag, short, value};
use crate::words::uncommented;
use board::Half;
use position::Position;

// What the rows say of a line, in the order of their forms; a, b, c and d are the bytes behind the first
// word, m and n are the first and the second word behind it as 16 bits. A list and no match on the row's
// number, here and in commands.rt and fields.rt: a row stands at the place of its form.
fn plain_row(line: &[u8], row: usize) -> Statement
    requires { row < 27 }
    ensures { result ≡ get_or (rows_say (plain_rows_of (words_of line.now))) row Blank }
{
    let a = byte(line, 1);
    let b = byte(line, 2);
    let c = byte(line, 3);
    let d = byte(line, 4);
    let m = short(line, 1);
    let n = short(line, 2);
    let rows = [
        Statement::Edge(value(line, 0, u64::MAX), a),
        Statement::Cut,
        Statement::Post(a, b, c, d),
        Statement::Status(a, b),
        Statement::Wait(flag(line, 1)),
        Statement::Restart,
        Statement::Size(a, b),
        Statement::Cell(a, b, c),
        Statement::Show,
        Statement::Hold(Half::NoHalf),
        Statement::Hold(Half::AddressHalf),
        Statement::Hold(Half::StateHalf),
        Statement::Hold(Half::PositionHalf),
        Statement::Locate(None),
        Statement::Locate(Some(Position {
            address: n,
            extended: c == 1,
        })),
        Statement::Queue(b, c),
        Statement::Length(Buffer::Store, n),
        Statement::Length(Buffer::Sheet, n),
        Statement::Length(Buffer::States, n),
        Statement::Length(Buffer::Room, n),
        Statement::Uneven,
        Statement::Counts,
        Statement::Check,
        Statement::StateByte(m, b),
        Statement::FixedByte(a, b),
        Statement::View(a),
        Statement::Length(Buffer::Fixed, n),
    ];
    rows[row]
}

// Most lines are edges, so that their form is the first.
fn plain(line: &[u8]) -> Statement
    ensures { result ≡ plain_of (words_of line.now) }
{
    let Some(row) = place(
        line,
        b"18446744073709551615 255,cut,post 255 255 255 255,status 255 255,wait 1,restart,size 255 255,\
          cell 255 39 255,show,set half none,set half address,set half state,\
          set half position,set position unknown,set position 65535 1,set queue 31 255,length store 10300,\
          length sheet 300,length states 4200,length room 200,uneven,counts,check,states 4095 255,\
          fixed 39 255,view 255,length fixed 60",
    ) else {
        // It fits none of the 27 forms: `set` comes next.
        return set_of(line);
    };
    plain_row(line, row)
}

// What the words of a line say.
fn said(line: &[u8]) -> Statement
    ensures { result ≡ words_say (words_of line.now) }
{
    if ends(line, 0) {
        return Statement::Blank;
    }
    plain(line)
}

// What a line says, its line feed left off. Any bytes can be handed in: what is no statement says
// `Wrong`.
pub fn statement(line: &[u8]) -> Statement
    ensures { result ≡ statement_of line.now }
{
    said(uncommented(line))
}
