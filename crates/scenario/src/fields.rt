// `set`: the fields of the record that hold a number.
ghost use Rattle.std.specs.Prelude.{◌≡◌, ◌<◌, get_or};
ghost use Rattle.scenario.specs.Words.{words_of};
ghost use Rattle.scenario.specs.Statements.{rows_say, field_rows, set_of};
ghost use Rattle.scenario.specs.declared.grammar.Field.TheVariants.{Last};

use crate::commands::encode_of;
use crate::forms::place;
use crate::grammar::{Field, Statement};
use crate::numbers::value;

// The fields in the order of their forms.
fn field_at(row: usize) -> Field
    requires { row < 23 }
    ensures { result ≡ get_or (rows_say field_rows) row Last }
{
    let fields = [
        Field::Last,
        Field::Bits,
        Field::Count,
        Field::First,
        Field::Second,
        Field::Held,
        Field::Start,
        Field::Started,
        Field::Halfbyte,
        Field::Actual,
        Field::Wanted,
        Field::Load,
        Field::Address,
        Field::Functions,
        Field::Control,
        Field::Number,
        Field::Wait,
        Field::Bank,
        Field::Status0,
        Field::Status1,
        Field::Registered,
        Field::Queued,
        Field::Stateson,
    ];
    fields[row]
}

// What a `set` line says, or a line of the tables behind.
pub fn set_of(line: &[u8]) -> Statement
    ensures { result ≡ set_of (words_of line.now) }
{
    let Some(row) = place(
        line,
        b"set last 18446744073709551615,set bits 255,set count 255,set first 255,set second 255,set held 255,\
          set start 18446744073709551615,set started 255,set halfbyte 255,set actual 255,set wanted 255,set load 255,\
          set address 65535,set functions 4294967295,set control 255,set number 255,set wait 255,set bank 255,\
          set status0 255,set status1 255,set registered 1,set queued 255,set stateson 65535",
    ) else {
        // It fits none of the 23 forms: `encode` comes next.
        return encode_of(line);
    };
    Statement::Set(field_at(row), value(line, 2, u64::MAX))
}
