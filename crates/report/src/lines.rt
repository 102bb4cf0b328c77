ghost use Rattle.std.specs.Prelude.{◌≡◌, ◌+◌, ◌≤◌, true, ◌∷◌, ◌++◌, map, length, decimal, is_ok};
ghost use Rattle.rows.specs.Lending.{items, room, Grown};
ghost use Rattle.weighing.specs.Efforts.{effort_text};
ghost use Rattle.report.specs.Fields.{text};
ghost use Rattle.report.specs.Lines.{line_bytes, spaced, Small};

use itoa::Buffer;
use model::Refusal;
use rows::{Full, Lent};
use weighing::{Counting, Effort, Weights};

/// What a report says of an atom.
// Not the atom with a `Result`: neither case is handed on by `?`, both are printed.
#[derive(Clone, Copy)]
pub enum Line {
    /// How many rows explain the atom and how many its negation, and what speaks for it and against it.
    Weighed {
        atom: u8,
        own: usize,
        negated: usize,
        counting: Weights<Counting>,
        effort: Weights<Effort>,
    },
    /// The question is refused.
    Refused {
        atom: u8,
        refusal: Refusal,
    },
}

/// What stands in a line behind the atom, each behind a space.
#[derive(Clone, Copy)]
enum Field {
    Number(u64),
    Word(&'static [u8]),
}

impl From<Counting> for Field {
    ghost from_gives = { λ c f. (text f ≡ decimal c.0) × (length (text f) ≤ 20) };

    fn from(counting: Counting) -> Field {
        let Counting(n) = counting;
        Field::Number(n)
    }
}

impl From<Effort> for Field {
    ghost from_gives = { λ e f. (text f ≡ effort_text e) × (length (text f) ≤ 10) };

    fn from(effort: Effort) -> Field {
        match effort {
            Effort::Minutes(minutes) => Field::Number(minutes as u64),
            Effort::Never => Field::Word(b"never"),
        }
    }
}

/// Writes a line behind what the report holds. It has at most 75 bytes, and is refused only where they do not fit.
pub(crate) fn write_line(report: &mut Lent<'_, u8>, line: &Line) -> Result<(), Full>
    requires { Small line.now }
    ensures short { length (line_bytes line.now) ≤ 75 }
    ensures grown { Grown report.old report.new (line_bytes line.now) result }
    ensures fits { length (items report.old) + 75 ≤ room report.old → is_ok result ≡ true }
{
    match line {
        Line::Weighed {
            atom,
            own,
            negated,
            counting,
            effort,
        } => {
            let fields = [
                Field::Number(*own as u64),
                Field::Number(*negated as u64),
                counting.goal.into(),
                counting.against.into(),
                effort.goal.into(),
                effort.against.into(),
            ];
            write_fields(report, *atom, &fields)
        }
        Line::Refused { atom, refusal } => {
            let fields = [
                Field::Word(b"refused"),
                Field::Number(refusal.number() as u64),
                Field::Number(refusal.place() as u64),
            ];
            write_fields(report, *atom, &fields)
        }
    }
}

/// Writes an atom and the fields behind it, and ends the line.
fn write_fields(report: &mut Lent<'_, u8>, atom: u8, fields: &[Field]) -> Result<(), Full>
    ensures { Grown report.old report.new (decimal atom ++ spaced (map text fields.now)) result }
{
    write_number(report, atom as u64)?;
    for field in fields {
        write_field(report, *field)?;
    }
    report.push(b'\n')
}

/// Writes a space and a field.
fn write_field(report: &mut Lent<'_, u8>, field: Field) -> Result<(), Full>
    ensures { Grown report.old report.new (32 ∷ text field) result }
{
    report.push(b' ')?;
    match field {
        Field::Number(n) => write_number(report, n),
        Field::Word(word) => report.extend_from_slice(word),
    }
}

/// Writes a number in base ten.
// Not by `write!`: its contract says what an Ok wrote, but not that there is one where there is room.
fn write_number(report: &mut Lent<'_, u8>, n: u64) -> Result<(), Full>
    ensures { Grown report.old report.new (decimal n) result }
{
    report.extend_from_slice(Buffer::new().format(n).as_bytes())
}
