ghost use Rattle.report.specs.Lines.{Small};

use crate::Line;
use crate::lines::write_line;
use model::Refusal;
use rows::Lent;
use std::process::Abort;
use weighing::{Counting, Effort, Weights};

/// The line is this text, and the bytes around it stay.
fn reads(rt: &impl Abort, line: &Line, text: &[u8])
    requires { Small line.now }
{
    let mut buffer = [9; 80];
    let mut report = Lent::new(&mut buffer);
    assert_eq!(rt; report.extend_from_slice(&[9, 9]), Ok(()));
    assert_eq!(rt; write_line(&mut report, line), Ok(()));
    let end = report.len();
    assert_eq!(rt; &buffer[0..2], [9, 9].as_slice());
    assert_eq!(rt; &buffer[2..end], text);
    assert_eq!(rt; buffer[end], 9);
}

#[test]
fn an_atom_is_weighed(rt: HostRuntime) {
    let line = Line::Weighed {
        atom: 2,
        own: 3,
        negated: 3,
        counting: Weights {
            goal: Counting(58),
            against: Counting(82),
        },
        effort: Weights {
            goal: Effort::Minutes(6),
            against: Effort::Minutes(4),
        },
    };
    reads(&rt, &line, b"2 3 3 58 82 6 4\n");
}

#[test]
fn what_cannot_be_done_is_never(rt: HostRuntime) {
    let line = Line::Weighed {
        atom: 10,
        own: 0,
        negated: 1,
        counting: Weights {
            goal: Counting(0),
            against: Counting(100),
        },
        effort: Weights {
            goal: Effort::Never,
            against: Effort::Minutes(0),
        },
    };
    reads(&rt, &line, b"10 0 1 0 100 never 0\n");
}

#[test]
fn the_longest_line(rt: HostRuntime) {
    let line = Line::Weighed {
        atom: 255,
        own: 64,
        negated: 64,
        counting: Weights {
            goal: Counting(18_446_744_073_709_551_615),
            against: Counting(18_446_744_073_709_551_615),
        },
        effort: Weights {
            goal: Effort::Minutes(4_294_967_295),
            against: Effort::Minutes(4_294_967_295),
        },
    };
    reads(
        &rt,
        &line,
        b"255 64 64 18446744073709551615 18446744073709551615 4294967295 4294967295\n",
    );
}

#[test]
fn an_atom_is_refused(rt: HostRuntime) {
    let line = Line::Refused {
        atom: 7,
        refusal: Refusal::TooManyRows { atom: 7 },
    };
    reads(&rt, &line, b"7 refused 16 7\n");
}
