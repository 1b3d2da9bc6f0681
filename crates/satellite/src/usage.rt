// The words of the commands, for who typed others.
use command_line::bounds;
use program_start::{Form, Need, Program, Value};
use sat_base::limits;

const PIECES: Value = Value::Number(1, limits::PLACES as u64);

const RATE: Value = Value::Number(0, limits::RATE);

const FORMS: [Form; 6] = [
    Form {
        command: "settle",
        names: &[
            ("--secret", Need::Wanted, Value::Secret),
            (
                "--cap",
                Need::Free,
                Value::Number(1, limits::SETTLED as u64),
            ),
        ],
        together: None,
    },
    Form {
        command: "judge",
        names: &[
            ("--k", Need::Wanted, Value::Number(1, bounds::JUDGED as u64)),
            (
                "--share",
                Need::Wanted,
                Value::Number(1, limits::SHARE as u64),
            ),
        ],
        together: None,
    },
    Form {
        command: "init",
        names: &[
            ("--store", Need::Wanted, Value::File),
            ("--k", Need::Wanted, PIECES),
            ("--m", Need::Wanted, PIECES),
            ("--o", Need::Wanted, PIECES),
            ("--n", Need::Wanted, PIECES),
            ("--secret", Need::Free, Value::Secret),
            (
                "--share",
                Need::Free,
                Value::Number(1, limits::SHARE as u64),
            ),
            ("--vet", Need::Free, Value::Number(1, limits::VET as u64)),
            (
                "--fresh",
                Need::Free,
                Value::Number(0, bounds::PERCENT as u64),
            ),
            ("--get", Need::Free, RATE),
            ("--audit", Need::Free, RATE),
            ("--repair", Need::Free, RATE),
            ("--storage", Need::Free, RATE),
            (
                "--cap-nodes",
                Need::Free,
                Value::Number(1, limits::NODES as u64),
            ),
            (
                "--cap-customers",
                Need::Free,
                Value::Number(1, limits::CUSTOMERS as u64),
            ),
            (
                "--cap-segments",
                Need::Free,
                Value::Number(1, limits::SEGMENTS as u64),
            ),
            (
                "--cap-settled",
                Need::Free,
                Value::Number(1, limits::SETTLED as u64),
            ),
            (
                "--cap-tallies",
                Need::Free,
                Value::Number(1, limits::TALLIES as u64),
            ),
            (
                "--cap-statements",
                Need::Free,
                Value::Number(1, limits::STATEMENTS as u64),
            ),
        ],
        together: Some("1 <= k <= m < o <= n doesn't hold"),
    },
    Form {
        command: "serve",
        names: &[
            ("--store", Need::Wanted, Value::File),
            (
                "--port",
                Need::Wanted,
                Value::Number(1, bounds::PORT as u64),
            ),
            (
                "--lanes",
                Need::Free,
                Value::Number(1, bounds::LANES as u64),
            ),
            ("--term", Need::Free, Value::Number(1, limits::TERM)),
            ("--tick", Need::Free, Value::Number(1, bounds::TICK as u64)),
        ],
        together: None,
    },
    Form {
        command: "sheet",
        names: &[
            ("--store", Need::Wanted, Value::File),
            ("--month", Need::Wanted, Value::Month),
        ],
        together: None,
    },
    Form {
        command: "drill",
        names: &[
            ("--start", Need::Wanted, Value::Number(0, u64::MAX)),
            ("--calls", Need::Wanted, Value::Number(1, bounds::CALLS)),
        ],
        together: None,
    },
];

/// The program and its commands.
pub const PROGRAM: Program = Program {
    name: "satellite",
    forms: &FORMS,
};
