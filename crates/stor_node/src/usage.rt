// The words of the command, for who typed others.
use program_start::{Form, Need, Program, Value};
use stor_node_cli::bounds;

const FORMS: [Form; 1] = [Form {
    command: "run",
    names: &[
        ("--node", Need::Wanted, Value::Number(1, bounds::NODE)),
        ("--key", Need::Wanted, Value::Secret),
        ("--dir", Need::Wanted, Value::File),
        ("--port", Need::Wanted, Value::Number(1, bounds::PORT)),
        ("--satellite", Need::Wanted, Value::Number(1, bounds::PORT)),
        ("--cap", Need::Free, Value::Number(1, bounds::CAP)),
        ("--addr", Need::Free, Value::Address),
    ],
    together: None,
}];

/// The program and its command.
pub const PROGRAM: Program = Program {
    name: "stor_node",
    forms: &FORMS,
};
