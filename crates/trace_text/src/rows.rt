//! The table of calls.

ghost use Rattle.std.specs.Prelude.{◌≡◌, map};
ghost use Rattle.std.specs.Option.{option_map};
ghost use Rattle.trace_text.specs.Calls.{calls, row_of, named, call_named, numbered, call_numbered};

/// A call: its name, its number, how many arguments are told of it, and whether the bytes that it names are told.
#[derive(Clone, Copy)]
pub(crate) struct Row {
    pub(crate) name: &'static [u8],
    pub(crate) number: u64,
    pub(crate) arguments: usize,
    pub(crate) says: bool,
}

macro_rules! row {
    ($name:expr, $number:expr, $arguments:expr, $says:expr) => {
        Row {
            name: $name,
            number: $number,
            arguments: $arguments,
            says: $says,
        }
    };
}

static ROWS: [Row; 22] = [
    row!(b"exit", 1, 1, false),
    row!(b"self", 2, 0, false),
    row!(b"node", 3, 0, false),
    row!(b"nodes", 4, 0, false),
    row!(b"yield", 5, 0, false),
    row!(b"create", 6, 3, false),
    row!(b"join", 7, 1, false),
    row!(b"detach", 8, 1, false),
    row!(b"sem_new", 9, 1, false),
    row!(b"sem_p", 10, 1, false),
    row!(b"sem_v", 11, 1, false),
    row!(b"isomalloc", 12, 1, false),
    row!(b"isofree", 13, 1, false),
    row!(b"migrate_self", 14, 1, false),
    row!(b"migrate", 15, 2, false),
    row!(b"print", 16, 2, true),
    row!(b"bubble_new", 17, 2, false),
    row!(b"bubble_insert", 18, 2, false),
    row!(b"bubble_wake", 19, 1, false),
    row!(b"bubble_gather", 20, 1, false),
    row!(b"create_in", 21, 4, false),
    row!(b"halt", 25, 0, false),
];

/// Every call that a guest can make so far.
#[tactic(auto, unfolding(crate::specs::Calls::calls))]
fn rows() -> &'static [Row]
    ensures { map row_of result.now ≡ calls }
{
    &ROWS
}

fn numbered(rows: &[Row], number: u64) -> Option<Row>
    ensures { option_map row_of result ≡ numbered (map row_of rows.now) number }
{
    for row in rows {
        if row.number == number {
            return Some(*row);
        }
    }
    None
}

fn named(rows: &[Row], name: &[u8]) -> Option<Row>
    ensures { option_map row_of result ≡ named (map row_of rows.now) name.now }
{
    for row in rows {
        if name == row.name {
            return Some(*row);
        }
    }
    None
}

/// The call of this name.
pub(crate) fn call_named(name: &[u8]) -> Option<Row>
    ensures { option_map row_of result ≡ call_named name.now }
{
    named(rows(), name)
}

/// The call of this number.
pub(crate) fn call_numbered(number: u64) -> Option<Row>
    ensures { option_map row_of result ≡ call_numbered number }
{
    numbered(rows(), number)
}
