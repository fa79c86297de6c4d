// The fourteen kinds of shape in one constant table, and the lookup by code.
ghost use Rattle.std.specs.Prelude.{◌≡◌, ◌<◌, IfSome};
ghost use Rattle.format.specs.Kinds.{kinds_passed, row_at, said_found, kind_of};

// A code and no enum of kinds: document 01 asks for one constant table of code, z, m and parts.
#[derive(Clone, Copy, Debug, PartialEq, Eq)]
pub struct Kind {
    pub code: u32,
    pub z: bool,
    pub m: bool,
    pub parts: bool,
}

// A code that the table does not have.
#[derive(Clone, Copy, Debug, PartialEq, Eq)]
pub struct UnknownKind(pub i32);

const KINDS: [Kind; 14] = [
    Kind {
        code: 0,
        z: false,
        m: false,
        parts: false,
    },
    Kind {
        code: 1,
        z: false,
        m: false,
        parts: false,
    },
    Kind {
        code: 3,
        z: false,
        m: false,
        parts: true,
    },
    Kind {
        code: 5,
        z: false,
        m: false,
        parts: true,
    },
    Kind {
        code: 8,
        z: false,
        m: false,
        parts: false,
    },
    Kind {
        code: 11,
        z: true,
        m: true,
        parts: false,
    },
    Kind {
        code: 13,
        z: true,
        m: true,
        parts: true,
    },
    Kind {
        code: 15,
        z: true,
        m: true,
        parts: true,
    },
    Kind {
        code: 18,
        z: true,
        m: true,
        parts: false,
    },
    Kind {
        code: 21,
        z: false,
        m: true,
        parts: false,
    },
    Kind {
        code: 23,
        z: false,
        m: true,
        parts: true,
    },
    Kind {
        code: 25,
        z: false,
        m: true,
        parts: true,
    },
    Kind {
        code: 28,
        z: false,
        m: true,
        parts: false,
    },
    Kind {
        code: 31,
        z: true,
        m: true,
        parts: true,
    },
];

// The row with this code, where the table has it. (It stays beside `find_kind`: it is public, and docs/PROMISES.md names it.)
pub fn row_of(code: i32) -> Option<usize>
    ensures row { kinds_passed result ≡ row_at code }
    ensures in_table { IfSome result (λ i. i < 14) }
{
    let code = u32::try_from(code).ok()?;
    KINDS.iter().position(|kind| kind.code == code)
}

// The kind with this code.
pub fn find_kind(code: i32) -> Result<Kind, UnknownKind>
    ensures { said_found result ≡ kind_of code }
{
    match row_of(code) {
        Some(row) => Ok(KINDS[row]),
        None => Err(UnknownKind(code)),
    }
}
