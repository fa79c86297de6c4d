// A content behind the tests in front of its shape: the kind that it names, which is a taken one, and the size that the record's header gives.
ghost use Rattle.std.specs.Prelude.{◌≡◌, true, pos, ◌-ℤ◌};
ghost use Rattle.std.proofs.Math.Option.{some};
ghost use Rattle.format.specs.Kinds.{kind_at};
ghost use Rattle.format.specs.Lengths.{lengths_of};
ghost use Rattle.format.specs.Units.{in_i32};

use format::kinds::Kind;
use format::lengths::Lengths;
use format::units::Bytes;

#[derive(Clone, Copy)]
pub struct Content {
    pub code: i32,
    pub kind: Kind,
    pub lengths: Lengths,
    pub size: Bytes,
    ghost kind_is: { kind_at code ≡ some kind },
    ghost lengths_are: { lengths_of kind ≡ some lengths },
    ghost held: { in_i32 (size.0 -ℤ pos 4) ≡ true },
}
