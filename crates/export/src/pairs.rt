// A .shp and its .shx, checked.
ghost use Rattle.std.specs.Prelude.{◌≡◌, Err};
ghost use Rattle.pair.specs.Verdicts.{said_verdict};
ghost use Rattle.export.specs.Pairs.{pair_checked, ChecksPair};
ghost use Rattle.export.specs.Refusals.{refusal_of};

use crate::refusals;
use crate::refusals::Refusal;
use pair::{Fault, Totals};

// The refusal's number 0 is the checker's yes.
#[repr(C)]
#[derive(Clone, Copy)]
pub struct PairChecked {
    pub refusal: Refusal,
    pub totals: Totals,
}

impl From<Fault> for Refusal {
    ghost from_gives = { λ e r. r ≡ refusal_of (said_verdict (Err e)) };

    fn from(e: Fault) -> Refusal {
        Refusal::with_numbers(refusals::FAULT, e.rule, e.record)
    }
}

impl From<Result<Totals, Fault>> for PairChecked {
    ghost from_gives = { λ a r. r ≡ pair_checked (said_verdict a) };

    fn from(a: Result<Totals, Fault>) -> PairChecked {
        match a {
            Ok(totals) => PairChecked {
                refusal: Refusal::NONE,
                totals,
            },
            Err(e) => PairChecked {
                refusal: Refusal::from(e),
                totals: Totals::default(),
            },
        }
    }
}

pub fn mbenaruul_check_pair(shp: &[u8], shx: &[u8]) -> PairChecked
    ensures { ChecksPair shp.now shx.now result }
{
    PairChecked::from(pair::check_pair(shp, shx))
}
