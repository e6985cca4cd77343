// Which set a record is of, by its mark.
ghost use Rattle.std.specs.Prelude.{◌≡◌};
ghost use Rattle.records.specs.Choice.{set_of, own_set};

use crate::pieces;
use sets::{Numbers, Parameters, SetI, SetIII};

// The set by which a record of this kind is judged: set III's where it has set III's mark, else set I's. The mark is unknown where the
// record is not marked as one of that set. A kind is the record's number, of any size, as in `pieces`.
#[tactic(auto, using(crate::proofs::PieceLaws::set_third, crate::proofs::PieceLaws::set_first))]
pub fn set_of(kind: u8, bytes: &[u8]) -> Numbers
    ensures { result ≡ set_of kind bytes.now }
{
    let third = SetIII::numbers();
    if pieces::is_marked(third, kind, bytes) {
        third
    } else {
        SetI::numbers()
    }
}

// The same beside an entry that works in `set`: that set where the record has its mark.
#[tactic(auto, using(crate::proofs::PieceLaws::own_here, crate::proofs::PieceLaws::own_other))]
pub fn own_set(set: Numbers, kind: u8, bytes: &[u8]) -> Numbers
    ensures { result ≡ own_set set kind bytes.now }
{
    if pieces::is_marked(set, kind, bytes) {
        set
    } else {
        set_of(kind, bytes)
    }
}
