// How far the devices of the grants have come.
ghost use Rattle.std.specs.Prelude.{◌≡◌};
ghost use Rattle.std.specs.Fn.{FnOnceReturnsAtMut};
ghost use Rattle.coordinator.specs.Replying.{Notes};

/// How far the device of a grant has come. No mark is ever cleared.
#[derive(Clone, Copy, Debug, PartialEq, Eq, Drop, Default)]
pub struct Record {
    /// A Discover Response of it was heard, and acknowledged.
    pub seen: bool,
    /// A Configuration Status of it was heard, and answered with its grant.
    pub requested: bool,
    /// It acknowledged the grant.
    pub configured: bool,
}

// Changes the record of grant i in place. A number past the table changes nothing.
// By its index: after `get_mut` of a slice no proof knows what the slice holds.
pub(crate) fn note<F: FnOnce(&mut Record)>(records: &mut [Record], i: usize, change: F)
    requires { F.IsAlwaysCallable change }
    ensures { Notes (λ x y. FnOnceReturnsAtMut F.FnOnce change x tt y) records.old i records.new }
{
    let place = i.saturating_sub(1);
    if place < records.len() {
        change(&mut records[place]);
    }
}
