// How many cargoes met each fate.
ghost use Rattle.std.specs.Prelude.{◌≡◌, Some};
ghost use Rattle.hosts.specs.Counts.{raised, counts_text};

use device::Fate;
use std::fmt;

// How many cargoes a device accepted, and how many met each fate; each count stays at its greatest value once it is there.
#[derive(Clone, Copy, Default)]
pub(crate) struct FateCounts {
    pub(crate) accepted: u32,
    confirmed: u32,
    repeated: u32,
    lost: u32,
    unknown: u32,
}

impl FateCounts {
    ghost use Rattle.std.specs.Prelude.{◌≡◌};
    ghost use Rattle.hosts.specs.Counts.{with_accepted, with_fate};

    // Counts one more accepted cargo.
    pub(crate) fn accept(&mut self)
        ensures { self.new ≡ with_accepted self.old }
    {
        raise(&mut self.accepted);
    }

    // Counts a fate, if one was told.
    pub(crate) fn count(&mut self, fate: Option<Fate>)
        ensures { self.new ≡ with_fate fate self.old }
    {
        match fate {
            Some(Fate::Confirmed) => raise(&mut self.confirmed),
            Some(Fate::Repeated) => raise(&mut self.repeated),
            Some(Fate::Lost) => raise(&mut self.lost),
            Some(Fate::Unknown) => raise(&mut self.unknown),
            None => {}
        }
    }
}

fn raise(count: &mut u32)
    ensures { count.new ≡ raised count.old }
{
    *count = count.saturating_add(1);
}

impl fmt::Display for FateCounts {
    ghost output = { λ x. Some (counts_text x) };

    fn fmt<W: fmt::Write>(&self, f: &mut fmt::Formatter<W>) -> fmt::Result {
        let FateCounts {
            accepted,
            confirmed,
            repeated,
            lost,
            unknown,
        } = *self;
        write!(
            f,
            "accepted {accepted} Confirmed {confirmed} Repeated {repeated} Lost {lost} Unknown {unknown}"
        )
    }
}
