//! A sector that comes before all with higher numbers.
ghost use Rattle.std.specs.Prelude.{◌≡◌, nat_eq};
ghost use Rattle.std.specs.Ordering.{on, as_partial_cmp};
ghost use Rattle.std.specs.Cmp.{back_total, partial_order_from_own_ties};
ghost use Rattle.std.specs.Cmp.Rules.{comparing};
ghost use Rattle.std.proofs.Common.{rules};
ghost use Rattle.space_pool.specs.Sectors.{lowest_first};

use iob_base::Sector;
use std::cmp::Ordering;
use std::marker::Model;

// The greatest of a heap is the one with the lowest number.
#[derive(Drop)]
pub(crate) struct Lowest(pub(crate) Sector);

impl Model for Lowest {
    ghost use Rattle.iob_base.specs.DeviceBlock.{DeviceBlock};

    ghost Value = { DeviceBlock };

    ghost view = { λ l. l.0 };
}

impl Lowest {
    pub(crate) fn into_sector(self) -> Sector
        ensures { result ≡ self }
    {
        let Lowest(sector) = self;
        sector
    }
}

impl PartialEq for Lowest {
    ghost eq = { on (λ s. s.number) nat_eq };

    ghost laws = { Prim.search (comparing, rules) };

    fn eq(&self, other: &Lowest) -> bool {
        self.0.number() == other.0.number()
    }
}

impl Eq for Lowest {
    ghost laws = { Prim.search (comparing, rules) };
}

impl PartialOrd for Lowest {
    ghost partial_cmp = { as_partial_cmp lowest_first };

    ghost laws = { partial_order_from_own_ties (Prim.search (comparing, rules)) (Prim.search (comparing, rules)) };

    fn partial_cmp(&self, other: &Lowest) -> Option<Ordering> {
        Some(self.cmp(other))
    }
}

impl Ord for Lowest {
    ghost cmp = { lowest_first };

    ghost total = { Prim.search (comparing, rules) };

    ghost matches_partial_cmp = { Prim.search (comparing, rules) };

    ghost matches_eq = { Prim.search (comparing, rules) };

    fn cmp(&self, other: &Lowest) -> Ordering {
        other.0.number().cmp(&self.0.number())
    }
}
