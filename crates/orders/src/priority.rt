// A priority: which of two orders is before the other, by what both show.
ghost use Rattle.std.specs.Prelude.{◌≡◌};
ghost use Rattle.orders.specs.Ranking.{Ranking};

use crate::trade::Header;

pub trait Priority {
    // What the priority means, with the laws of an order.
    ghost ranking: { Ranking };

    fn before(a: &Header, b: &Header) -> bool
        ensures { result ≡ ranking.before a.now b.now };
}
