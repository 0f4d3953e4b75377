// Two priorities: by volume, and by arrival.
ghost use Rattle.kinds.specs.Priorities.{volume_ranking, arrival_ranking};

use orders::priority::Priority;
use orders::trade::Header;

// The larger volume entered is first; of equal volumes the lower folio.
pub struct VolumePriority;

impl Priority for VolumePriority {
    ghost ranking = { volume_ranking };

    // One comparison of pairs would mix what is of a and of b on both sides, which is no plainer.
    fn before(a: &Header, b: &Header) -> bool {
        a.entered > b.entered || (a.entered == b.entered && ArrivalPriority::before(a, b))
    }
}

// The lower folio is first: folios rise as orders arrive.
pub struct ArrivalPriority;

impl Priority for ArrivalPriority {
    ghost ranking = { arrival_ranking };

    fn before(a: &Header, b: &Header) -> bool {
        a.party.folio < b.party.folio
    }
}
