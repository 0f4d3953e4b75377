// A kind of order: the questions that it answers of itself. No question changes the order.
ghost use Rattle.std.specs.Prelude.{◌≡◌};
ghost use Rattle.orders.specs.Kind.{Kind};
ghost use Rattle.orders.specs.Own.{ComesTo};

use crate::fault::OwnFault;
use crate::trade::Header;

pub trait Order: Copy {
    // What the kind means, with the laws that it must show.
    ghost kind: { Kind Self };

    fn header(&self) -> Header
        ensures { result ≡ kind.header self.now };

    // Asks the kind's own questions: the fault is that of the first that is answered no.
    fn ask_own(&self) -> Result<(), OwnFault>
        ensures { ComesTo result (kind.refusal self.now) };

    // Would it trade this volume at this price?
    fn takes(&self, volume: u32, price: u32) -> bool
        ensures { result ≡ kind.takes self.now volume price };

    // The order with that much less left; unchanged at 0 and at more than it has left.
    fn reduced(&self, volume: u32) -> Self
        ensures { result ≡ kind.reduced self.now volume };
}
