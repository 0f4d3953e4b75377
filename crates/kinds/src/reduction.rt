// How a fill changes what an order shows, the same for every kind.
ghost use Rattle.std.specs.Prelude.{◌≡◌};
ghost use Rattle.kinds.specs.Reduction.{reduced_header};

use orders::trade::Header;

// The header with that much less left; unchanged at more than it has left. This is all that kinds share in being
// reduced: a method of the trait's own for it would want one more of every kind, that puts a header in.
pub(crate) fn reduced_header(header: Header, volume: u32) -> Header
    ensures { result ≡ reduced_header header volume }
{
    if volume <= header.left {
        Header {
            left: header.left - volume,
            ..header
        }
    } else {
        header
    }
}
