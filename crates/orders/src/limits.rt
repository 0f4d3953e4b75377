// The ranges of houses, folios and volumes.
ghost use Rattle.std.specs.Prelude.{◌≡◌};
ghost use Rattle.orders.specs.Limits.{house_in_range, folio_in_range, volume_in_range};

const HIGHEST_HOUSE: u32 = 999;

const HIGHEST_FOLIO: u32 = 2_147_483_647;

const HIGHEST_VOLUME: u32 = 9_000_000;

pub fn is_house(house: u32) -> bool
    ensures { result ≡ house_in_range house }
{
    (1..=HIGHEST_HOUSE).contains(&house)
}

pub fn is_folio(folio: u32) -> bool
    ensures { result ≡ folio_in_range folio }
{
    (1..=HIGHEST_FOLIO).contains(&folio)
}

pub fn is_volume(volume: u32) -> bool
    ensures { result ≡ volume_in_range volume }
{
    (1..=HIGHEST_VOLUME).contains(&volume)
}
