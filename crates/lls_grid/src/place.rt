// Where a place stands along one side of a grid.
ghost use Rattle.std.specs.Prelude.{◌≡◌};
ghost use Rattle.lls_grid.specs.Place.{inside};

/// The row or the column from 0, None where the place is outside a grid that has `size` of them.
pub fn index_within(place: i32, size: u32) -> Option<u32>
    ensures { result ≡ inside place size }
{
    let index = u32::try_from(place).ok()?;
    if index < size { Some(index) } else { None }
}
