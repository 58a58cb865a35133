// How far off a set is at most: its size less what the racks hold above what the ship has.
ghost use Rattle.std.specs.Prelude.{◌≡◌, ◌-◌, ◌≤◌};
ghost use Rattle.catalogue.specs.Catalogue.{catalogue_of};
ghost use Rattle.fit.specs.Fit.{fit_of};
ghost use Rattle.racks.specs.Taking.{row_of};
ghost use Rattle.leave_out.specs.LeaveOut.{surplus};
ghost use Rattle.leave_out.specs.Held.{above_at, above_in, surplus_in};

use context::Context;
use racks::Row;

const RACKS: u8 = 6;

// Of a rack whose name has no id.
const UNNAMED: u32 = 0;

// The count of a row's slots above what the ship has; 0 where its name has no id.
fn above_at(context: &Context, row: Row) -> u32
    ensures { result ≡ above_at context.now (row_of row) }
{
    match context.catalogue.attribute_id(row.name) {
        Some(id) => {
            let used = context.count(|i| racks::takes(context, row.slot, i));
            used.saturating_sub(floats::to_u32(context.fit.amount(0, id)))
        }
        None => UNNAMED,
    }
}

// By the number of a rack.
fn above(context: &Context, kind: u8) -> u32
    ensures { result ≡ above_in context.now kind }
{
    match racks::row_at(kind) {
        Some(row) => above_at(context, row),
        None => 0,
    }
}

// The sum over all racks: six counts do not wrap.
fn all_above(context: &Context) -> u64
    ensures { result ≡ surplus_in context.now }
{
    let mut sum: u64 = 0;
    for kind in 0..RACKS {
        sum += above(context, kind) as u64;
    }
    sum
}

// 0 on a ship that is no hull.
fn surplus(context: &Context) -> u64
    ensures { result ≡ surplus (catalogue_of context.now.catalogue.now) (fit_of context.now.fit.now) }
{
    if validate::is_hull(context) {
        return all_above(context);
    }
    0
}

pub fn distance(context: &Context, size: usize) -> u32
    requires { size ≤ 256 }
    ensures { result ≡ size - surplus (catalogue_of context.now.catalogue.now) (fit_of context.now.fit.now) }
{
    (size as u64).saturating_sub(surplus(context)) as u32
}
