// The smallest part of a fit that shows an entry: document 02, P9. The list is run once; what the entry's rule looks at is then held
// against each part that is tried, in place of the part's own list.
#![tactic(auto)]

mod deciding;
pub mod kept;
pub mod members;
pub mod shown;

ghost use Rattle.std.specs.Prelude.{◌≡◌, ◌+◌, ◌*◌, ◌<◌, ◌≤◌, ◌++◌, length};
ghost use Rattle.words.specs.Words.{any_of};
ghost use Rattle.catalogue.specs.Catalogue.{catalogue_of};
ghost use Rattle.fit.specs.Fit.{fit_of};
ghost use Rattle.context.specs.Gathered.{pair_count};
ghost use Rattle.context.specs.Held.{pair_in, pairs_in};
ghost use Rattle.calls.specs.Output.{output, room_refusals};
ghost use Rattle.calls.specs.Gave.{GaveBytes, word_of};
ghost use Rattle.cause.specs.Cause.{bad_volume, cause_refusals, cause_bytes};

use catalogue::Catalogue;
use context::Context;
use deciding::Deciding;
use fit::Fit;
use numbers::refusals::Refusal;
use numbers::slots;

// Whether pair i is in Cargo and has no volume that sums can only grow by. A type that the catalogue lacks has +0.
fn bad_volume(context: &Context, i: usize) -> bool
    requires { i < pair_count context.now.fit.now }
    ensures { result ≡ bad_volume (pair_in context.now i) }
{
    let volume = context.type_at(i).map_or(0.0, |info| info.volume);
    let fair = (0.0 <= volume) & volume.is_finite();
    context.is_in(i, slots::CARGO) & !fair
}

// 15.
fn any_bad_volume(context: &Context) -> bool
    ensures { result ≡ any_of bad_volume (pairs_in context.now) }
{
    0 < context.count(|i| bad_volume(context, i))
}

// The call on images that are accepted: 14, 15, 10.
pub fn cause(
    catalogue: &Catalogue,
    fit: &Fit,
    position: u32,
    out: &mut [u8],
) -> Result<usize, Refusal>
    ensures { let c = catalogue_of catalogue.now in
        let f = fit_of fit.now in
        let bs = cause_bytes c f position in
        GaveBytes out.old out.new (word_of result) (output (cause_refusals c f position ++ room_refusals out.old bs) bs) }
{
    let mut hints = [0u32; context::LIST_HINTS];
    let mut pairs = [context::UNKNOWN; 256];
    let context = Context::new(catalogue, fit, &mut hints, &mut pairs);
    let Some(shown) = shown::shown_at(&context, &mut hints, position as usize) else {
        return Err(Refusal::NoEntry);
    };
    if any_bad_volume(&context) {
        return Err(Refusal::BadVolume);
    }
    let deciding = Deciding::new(&context, shown);
    let kept = kept::thinned(&context, shown, &deciding);
    kept::write(&kept, context.fit.pair_count(), out)
}
