// The bank view (C-13): the used cells of a bank, not copied, but as the part that they are of what the
// caller lends. It asks nothing of its caller: refused, it gives the empty part, and `view_refusal` says
// why. Definitions: specs/View.antt.
#![tactic(auto)]

ghost use Rattle.store.specs.Sheet.{sheets_of};
ghost use Rattle.refusals.specs.Numbers.{refusal_in};
ghost use Rattle.view.specs.View.{ViewRefusalPromise, ViewPromise};

use refusals::Refusal;
use store::Sheets;

// The first of 4 and 5 that store and sheets give cause for.
pub fn view_refusal(store: &[u8], sheets: Sheets<'_, '_>) -> Result<(), Refusal>
    ensures { ViewRefusalPromise store.now (sheets_of sheets.entry.sizes.now sheets.entry.fixed.now) (refusal_in result) }
{
    if !store::lengths_hold(store, sheets) {
        return Err(Refusal::Lengths);
    }
    if !store::sheets_hold(sheets) {
        return Err(Refusal::Sheet);
    }
    Ok(())
}

// The used cells of a bank: a part of the fixed sheet for bank 254, of the store for any other. A size of
// 0 and every refusal give the empty part: it cannot fail, and `view_refusal` tells which it was.
pub fn bank_view<'a>(store: &'a [u8], sheets: Sheets<'_, 'a>, bank: u8) -> &'a [u8]
    ensures { ViewPromise store.now (sheets_of sheets.entry.sizes.now sheets.entry.fixed.now) bank result.now }
{
    match view_refusal(store, sheets) {
        Ok(()) => store::used_cells(store, sheets, bank),
        Err(_) => &store[..0],
    }
}
