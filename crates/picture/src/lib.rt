// The page of a card, to look at: one file of HTML with its pictures in it, into an output that the caller lends.
#![tactic(auto)]

mod axis;
mod figures;
mod section;
mod top;
mod whole;

ghost use Rattle.std.specs.Prelude.{◌≡◌, ◌+◌, ◌*◌, ◌≤◌, ltb};
ghost use Rattle.picture.specs.Calls.{WritesPicture};

use calendar::Day;
use frame::Fault;
use putting::Text;
use sheet::view::count_slots;
use whole::put_page;

// Whether an output is too short for every page of so many slots, with a name of this length. The name, which stands in it twice, is held to half of what is
// left, since no sum of lengths need fit a number.
fn is_short(have: usize, slots: usize, name: usize) -> bool
    requires { slots ≤ 2048 }
    ensures { result ≡ ltb have (624 * slots + 145000 + 2 * name) }
{
    let fixed = 624 * slots + 145_000;
    have < fixed || (have - fixed) / 2 < name
}

// The page of a sheet, with the card's name in the page's own writing, and dates where the day of minute 0 is given. Refuses by 12 and 15: an output of 624
// bytes for each slot, 145,000 more and twice the name is long enough for every sheet.
pub fn picture(
    sheet: &[u8],
    name: &[u8],
    begin: Option<Day>,
    out: &mut [u8],
) -> Result<usize, Fault>
    ensures { WritesPicture sheet.now name.now begin out.old result out.new }
{
    let slots = count_slots(sheet)?;
    if is_short(out.len(), slots, name.len()) {
        return Err(Fault::ShortOutput);
    }
    let mut text = Text { out, at: 0 };
    put_page(&mut text, sheet, slots, name, begin);
    Ok(text.at)
}
