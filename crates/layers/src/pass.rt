// A layer of a pair's picture: one pass over the slots noted of the pair, in which its records each add their part.
ghost use Rattle.std.specs.Prelude.{false, ◌*◌, length};
ghost use Rattle.sheet.specs.Slots.{list_of};
ghost use Rattle.summary.specs.Worked.{entries_of_pair};
ghost use Rattle.putting.specs.Adds.{Adds, HasRoom};
ghost use Rattle.layers.specs.Drawing.{layer_text};
ghost use Rattle.layers.specs.Layers.{number_of};

use crate::layer::Layer;
use crate::noting::{Noted, record_of};
use crate::parts::put_part;
use calendar::Day;
use putting::Text;

// The parts of the pair's records on a layer, in their order.
pub fn put_parts(text: &mut Text, noted: Noted, layer: Layer, begin: Option<Day>)
    requires { HasRoom text.old (104 * length (entries_of_pair noted.pair (list_of noted.sheet.now))) }
    ensures { Adds (layer_text begin (number_of layer) false (entries_of_pair noted.entry.pair (list_of noted.entry.sheet.now)))
        (104 * length (entries_of_pair noted.entry.pair (list_of noted.entry.sheet.now))) text.old text.new }
{
    let mut joined = false;
    for &slot in noted.own {
        if let Some(seen) = record_of(noted.sheet, usize::from(slot), noted.pair) {
            joined = put_part(text, layer, joined, seen, begin);
        }
    }
}

// The same of a layer by its number; a number above 5 draws nothing.
pub fn put_layer(text: &mut Text, noted: Noted, layer: u8, begin: Option<Day>)
    requires { HasRoom text.old (104 * length (entries_of_pair noted.pair (list_of noted.sheet.now))) }
    ensures { Adds (layer_text begin layer false (entries_of_pair noted.entry.pair (list_of noted.entry.sheet.now)))
        (104 * length (entries_of_pair noted.entry.pair (list_of noted.entry.sheet.now))) text.old text.new }
{
    if let Ok(layer) = Layer::try_from(layer) {
        put_parts(text, noted, layer, begin);
    }
}
