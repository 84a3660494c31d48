// The whole page: the sections of all pairs, and what stands around them.
ghost use Rattle.std.specs.Prelude.{◌≡◌, true, ◌+◌, ◌*◌, length};
ghost use Rattle.sheet.specs.Slots.{size_allowed, slots, list_of};
ghost use Rattle.summary.specs.Line.{pair_of};
ghost use Rattle.summary.specs.Worked.{entries_of_pair};
ghost use Rattle.putting.specs.Adds.{Adds, HasRoom};
ghost use Rattle.picture.specs.Page.{section_text, sections_text, page_of};
ghost use Rattle.picture.specs.Inside.Room.{room_of};

use crate::axis::{Axis, axis_of};
use crate::section::Section;
use crate::top::{put_style, put_top};
use calendar::Day;
use layers::noting::{Noted, note_slots};
use putting::Text;
use summary::Line;
use summary::figures::pair_of;

// A sheet of an allowed size with its slots counted, and the axis of its page.
#[derive(Clone, Copy)]
struct Shown<'a> {
    sheet: &'a [u8],
    many: usize,
    axis: Axis,
    ghost sheet_value: { size_allowed sheet.now ≡ true },
    ghost many_value: { many ≡ slots sheet.now },
}

impl<'a> Shown<'a> {
    // The section of a pair: one pass over the sheet notes its slots.
    fn put_section(self, text: &mut Text, line: Line)
        requires { HasRoom text.old (4600 + 624 * length (entries_of_pair (pair_of line) (list_of self.sheet.now))) }
        ensures { Adds (section_text (list_of self.entry.sheet.now) self.entry.axis line)
            (4600 + 624 * length (entries_of_pair (pair_of line) (list_of self.entry.sheet.now))) text.old text.new }
    {
        let pair = pair_of(line);
        let notes = note_slots(self.sheet, self.many, pair);
        let noted = Noted {
            sheet: self.sheet,
            own: &notes.slots[..notes.count],
            pair,
        };
        Section {
            noted,
            axis: self.axis,
            line,
        }
        .put(text);
    }

    // The sections of some lines.
    fn put_sections(self, text: &mut Text, lines: &[Line])
        requires { HasRoom text.old (room_of (list_of self.sheet.now) lines.now) }
        ensures { Adds (sections_text (list_of self.entry.sheet.now) self.entry.axis lines.now)
            (room_of (list_of self.entry.sheet.now) lines.now) text.old text.new }
    {
        for &line in lines {
            self.put_section(text, line);
        }
    }
}

pub(crate) fn put_page(text: &mut Text, sheet: &[u8], many: usize, name: &[u8], begin: Option<Day>)
    requires sheet_value { size_allowed sheet.now ≡ true }
    requires many_value { many ≡ slots sheet.now }
    requires room { HasRoom text.old (624 * many + 145000 + 2 * length name.now) }
    ensures { Adds (page_of sheet.now name.now begin)
        (624 * many + 145000 + 2 * length name.now) text.old text.new }
{
    let page = summary::sisal_summary_of(sheet).summary;
    let tally = cards::count(sheet);
    let axis = axis_of(begin, tally.first, tally.last);
    put_style(text, name);
    put_top(text, name, tally, page.others, axis);
    let shown = Shown { sheet, many, axis };
    shown.put_sections(text, &page.lines[..page.count as usize]);
    text.word(b"</main></body></html>\n");
}
