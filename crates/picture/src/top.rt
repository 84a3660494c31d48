// What stands above the sections.
ghost use Rattle.std.specs.Prelude.{◌+◌, ◌≤◌, length};
ghost use Rattle.putting.specs.Adds.{Adds, HasRoom};
ghost use Rattle.picture.specs.Page.{opening_text, rules_text, scales_text, shapes_text, style_text, legend_text, when_text, others_text, counts_text, top_text};

use crate::axis::Axis;
use calendar::Day;
use cards::Tally;
use forms::days::put_moment;
use forms::form::put_form;
use putting::Text;

// The file's beginning with the card's name, the rules of its text, and how lines and marks look.
fn put_opening(text: &mut Text, name: &[u8])
    requires { HasRoom text.old (202 + length name.now) }
    ensures { Adds (opening_text name.now) (202 + length name.now) text.old text.new }
{
    text.word(
        b"<!DOCTYPE html>\n<html xmlns='http://www.w3.org/1999/xhtml' lang='en'><head><meta charset='utf-8'/>",
    );
    text.word(b"<meta name='viewport' content='width=device-width,initial-scale=1'/><title>");
    text.word(name);
    text.word(b": month sheet</title><style>\n");
}

fn put_rules(text: &mut Text)
    requires { HasRoom text.old 571 }
    ensures { Adds rules_text 571 text.old text.new }
{
    text.word(
        b"body{font:15px/1.45 sans-serif;margin:1.2em auto;max-width:90em;padding:0 1em;color:#111}h1{font-size:1.4em;margin:.2em 0}p{margin:.3em 0}\n",
    );
    text.word(
        b"main{display:grid;grid-template-columns:repeat(auto-fill,minmax(min(100%,26em),1fr));gap:1em;margin-top:1em}h2{font-size:1.2em;margin:0 0 .4em}\n",
    );
    text.word(
        b"section{border:1px solid #999;border-radius:4px;padding:.7em .9em;break-inside:avoid}small{font-weight:normal;font-size:.75em;color:#333}\n",
    );
    text.word(
        b".row{display:flex;margin:.2em 0}.y{flex:0 0 8em;display:flex;flex-direction:column;justify-content:space-between;text-align:right;padding-right:.6em}\n",
    );
}

fn put_scales(text: &mut Text)
    requires { HasRoom text.old 727 }
    ensures { Adds scales_text 727 text.old text.new }
{
    text.word(
        b".y,.axis{font-size:.75em;line-height:1.2}.y b{font-weight:normal;color:#555}.y span:empty{display:none}.axis{flex:1;min-width:0;max-height:2.4em;display:flex;flex-wrap:wrap;row-gap:3em;overflow:hidden}\n",
    );
    text.word(
        b".axis span{flex:0 0 calc(100%*var(--s)/var(--d));border-left:1px solid #777;padding-left:.3em;box-sizing:border-box;white-space:nowrap}.axis span:last-child{flex:1 0 min-content}.axis wbr{white-space:normal}\n",
    );
    text.word(
        b".row svg{flex:1;min-width:0;overflow:visible;background:#f4f4f4 linear-gradient(90deg,#bbb 1px,transparent 1px) 0 0/calc(100%*var(--s)/var(--d)) 100%}\n",
    );
    text.word(
        b"svg{fill:none;print-color-adjust:exact;-webkit-print-color-adjust:exact}path{vector-effect:non-scaling-stroke}.key svg{width:2.5em;height:.9em;vertical-align:middle}\n",
    );
}

fn put_shapes(text: &mut Text)
    requires { HasRoom text.old 644 }
    ensures { Adds shapes_text 644 text.old text.new }
{
    text.word(
        b".l0{height:9em;stroke:#04a;stroke-width:2;stroke-linecap:round}.l1{height:4.5em;stroke:#333;stroke-width:2;stroke-dasharray:3 5;stroke-linecap:round}\n",
    );
    text.word(
        b".l2{height:1em;stroke:#b00;stroke-width:3}.l3{height:1em;stroke:#000;stroke-width:8;stroke-linecap:round}.l4{height:1em;stroke:#000;stroke-width:7;stroke-linecap:square}\n",
    );
    text.word(
        b"table{border-collapse:collapse;margin-top:.4em;font-size:.9em}th{text-align:left;vertical-align:top;font-weight:normal;color:#444;padding-right:1em}\n",
    );
    text.word(
        b"details{font-size:.85em}@media print{body{font-size:10px;max-width:none;margin:0;padding:0}main{display:block;columns:2;column-gap:1em}section{margin:0 0 1em}}</style></head>\n",
    );
}

// How the page looks, on a screen and on paper.
pub(crate) fn put_style(text: &mut Text, name: &[u8])
    requires { HasRoom text.old (2144 + length name.now) }
    ensures { Adds (style_text name.now) (2144 + length name.now) text.old text.new }
{
    put_opening(text, name);
    put_rules(text);
    put_scales(text);
    put_shapes(text);
}

// What the lines and marks mean.
fn put_legend(text: &mut Text)
    requires { HasRoom text.old 697 }
    ensures { Adds legend_text 697 text.old text.new }
{
    text.word(
        b"<p class='key'><svg class='l0' viewBox='0 0 4 2' role='img'><title>level</title><desc>a line</desc><path d='M0,1h4'/></svg> level, broken where a faulty reply lies between; \n",
    );
    text.word(
        b"<svg class='l1' viewBox='0 0 4 2' role='img'><title>temperature</title><desc>a dashed line</desc><path d='M0,1h4'/></svg> temperature; \n",
    );
    text.word(
        b"<svg class='l2' viewBox='0 0 4 2' role='img'><title>faulty reply</title><desc>a bar</desc><path d='M2,0v2'/></svg> faulty reply; \n",
    );
    text.word(
        b"<svg class='l3' viewBox='0 0 4 2' role='img'><title>alarm 1</title><desc>a round dot</desc><path d='M2,1h.1'/></svg> alarm 1; \n",
    );
    text.word(
        b"<svg class='l4' viewBox='0 0 4 2' role='img'><title>alarm 0</title><desc>a square dot</desc><path d='M2,1h.1'/></svg> alarm 0</p>\n",
    );
}

fn put_when(text: &mut Text, begin: Option<Day>, t: Tally)
    requires { HasRoom text.old 50 }
    ensures { Adds (when_text begin t) 50 text.old text.new }
{
    if t.records == 0 {
        text.word(b"no record");
    } else {
        put_moment(text, begin, t.first);
        text.word(b" to ");
        put_moment(text, begin, t.last);
    }
}

fn put_others(text: &mut Text, n: u32)
    requires { HasRoom text.old 130 }
    ensures { Adds (others_text n) 130 text.old text.new }
{
    if n != 0 {
        put_form(
            text,
            b"<p>~ records are of further addresses and settings: the first 30 have a picture, and these have none.</p>\n",
            &[n],
        );
    }
}

fn put_counts(text: &mut Text, name: &[u8], begin: Option<Day>, t: Tally)
    requires slots_bound { t.slots ≤ 65536 }
    requires records_bound { t.records ≤ 65536 }
    requires spoiled_bound { t.spoiled ≤ 65536 }
    requires foreign_bound { t.foreign ≤ 65536 }
    requires room { HasRoom text.old (220 + length name.now) }
    ensures { Adds (counts_text name.now begin t) (220 + length name.now) text.old text.new }
{
    let counts = [
        t.slots as u32,
        t.records as u32,
        t.spoiled as u32,
        t.foreign as u32,
    ];
    text.word(b"<body><h1>");
    text.word(name);
    put_form(
        text,
        b"</h1><p>~ slots: ~ records, ~ spoiled, ~ foreign</p>\n<p>",
        &counts,
    );
    put_when(text, begin, t);
}

pub(crate) fn put_top(text: &mut Text, name: &[u8], t: Tally, others: u32, x: Axis)
    requires slots_bound { t.slots ≤ 65536 }
    requires records_bound { t.records ≤ 65536 }
    requires spoiled_bound { t.spoiled ≤ 65536 }
    requires foreign_bound { t.foreign ≤ 65536 }
    requires room { HasRoom text.old (1200 + length name.now) }
    ensures { Adds (top_text name.now t others x) (1200 + length name.now) text.old text.new }
{
    put_counts(text, name, x.begin, t);
    text.word(b"</p>\n");
    put_others(text, others);
    put_legend(text);
    put_form(text, b"<main style='--s:~;--d:~'>\n", &[x.step, x.days]);
}
