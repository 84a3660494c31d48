// A level as people say it, by the words of `forms`: 15 ft 7 8/16 in, 30.00 ft, 3.000 m.
use forms::words::put_level;
use putting::Text;
use std::fmt;

// A level by the mode of its settings; a dash where there is none.
#[derive(Clone, Copy)]
pub(crate) struct Level {
    pub(crate) settings: u16,
    pub(crate) level: u16,
}

impl fmt::Display for Level {
    fn fmt<W: fmt::Write>(&self, f: &mut fmt::Formatter<W>) -> fmt::Result {
        if self.level == 0xffff {
            return f.pad("-");
        }
        let mut words = [0u8; 64];
        let mut text = Text {
            out: &mut words,
            at: 0,
        };
        put_level(&mut text, self.settings, self.level);
        let used = text.at;
        f.pad(str::from_utf8(&words[..used]).unwrap_or(""))
    }
}
