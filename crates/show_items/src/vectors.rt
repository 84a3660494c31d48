// The records that are shown: document 002's samples, the ends of each range, and what each call refuses.
use crate::show::{self, Item, Kind};
use std::io;

// The request that most of the others differ from in a part or two.
const REQUEST: Item<'static> = Item {
    ciu: 5,
    gauge: 1,
    letters: b"BL",
    kind: Kind::Alone,
    error: 0,
    characters: b"",
};

// Document 002's samples, a request or a command and its answer.
pub(crate) fn kinds(rt: &impl Print) -> io::Result<()> {
    let samples = [
        REQUEST,
        Item {
            kind: Kind::Taken,
            ..REQUEST
        },
        Item {
            letters: b"DF",
            kind: Kind::Setting,
            characters: b"a",
            ..REQUEST
        },
        Item {
            letters: b"DF",
            kind: Kind::SettingTaken,
            characters: b"A",
            ..REQUEST
        },
        Item {
            letters: b"HA",
            ..REQUEST
        },
        Item {
            letters: b"HA",
            kind: Kind::Value,
            characters: b"012.2345",
            ..REQUEST
        },
        Item {
            letters: b"QQ",
            ..REQUEST
        },
        Item {
            letters: b"QQ",
            kind: Kind::Error,
            error: 51,
            ..REQUEST
        },
    ];
    for item in samples {
        show::both_ways(rt, item)?;
    }
    Ok(())
}

pub(crate) fn ends(rt: &impl Print) -> io::Result<()> {
    let items = [
        Item {
            ciu: 0,
            gauge: 0,
            letters: b"AA",
            kind: Kind::Setting,
            error: 0,
            characters: b"                ",
        },
        Item {
            ciu: 9,
            gauge: 99,
            letters: b"ZZ",
            kind: Kind::Error,
            error: 999,
            characters: b"",
        },
        Item {
            letters: b"QQ",
            kind: Kind::SettingTaken,
            characters: b"~~~~~~~~~~~~~~~~",
            ..REQUEST
        },
    ];
    for item in items {
        show::both_ways(rt, item)?;
    }
    Ok(())
}

pub(crate) fn unwritten(rt: &impl Print) -> io::Result<()> {
    let refused = [
        Item {
            ciu: 10,
            letters: b"bl",
            ..REQUEST
        },
        Item {
            gauge: 300,
            ..REQUEST
        },
        Item {
            letters: b"Bl",
            ..REQUEST
        },
        Item {
            characters: b"x",
            ..REQUEST
        },
        Item {
            kind: Kind::Value,
            ..REQUEST
        },
        Item {
            kind: Kind::Setting,
            characters: b"1=2",
            ..REQUEST
        },
        Item {
            kind: Kind::Error,
            error: 1000,
            ..REQUEST
        },
        Item {
            kind: Kind::None,
            ..REQUEST
        },
    ];
    for item in refused {
        show::both_ways(rt, item)?;
    }
    show::no_room(rt)
}

// A wrong frame, block check or address.
pub(crate) fn unframed(rt: &impl Print) -> io::Result<()> {
    let records: [(&str, &[u8]); 6] = [
        (
            "last byte BA",
            b"\x02\x35\x30\x31\x42\x5a\x51\x51\x21\x30\x35\x31\x03\xba",
        ),
        (
            "seventh byte 52",
            b"\x02\x35\x30\x31\x42\x5a\x52\x51\x21\x30\x35\x31\x03\x3a",
        ),
        (
            "its first nine bytes",
            b"\x02\x35\x30\x31\x42\x5a\x51\x51\x21",
        ),
        (
            "one byte more",
            b"\x02\x35\x30\x31\x42\x5a\x51\x51\x21\x30\x35\x31\x03\x3a\x00",
        ),
        ("CIU @", b"\x02\x40\x30\x31\x42\x5a\x42\x4c\x03\x54"),
        (
            "transmission **",
            b"\x02\x35\x2a\x2a\x42\x5a\x42\x4c\x03\x20",
        ),
    ];
    for (name, bytes) in records {
        show::read(rt, name, bytes)?;
    }
    Ok(())
}

// A right frame and block check around a text that is none.
pub(crate) fn no_item(rt: &impl Print) -> io::Result<()> {
    let records: [(&str, &[u8]); 7] = [
        ("Qq", b"\x02\x35\x30\x31\x42\x5a\x51\x71\x03\x0f"),
        (
            "QQ!51",
            b"\x02\x35\x30\x31\x42\x5a\x51\x51\x21\x35\x31\x03\x0a",
        ),
        (
            "QQ!0511",
            b"\x02\x35\x30\x31\x42\x5a\x51\x51\x21\x30\x35\x31\x31\x03\x0b",
        ),
        ("QQ=", b"\x02\x35\x30\x31\x42\x5a\x51\x51\x3d\x03\x12"),
        (
            "QQ=a=b",
            b"\x02\x35\x30\x31\x42\x5a\x51\x51\x3d\x61\x3d\x62\x03\x2c",
        ),
        ("QQ&&", b"\x02\x35\x30\x31\x42\x5a\x51\x51\x26\x26\x03\x2f"),
        (
            "17 characters",
            b"\x02\x35\x30\x31\x42\x5a\x51\x51\x61\x61\x61\x61\x61\x61\x61\x61\x61\x61\x61\x61\x61\x61\x61\x61\x61\x03\x4e",
        ),
    ];
    for (name, bytes) in records {
        show::read(rt, name, bytes)?;
    }
    Ok(())
}
