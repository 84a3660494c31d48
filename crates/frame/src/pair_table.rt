// The table of pairs, 512 entries: for each pair of codes the number of the pair, or 0xff for a code in no chart, with its first digit straight and
// with it turned. Made by `tools/pair-table`. Compiled, the words are constant data, and an entry is a load and a shift.
ghost use Rattle.std.specs.Prelude.{◌≡◌, ◌<◌};
ghost use Rattle.frame.specs.Inside.PairWords.{entries_of};

// The entries of one first code and eight second codes, a byte each, the lowest code lowest.
#[derive(Clone, Copy)]
pub(crate) struct Entries {
    pub(crate) straight: u64,
    pub(crate) turned: u64,
}

// Those of eight pairs of codes, first code by first code: two such for each.
pub(crate) fn eight(k: u64) -> Entries
    requires { k < 32 }
    ensures { result ≡ entries_of k }
{
    match k {
        0 => Entries {
            straight: 0x0504060702030100,
            turned: 0x5e5f5d5c61606263,
        },
        1 => Entries {
            straight: 0xffffff08ffffff09,
            turned: 0xffffff5bffffff5a,
        },
        2 => Entries {
            straight: 0x0e0f0d0c11101213,
            turned: 0x5554565752535150,
        },
        3 => Entries {
            straight: 0xffffff0bffffff0a,
            turned: 0xffffff58ffffff59,
        },
        4 => Entries {
            straight: 0x2223212025242627,
            turned: 0x414042433e3f3d3c,
        },
        5 => Entries {
            straight: 0xffffff1fffffff1e,
            turned: 0xffffff44ffffff45,
        },
        6 => Entries {
            straight: 0x19181a1b16171514,
            turned: 0x4a4b49484d4c4e4f,
        },
        7 => Entries {
            straight: 0xffffff1cffffff1d,
            turned: 0xffffff47ffffff46,
        },
        8 => Entries {
            straight: 0x4a4b49484d4c4e4f,
            turned: 0x19181a1b16171514,
        },
        9 => Entries {
            straight: 0xffffff47ffffff46,
            turned: 0xffffff1cffffff1d,
        },
        10 => Entries {
            straight: 0x414042433e3f3d3c,
            turned: 0x2223212025242627,
        },
        11 => Entries {
            straight: 0xffffff44ffffff45,
            turned: 0xffffff1fffffff1e,
        },
        12 => Entries {
            straight: 0x2d2c2e2f2a2b2928,
            turned: 0x3637353439383a3b,
        },
        13 => Entries {
            straight: 0xffffff30ffffff31,
            turned: 0xffffff33ffffff32,
        },
        14 => Entries {
            straight: 0x3637353439383a3b,
            turned: 0x2d2c2e2f2a2b2928,
        },
        15 => Entries {
            straight: 0xffffff33ffffff32,
            turned: 0xffffff30ffffff31,
        },
        16 => Entries {
            straight: 0x5e5f5d5c61606263,
            turned: 0x0504060702030100,
        },
        17 => Entries {
            straight: 0xffffff5bffffff5a,
            turned: 0xffffff08ffffff09,
        },
        18 => Entries {
            straight: 0xffffffffffffffff,
            turned: 0xffffffffffffffff,
        },
        19 => Entries {
            straight: 0xffffffffffffffff,
            turned: 0xffffffffffffffff,
        },
        20 => Entries {
            straight: 0xffffffffffffffff,
            turned: 0xffffffffffffffff,
        },
        21 => Entries {
            straight: 0xffffffffffffffff,
            turned: 0xffffffffffffffff,
        },
        22 => Entries {
            straight: 0xffffffffffffffff,
            turned: 0xffffffffffffffff,
        },
        23 => Entries {
            straight: 0xffffffffffffffff,
            turned: 0xffffffffffffffff,
        },
        24 => Entries {
            straight: 0x5554565752535150,
            turned: 0x0e0f0d0c11101213,
        },
        25 => Entries {
            straight: 0xffffff58ffffff59,
            turned: 0xffffff0bffffff0a,
        },
        26 => Entries {
            straight: 0xffffffffffffffff,
            turned: 0xffffffffffffffff,
        },
        27 => Entries {
            straight: 0xffffffffffffffff,
            turned: 0xffffffffffffffff,
        },
        28 => Entries {
            straight: 0xffffffffffffffff,
            turned: 0xffffffffffffffff,
        },
        29 => Entries {
            straight: 0xffffffffffffffff,
            turned: 0xffffffffffffffff,
        },
        30 => Entries {
            straight: 0xffffffffffffffff,
            turned: 0xffffffffffffffff,
        },
        _ => Entries {
            straight: 0xffffffffffffffff,
            turned: 0xffffffffffffffff,
        },
    }
}
