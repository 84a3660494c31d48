// The kinds of item. C has their numbers.
ghost use Rattle.std.specs.Prelude.{◌≡◌};
ghost use Rattle.enraf.specs.Inside.{Names, kind_number};

// An item alone, which is a request or a command; a setting; "taken"; a setting taken; a value; an error.
#[derive(Clone, Copy)]
pub(crate) enum ItemKind {
    Alone = 1,
    Setting = 2,
    Taken = 3,
    SettingTaken = 4,
    Value = 5,
    Failed = 6,
}

// A number that names no kind.
#[derive(Clone, Copy)]
pub(crate) struct UnknownKind;

impl TryFrom<u8> for ItemKind {
    type Error = UnknownKind;

    ghost try_from_gives = { Names };

    fn try_from(number: u8) -> Result<Self, UnknownKind> {
        match number {
            1 => Ok(ItemKind::Alone),
            2 => Ok(ItemKind::Setting),
            3 => Ok(ItemKind::Taken),
            4 => Ok(ItemKind::SettingTaken),
            5 => Ok(ItemKind::Value),
            6 => Ok(ItemKind::Failed),
            _ => Err(UnknownKind),
        }
    }
}

impl From<ItemKind> for u8 {
    ghost from_gives = { λ kind number. number ≡ kind_number kind };

    fn from(kind: ItemKind) -> u8 {
        kind as u8
    }
}
