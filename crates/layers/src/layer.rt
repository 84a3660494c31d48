// The layers of a pair's picture, which are drawn one after another.
ghost use Rattle.std.specs.Prelude.{◌≡◌};
ghost use Rattle.layers.specs.Layers.{number_of, Names};

// What a layer shows: two lines, three kinds of marks, and the faulty replies in words.
#[derive(Clone, Copy)]
pub enum Layer {
    Levels,
    Temperatures,
    Faults,
    Alarm1,
    Alarm0,
    FaultList,
}

// A number that names no layer.
#[derive(Clone, Copy)]
pub struct UnknownLayer;

impl TryFrom<u8> for Layer {
    type Error = UnknownLayer;

    ghost try_from_gives = { Names };

    fn try_from(number: u8) -> Result<Self, UnknownLayer> {
        match number {
            0 => Ok(Layer::Levels),
            1 => Ok(Layer::Temperatures),
            2 => Ok(Layer::Faults),
            3 => Ok(Layer::Alarm1),
            4 => Ok(Layer::Alarm0),
            5 => Ok(Layer::FaultList),
            _ => Err(UnknownLayer),
        }
    }
}

impl Layer {
    // By this number the page's style knows a layer.
    pub fn number(self) -> u8
        ensures { result ≡ number_of self }
    {
        match self {
            Layer::Levels => 0,
            Layer::Temperatures => 1,
            Layer::Faults => 2,
            Layer::Alarm1 => 3,
            Layer::Alarm0 => 4,
            Layer::FaultList => 5,
        }
    }
}
