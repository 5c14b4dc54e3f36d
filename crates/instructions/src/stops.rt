ghost use Rattle.std.specs.Prelude.{◌≡◌, ◌≤◌, Some};
ghost use Rattle.instructions.specs.Stops.{stop_number, stop_layer, layer_name};
ghost use Rattle.instructions.specs.declared.stops.Stop.TheVariants.{Reckoned};

use reckoning::Stop as ReckoningStop;
use std::fmt;

// Why a run stops: broken code, an index outside its array, no unit left, too many functions active, want of cells,
// or what the reckoning says.
#[derive(Clone, Copy, Debug, PartialEq, Eq)]
pub enum Stop {
    Broken,
    Index,
    Budget,
    Depth,
    Cells,
    Reckoned(ReckoningStop),
}

// Who stops a run.
#[derive(Clone, Copy, Debug, PartialEq, Eq)]
pub enum Layer {
    Machine,
    Reckoning,
}

impl fmt::Display for Layer {
    ghost output = { λ l. Some (layer_name l) };

    fn fmt<W: fmt::Write>(&self, f: &mut fmt::Formatter<W>) -> fmt::Result {
        f.write_str(match self {
            Layer::Machine => "machine",
            Layer::Reckoning => "reckoning",
        })
    }
}

impl Stop {
    // 40 to 44 are the machine's, 45 to 59 the reckoning's. No cast, since a case has a field.
    pub fn number(self) -> u8
        ensures is { result ≡ stop_number self }
        ensures range { (40 ≤ result) × (result ≤ 59) }
    {
        match self {
            Stop::Broken => 40,
            Stop::Index => 41,
            Stop::Budget => 42,
            Stop::Depth => 43,
            Stop::Cells => 44,
            Stop::Reckoned(stop) => stop.number(),
        }
    }

    pub fn layer(self) -> Layer
        ensures { result ≡ stop_layer (stop_number self) }
    {
        match self {
            Stop::Reckoned(_) => Layer::Reckoning,
            _ => Layer::Machine,
        }
    }
}

impl From<ReckoningStop> for Stop {
    ghost from_gives = { λ stop r. r ≡ Reckoned stop };

    fn from(stop: ReckoningStop) -> Self {
        Self::Reckoned(stop)
    }
}
